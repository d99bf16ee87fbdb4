//! What is printed of replies.

ghost use Rattle.std.specs.Prelude.{◌≡◌, ◌++◌, map, OnOk, IfOk};
ghost use Rattle.batch_jobs.specs.Jobs.{plain_reply};
ghost use Rattle.batch_jobs.specs.Replies.{reply_line, replies_text};

use crate::jobs::JobReply;
use std::alloc::{AllocError, Global};

// Appends the line of a reply, and what was written behind it.
fn put_reply(
    alloc: Global,
    text: &mut Vec<u8>,
    sender: u8,
    index: usize,
    reply: &JobReply,
) -> Result<(), AllocError>
    ensures { OnOk result (text.new.items ≡ text.old.items ++ (reply_line sender index (plain_reply reply.now) ++ reply.now.written.items)) }
{
    let status = reply.status;
    let bytes = reply.written.len();
    let line = format!(in alloc; "{sender} {index} {status} {bytes}\n")?;
    text.extend_from_slice(line.as_bytes())?;
    text.extend_from_slice(reply.written.as_slice())?;
    Ok(())
}

// Appends a submitter's replies.
fn put_replies(
    alloc: Global,
    text: &mut Vec<u8>,
    sender: u8,
    replies: &[JobReply],
) -> Result<(), AllocError>
    ensures { OnOk result (text.new.items ≡ text.old.items ++ replies_text sender (map plain_reply replies.now)) }
{
    for index in 0..replies.len() {
        put_reply(alloc, text, sender, index, &replies[index])?;
    }
    Ok(())
}

/// The text of all replies: those of submitter 0, and then those of submitter 1.
pub(crate) fn text_of(
    alloc: Global,
    first: &[JobReply],
    second: &[JobReply],
) -> Result<Vec<u8>, AllocError>
    ensures { IfOk result (λ text. text.items ≡ replies_text 0 (map plain_reply first.now) ++ replies_text 1 (map plain_reply second.now)) }
{
    let mut text = Vec::new(alloc);
    put_replies(alloc, &mut text, 0, first)?;
    put_replies(alloc, &mut text, 1, second)?;
    Ok(text)
}
