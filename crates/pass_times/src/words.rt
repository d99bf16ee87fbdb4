//! The words for a made module.

ghost use Rattle.std.specs.Prelude.{◌≤◌, IfOk};
ghost use Rattle.alloc_choice.specs.Choice.{IsFitChoice};

use source_image::Choice;
use std::alloc::{AllocError, Global};
use trc_words::{Request, WordsFault, read_words};

/// The options of `trc bulk`, in the order in which their values stand.
const OPTIONS: [&str; 4] = ["--policy", "--traces", "--regs", "--jobs"];

/// A made module, and by what choice it is compiled.
#[derive(Clone, Copy)]
pub struct Wanted {
    pub seed: u64,
    pub size: u32,
    pub choice: Choice,
}

// A call of `trc bulk` with these numbers and values of options.
fn bulk_call(alloc: Global, words: &[String]) -> Result<Vec<String>, AllocError> {
    let mut call = Vec::new(alloc);
    call.push(String::from_str(alloc, "bulk")?)?;
    for (index, word) in words.iter().enumerate() {
        if index >= 2 && index - 2 < OPTIONS.len() {
            call.push(String::from_str(alloc, OPTIONS[index - 2])?)?;
        }
        call.push(word.clone()?)?;
    }
    Ok(call)
}

/// What SEED, SIZE, POLICY, BUILDER, REGS and JOBS ask for, the last four as `trc` has them where they aren't there.
pub fn made_module(alloc: Global, words: &[String]) -> Result<Wanted, WordsFault>
    ensures some { IfOk result (λ w. 1 ≤ w.size) }
    ensures choice { IfOk result (λ w. IsFitChoice w.choice) }
{
    let call = bulk_call(alloc, words)?;
    match read_words(alloc, call.as_slice())? {
        Request::Bulk {
            seed,
            size,
            choice,
            ..
        } => Ok(Wanted { seed, size, choice }),
        _ => Err(WordsFault::Usage),
    }
}
