//! The line that tells of the choice, and the names of files.

ghost use Rattle.std.specs.Prelude.{◌≡◌, ◌++◌, map, OnOk};
ghost use Rattle.whole_page.specs.Choices.{builder_name, builder_text, choice_text, choices_text, file_text, files_text, frame_text, image_text, other_text, policy_name, policy_text, registers_text, words_text};

use crate::frames::{hint, sum_open};
use alloc_choice::{Builder, Choice, Policy};
use html_text::{put_escaped, put_text};
use image_form::Image;
use page_rows::put_labelled;
use std::alloc::{AllocError, Global};

// The word of a policy.
#[tactic(auto, unfolding(crate::specs::Choices::policy_name))]
fn policy_name(policy: Policy) -> &'static [u8]
    ensures { result.now ≡ policy_name policy }
{
    match policy {
        Policy::Plain => b"plain",
        Policy::Linear => b"linear",
        Policy::BottomUp => b"bottomup",
        Policy::Mixed => b"mixed",
    }
}

// The word of a builder.
#[tactic(auto, unfolding(crate::specs::Choices::builder_name))]
fn builder_name(builder: Builder) -> &'static [u8]
    ensures { result.now ≡ builder_name builder }
{
    match builder {
        Builder::Uni => b"uni",
        Builder::Bi => b"bi",
    }
}

// Appends the name of a file, and a blank.
#[tactic(auto, unfolding(crate::specs::Choices::file_text))]
fn put_file(text: &mut Vec<u8>, name: &str) -> Result<(), AllocError>
    ensures { OnOk result (text.new.items ≡ text.old.items ++ file_text name.now) }
{
    put_escaped(text, name.as_bytes())?;
    put_text(text, b" ")
}

/// Appends the names of files, a blank behind each.
pub(crate) fn put_files(text: &mut Vec<u8>, names: &[&str]) -> Result<(), AllocError>
    ensures { OnOk result (text.new.items ≡ text.old.items ++ files_text (map (λ name. name.now) names.now)) }
{
    for name in names {
        put_file(text, name)?;
    }
    Ok(())
}

/// Appends a policy.
#[tactic(auto, unfolding(crate::specs::Choices::policy_text))]
pub(crate) fn put_policy(text: &mut Vec<u8>, policy: Policy) -> Result<(), AllocError>
    ensures { OnOk result (text.new.items ≡ text.old.items ++ policy_text policy) }
{
    put_text(text, b"policy ")?;
    put_text(text, policy_name(policy))
}

// Appends a builder.
#[tactic(auto, unfolding(crate::specs::Choices::builder_text))]
fn put_builder(text: &mut Vec<u8>, builder: Builder) -> Result<(), AllocError>
    ensures { OnOk result (text.new.items ≡ text.old.items ++ builder_text builder) }
{
    put_text(text, b", traces ")?;
    put_text(text, builder_name(builder))
}

// Appends how many registers there are.
#[tactic(auto, unfolding(crate::specs::Choices::registers_text))]
fn put_registers(alloc: Global, text: &mut Vec<u8>, registers: u8) -> Result<(), AllocError>
    ensures { OnOk result (text.new.items ≡ text.old.items ++ registers_text registers) }
{
    put_labelled(alloc, text, b", ", u64::from(registers), b" registers")
}

// Appends what is chosen.
#[tactic(auto, unfolding(crate::specs::Choices::choice_text))]
fn put_choice(alloc: Global, text: &mut Vec<u8>, choice: &Choice) -> Result<(), AllocError>
    ensures { OnOk result (text.new.items ≡ text.old.items ++ choice_text choice.now) }
{
    put_policy(text, choice.policy)?;
    put_builder(text, choice.builder)?;
    put_registers(alloc, text, choice.regs)
}

// Appends how long the code is.
#[tactic(auto, unfolding(crate::specs::Choices::words_text))]
fn put_words(alloc: Global, text: &mut Vec<u8>, words: usize) -> Result<(), AllocError>
    ensures { OnOk result (text.new.items ≡ text.old.items ++ words_text words) }
{
    put_labelled(alloc, text, b"; ", words as u64, b" words of code")
}

// Appends how large the greatest frame is.
#[tactic(auto, unfolding(crate::specs::Choices::frame_text))]
fn put_frame(alloc: Global, text: &mut Vec<u8>, bytes: u32) -> Result<(), AllocError>
    ensures { OnOk result (text.new.items ≡ text.old.items ++ frame_text bytes) }
{
    put_labelled(alloc, text, b", frame ", u64::from(bytes), b" bytes")
}

// Appends both.
#[tactic(auto, unfolding(crate::specs::Choices::image_text))]
fn put_image(alloc: Global, text: &mut Vec<u8>, image: &Image) -> Result<(), AllocError>
    ensures { OnOk result (text.new.items ≡ text.old.items ++ image_text image.now) }
{
    put_words(alloc, text, image.code.as_slice().len())?;
    put_frame(alloc, text, image.frame)
}

// Appends the other policy, where there is one.
#[tactic(auto, unfolding(crate::specs::Choices::other_text))]
fn put_other(text: &mut Vec<u8>, other: Option<Policy>) -> Result<(), AllocError>
    ensures { OnOk result (text.new.items ≡ text.old.items ++ other_text other) }
{
    match other {
        Some(policy) => {
            put_text(text, b"; against ")?;
            put_policy(text, policy)
        }
        None => Ok(()),
    }
}

/// Appends the line below the page's heading, and the header's end.
#[tactic(auto, unfolding(crate::specs::Choices::choices_text))]
pub(crate) fn put_choices(
    alloc: Global,
    text: &mut Vec<u8>,
    choice: &Choice,
    other: Option<Policy>,
    image: &Image,
) -> Result<(), AllocError>
    ensures { OnOk result (text.new.items ≡ text.old.items ++ choices_text choice.now other image.now) }
{
    put_text(text, sum_open())?;
    put_choice(alloc, text, choice)?;
    put_image(alloc, text, image)?;
    put_other(text, other)?;
    put_text(text, hint())
}
