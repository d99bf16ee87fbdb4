//! How operations are called.

ghost use Rattle.std.specs.Prelude.{◌≡◌, ◌++◌, OnOk, codes};
ghost use Rattle.trace_rows.specs.Names.{numbered, condition_text, code_text};

use html_text::{put_number, put_text};
use lir_core::Template;
use std::alloc::{AllocError, Global};

/// Appends a name, and a number behind it.
pub(crate) fn put_numbered(
    alloc: Global,
    text: &mut Vec<u8>,
    name: &[u8],
    number: u64,
) -> Result<(), AllocError>
    ensures { OnOk result (text.new.items ≡ text.old.items ++ numbered name.now number) }
{
    put_text(text, name)?;
    put_text(text, b" ")?;
    put_number(alloc, text, number)
}

/// The condition of a number.
pub(crate) fn condition_name(number: u8) -> &'static [u8]
    ensures { result.now ≡ condition_text number }
{
    match number {
        0 => b"eq",
        1 => b"ne",
        2 => b"hs",
        3 => b"lo",
        4 => b"mi",
        5 => b"pl",
        6 => b"vs",
        7 => b"vc",
        8 => b"hi",
        9 => b"ls",
        10 => b"ge",
        11 => b"lt",
        12 => b"gt",
        13 => b"le",
        14 => b"al",
        _ => b"",
    }
}

fn put_set(text: &mut Vec<u8>, condition: u8) -> Result<(), AllocError>
    ensures { OnOk result (text.new.items ≡ text.old.items ++ (codes "Set " ++ condition_text condition)) }
{
    put_text(text, b"Set ")?;
    put_text(text, condition_name(condition))
}

/// Appends what an operation does.
pub(crate) fn put_code(alloc: Global, text: &mut Vec<u8>, code: Template) -> Result<(), AllocError>
    ensures { OnOk result (text.new.items ≡ text.old.items ++ code_text code) }
{
    match code {
        Template::Const(n) => put_numbered(alloc, text, b"Const", n),
        Template::Global(n) => put_numbered(alloc, text, b"Global", u64::from(n)),
        Template::Local(n) => put_numbered(alloc, text, b"Local", u64::from(n)),
        Template::Plus(n) => put_numbered(alloc, text, b"Plus", u64::from(n)),
        Template::Code(n) => put_numbered(alloc, text, b"Code", u64::from(n)),
        Template::Arg(n) => put_numbered(alloc, text, b"Arg", u64::from(n)),
        Template::Load => put_text(text, b"Load"),
        Template::Store => put_text(text, b"Store"),
        Template::LoadByte => put_text(text, b"LoadByte"),
        Template::StoreByte => put_text(text, b"StoreByte"),
        Template::Add => put_text(text, b"Add"),
        Template::Sub => put_text(text, b"Sub"),
        Template::And => put_text(text, b"And"),
        Template::Or => put_text(text, b"Or"),
        Template::Eor => put_text(text, b"Eor"),
        Template::Bic => put_text(text, b"Bic"),
        Template::Lsl => put_text(text, b"Lsl"),
        Template::Asr => put_text(text, b"Asr"),
        Template::Ror => put_text(text, b"Ror"),
        Template::Mul => put_text(text, b"Mul"),
        Template::MulAdd => put_text(text, b"MulAdd"),
        Template::Neg => put_text(text, b"Neg"),
        Template::Not => put_text(text, b"Not"),
        Template::Abs => put_text(text, b"Abs"),
        Template::Max0 => put_text(text, b"Max0"),
        Template::Odd => put_text(text, b"Odd"),
        Template::Set(condition) => put_set(text, condition),
        Template::Flip => put_text(text, b"Flip"),
        Template::Bit => put_text(text, b"Bit"),
        Template::Span => put_text(text, b"Span"),
        Template::Has => put_text(text, b"Has"),
        Template::Div => put_text(text, b"Div"),
        Template::Mod => put_text(text, b"Mod"),
        Template::Below => put_text(text, b"Below"),
        Template::Fits => put_text(text, b"Fits"),
        Template::Byte => put_text(text, b"Byte"),
        Template::Elem => put_text(text, b"Elem"),
        Template::NotNil => put_text(text, b"NotNil"),
        Template::True => put_text(text, b"True"),
        Template::IsPtr(n) => put_numbered(alloc, text, b"IsPtr", u64::from(n)),
        Template::IsTag(n) => put_numbered(alloc, text, b"IsTag", u64::from(n)),
        Template::GuardPtr(n) => put_numbered(alloc, text, b"GuardPtr", u64::from(n)),
        Template::GuardTag(n) => put_numbered(alloc, text, b"GuardTag", u64::from(n)),
        Template::New => put_text(text, b"New"),
        Template::Call(n) => put_numbered(alloc, text, b"Call", u64::from(n)),
        Template::CallAt => put_text(text, b"CallAt"),
        Template::Copy => put_text(text, b"Copy"),
        Template::Zero => put_text(text, b"Zero"),
        Template::Compare => put_text(text, b"Compare"),
        Template::Svc(n) => put_numbered(alloc, text, b"Svc", u64::from(n)),
    }
}
