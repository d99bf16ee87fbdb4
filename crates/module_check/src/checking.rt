//! Modules are judged.

ghost use Rattle.std.specs.Prelude.{◌≡◌, ◌^◌, ◌<◌, ◌≤◌, ℕ, List, Option, drop, length, map, IfNone, IfOk, IfSome};
ghost use Rattle.outside.specs.Files.{Held};
ghost use Rattle.source_program.specs.declared.fault.SourceFault.TheVariants as source;
ghost use Rattle.source_program.specs.Texts.{IsProgramOfTexts, IsSourceFault};
ghost use Rattle.ob_types.specs.declared.program.Program.{Program};
ghost use Rattle.trc_answers.specs.declared.causes.Cause.TheVariants as cause;
ghost use Rattle.trc_answers.specs.Answers.{Answers, devices};
ghost use Rattle.trc_answers.specs.Causes.{IsPlaced, name_at};
ghost use Rattle.trc_answers.specs.Reading.{FilesComeTo, IsTextHeld, IsTextIn};
ghost use Rattle.module_check.specs.Checks.{CheckComesTo, FindAnswers};
ghost use Rattle.module_check.specs.Lines.{fault_line};

use crate::lines::{Mark, json_line};
use crate::marks::marked;
use explanations::Format;
use items::Items;
use outside::{Files, Sink, write_all};
use source_program::{SourceFault, source_program};
use std::alloc::{AllocError, Global};
use trc_answers::{Cause, Device, Ending, position_of, print, read_texts};

/// The name of this number, or no bytes where there is none.
fn name_at<'a>(names: &[&'a str], number: usize) -> &'a str
    ensures { result.now ≡ name_at (map (λ name. name.now) names.now) number }
{
    if number < names.len() {
        names[number]
    } else {
        ""
    }
}

/// What stands in a text from this byte on.
fn rest_of(text: &[u8], at: usize) -> &[u8]
    ensures rest { result.now ≡ drop at text.now }
    // no text in memory is longer
    ensures short { length text.now < 2 ^ 63 }
{
    if at < text.len() { &text[at..] } else { &[] }
}

/// The line of JSON of a rule that is broken in a file's text at this byte.
fn fault_line(
    alloc: Global,
    file: &str,
    text: &[u8],
    rule: u8,
    at: usize,
) -> Result<Vec<u8>, AllocError>
    ensures { IfOk result (λ line. line.items ≡ fault_line file.now text.now rule at) }
{
    let place = position_of(text, at);
    let mark = Mark {
        line: place.line,
        column: place.column,
        behind: place.column + marked(rest_of(text, at)),
    };
    json_line(alloc, file, mark, rule)
}

// How a command ends where this rule is broken in the text of this number, at this byte.
fn broken(texts: &[Items<u8>], index: usize, rule: u8, at: u32) -> Ending
    requires few { length texts.now ≤ 64 }
    requires there { index < length texts.now }
    ensures cause { result.cause ≡ cause.Source rule index at }
    ensures placed { IsPlaced (IsTextIn texts.now) result.cause result.place }
{
    Ending {
        cause: Cause::Source {
            number: rule,
            module: index as u32,
            at,
        },
        place: position_of(texts[index].as_slice(), at as usize),
    }
}

// Writes the line of JSON of that on the output, and ends so.
fn find<O: Sink>(
    alloc: Global,
    names: &[&str],
    texts: &[Items<u8>],
    index: usize,
    rule: u8,
    at: u32,
    out: &mut O,
) -> Ending
    requires few { length texts.now ≤ 64 }
    requires there { index < length texts.now }
    ensures answers { FindAnswers (cause.Source rule index at)
        (fault_line (name_at (map (λ name. name.now) names.now) index) (name_at texts.now index) rule at)
        (O.account out.old) (O.account out.new) result.cause }
    ensures placed { IsPlaced (IsTextIn texts.now) result.cause result.place }
    ensures rises { (O.account out.old).faults ≤ (O.account out.new).faults }
{
    let file = name_at(names, index);
    let text = texts[index].as_slice();
    let Ok(line) = fault_line(alloc, file, text, rule, at as usize) else {
        return Ending::of(Cause::Memory);
    };
    match write_all(out, line.as_slice()) {
        Ok(()) => broken(texts, index, rule, at),
        Err(_) => Ending::of(Cause::WriteFault {
            device: Device::Output,
        }),
    }
}

// How a command ends where this rule is broken, which it tells in this format.
fn tell<O: Sink>(
    alloc: Global,
    names: &[&str],
    texts: &[Items<u8>],
    format: Format,
    index: usize,
    rule: u8,
    at: u32,
    out: &mut O,
) -> Ending
    requires few { length texts.now ≤ 64 }
    requires broken { IsSourceFault texts.now (source.Fault index rule at) }
    ensures answers { (held : Option Held) (faults : ℕ) (left : Option (List ℕ)) (input_faults : ℕ)
        → Answers (λ _. CheckComesTo format (map (λ name. name.now) names.now) texts.now)
        (devices held faults left input_faults (O.account out.old))
        (devices held faults left input_faults (O.account out.new)) result.cause }
    ensures placed { IsPlaced (IsTextIn texts.now) result.cause result.place }
    ensures rises { (O.account out.old).faults ≤ (O.account out.new).faults }
{
    match format {
        Format::Text => broken(texts, index, rule, at),
        Format::Json => find(alloc, names, texts, index, rule, at, out),
    }
}

// The first fault of texts, where they are no legal program.
fn first_fault(alloc: Global, texts: &[Items<u8>]) -> Option<SourceFault>
    ensures legal { IfNone result ((p : Program) × IsProgramOfTexts texts.now p) }
    ensures fault { IfSome result (λ fault. IsSourceFault texts.now fault) }
{
    match source_program(alloc, texts) {
        Ok(_) => None,
        Err(fault) => Some(fault),
    }
}

// Judges the texts of files with these names.
fn check_texts<O: Sink>(
    alloc: Global,
    names: &[&str],
    texts: &[Items<u8>],
    format: Format,
    out: &mut O,
) -> Ending
    requires { length texts.now ≤ 64 }
    ensures answers { (held : Option Held) (faults : ℕ) (left : Option (List ℕ)) (input_faults : ℕ)
        → Answers (λ _. CheckComesTo format (map (λ name. name.now) names.now) texts.now)
        (devices held faults left input_faults (O.account out.old))
        (devices held faults left input_faults (O.account out.new)) result.cause }
    ensures placed { IsPlaced (IsTextIn texts.now) result.cause result.place }
    ensures rises { (O.account out.old).faults ≤ (O.account out.new).faults }
{
    match first_fault(alloc, texts) {
        None => Ending::of(print(out, b"")),
        Some(SourceFault::TooLong { module }) => Ending::of(Cause::Limit {
            number: 55,
            index: module as u32,
        }),
        Some(SourceFault::Fault { module, number, at }) => {
            tell(alloc, names, texts, format, module, number, at, out)
        }
        Some(SourceFault::Memory) => Ending::of(Cause::Memory),
    }
}

/// Judges the modules in the files of these names: where all is well nothing is written, and the first rule that is broken is told in
/// this format. Limits of programs aren't tried, since nothing is made of the modules.
pub fn check<F: Files, O: Sink>(
    alloc: Global,
    names: &[&str],
    format: Format,
    files: &mut F,
    out: &mut O,
) -> Ending
    ensures answers { (left : Option (List ℕ)) (input_faults : ℕ)
        → Answers (λ _. FilesComeTo (F.held files.old) (map (λ name. name.now) names.now) (CheckComesTo format (map (λ name. name.now) names.now)))
        (devices (F.held files.old) (F.faults files.old) left input_faults (O.account out.old))
        (devices (F.held files.new) (F.faults files.new) left input_faults (O.account out.new)) result.cause }
    ensures placed { IsPlaced (IsTextHeld (F.held files.old) (map (λ name. name.now) names.now)) result.cause result.place }
    ensures files_rise { F.faults files.old ≤ F.faults files.new }
    ensures out_rises { (O.account out.old).faults ≤ (O.account out.new).faults }
{
    match read_texts(alloc, names, files) {
        Ok(texts) => check_texts(alloc, names, texts.as_slice(), format, out),
        Err(cause) => Ending::of(cause),
    }
}
