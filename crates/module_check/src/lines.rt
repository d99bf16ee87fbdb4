//! The line of JSON that tells a rule that is broken.

ghost use Rattle.std.specs.Prelude.{◌≡◌, ◌++◌, IfOk, OnOk};
ghost use Rattle.explanations.specs.Faults.{fault_entry};
ghost use Rattle.module_check.specs.Lines.{column_members, json_line, line_members, number_member, rule_members, text_member, title_in};

use explanations::fault_entry;
use json::Writer;
use std::alloc::{AllocError, Global};
use trc_answers::rule_name;

/// What is marked: the line and the column of its first byte, counted from 1, and the column behind its last.
#[derive(Clone, Copy)]
pub(crate) struct Mark {
    pub(crate) line: usize,
    pub(crate) column: usize,
    pub(crate) behind: usize,
}

/// What a rule's page says in a line, or no bytes where it has none.
fn title(rule: u8) -> &'static str
    ensures { result.now ≡ title_in (fault_entry rule) }
{
    match fault_entry(rule) {
        Some(entry) => entry.title,
        None => "",
    }
}

/// Writes a member with a text.
fn put_text(writer: &mut Writer, name: &str, text: &str) -> Result<(), AllocError>
    ensures before { writer.new.before ≡ writer.old.before }
    ensures tokens { OnOk result (writer.new.tokens ≡ writer.old.tokens ++ text_member name.now text.now) }
{
    writer.key(name)?;
    writer.string(text)
}

/// Writes a member with a number.
fn put_number(writer: &mut Writer, name: &str, number: usize) -> Result<(), AllocError>
    ensures before { writer.new.before ≡ writer.old.before }
    ensures tokens { OnOk result (writer.new.tokens ≡ writer.old.tokens ++ number_member name.now number) }
{
    writer.key(name)?;
    writer.u64(number as u64)
}

/// Writes the file and the line.
fn put_line(writer: &mut Writer, file: &str, line: usize) -> Result<(), AllocError>
    ensures before { writer.new.before ≡ writer.old.before }
    ensures tokens { OnOk result (writer.new.tokens ≡ writer.old.tokens ++ line_members file.now line) }
{
    put_text(writer, "file", file)?;
    put_number(writer, "line", line)
}

/// Writes the column, and that behind what is marked.
fn put_columns(writer: &mut Writer, column: usize, behind: usize) -> Result<(), AllocError>
    ensures before { writer.new.before ≡ writer.old.before }
    ensures tokens { OnOk result (writer.new.tokens ≡ writer.old.tokens ++ column_members column behind) }
{
    put_number(writer, "column", column)?;
    put_number(writer, "end_column", behind)
}

/// Writes which rule is broken.
fn put_rule(writer: &mut Writer, rule: u8) -> Result<(), AllocError>
    ensures before { writer.new.before ≡ writer.old.before }
    ensures tokens { OnOk result (writer.new.tokens ≡ writer.old.tokens ++ rule_members rule) }
{
    put_number(writer, "number", usize::from(rule))?;
    put_text(writer, "name", rule_name(rule))?;
    put_text(writer, "text", title(rule))
}

/// The line of JSON that tells that a rule is broken at what is marked in a file.
pub(crate) fn json_line(
    alloc: Global,
    file: &str,
    mark: Mark,
    rule: u8,
) -> Result<Vec<u8>, AllocError>
    ensures { IfOk result (λ line. line.items ≡ json_line file.now mark.line mark.column mark.behind rule) }
{
    let mut writer = Writer::new(Vec::new(alloc));
    writer.begin_object()?;
    put_line(&mut writer, file, mark.line)?;
    put_columns(&mut writer, mark.column, mark.behind)?;
    put_rule(&mut writer, rule)?;
    writer.end_object()?;
    let mut line = writer.into_inner();
    line.push(b'\n')?;
    Ok(line)
}
