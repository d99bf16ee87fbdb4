//! The module's text.

ghost use Rattle.std.specs.Prelude.{◌≡◌, ◌<◌, ◌≤◌, ◌++◌, OnOk, IfOk};
ghost use Rattle.bulk_text.specs.Bulk.{line, statement, behind_statement, statements, behind_statements, heading, ending, procedure, behind_procedure, procedures, behind_procedures, body, bulk_text};

use crate::generator::Generator;
use crate::statement::Kind;
use std::alloc::{AllocError, Global};

/// How many statements a procedure has.
const STATEMENTS: u32 = 8;

// Appends a line.
fn put_line(text: &mut Vec<u8>, bytes: &[u8]) -> Result<(), AllocError>
    ensures { OnOk result (text.new.items ≡ text.old.items ++ line bytes.now) }
{
    text.extend_from_slice(bytes)?;
    text.push(b'\n')?;
    Ok(())
}

// Appends a statement: its kind is drawn, and then its number.
#[tactic(auto, unfolding(crate::specs::Bulk::statement, crate::specs::Bulk::behind_statement))]
fn put_statement(
    alloc: Global,
    text: &mut Vec<u8>,
    random: &mut Generator,
) -> Result<(), AllocError>
    ensures text { OnOk result (text.new.items ≡ text.old.items ++ statement random.old) }
    ensures random { OnOk result (random.new ≡ behind_statement random.old) }
{
    let kind = Kind::of(random.draw() % 4);
    let k = random.draw() % 16 + 1;
    put_line(text, kind.statement(alloc, k)?.as_bytes())
}

// Appends a procedure's statements.
fn put_statements(
    alloc: Global,
    text: &mut Vec<u8>,
    random: &mut Generator,
) -> Result<(), AllocError>
    ensures text { OnOk result (text.new.items ≡ text.old.items ++ statements 8 random.old) }
    ensures random { OnOk result (random.new ≡ behind_statements 8 random.old) }
{
    for _ in 0..STATEMENTS {
        put_statement(alloc, text, random)?;
    }
    Ok(())
}

// Appends a procedure's last line: each but the first calls the one before it.
fn put_ending(alloc: Global, text: &mut Vec<u8>, i: u32) -> Result<(), AllocError>
    ensures { OnOk result (text.new.items ≡ text.old.items ++ ending i) }
{
    match i.checked_sub(1) {
        None => put_line(text, b"RETURN c + d END P0;"),
        Some(j) => {
            let last = format!(in alloc; "RETURN P{j}(c, d) END P{i};")?;
            put_line(text, last.as_bytes())
        }
    }
}

// Appends a procedure.
#[tactic(auto, unfolding(crate::specs::Bulk::procedure, crate::specs::Bulk::behind_procedure))]
fn put_procedure(
    alloc: Global,
    text: &mut Vec<u8>,
    i: u32,
    random: &mut Generator,
) -> Result<(), AllocError>
    ensures text { OnOk result (text.new.items ≡ text.old.items ++ procedure i random.old) }
    ensures random { OnOk result (random.new ≡ behind_procedure random.old) }
{
    let first = format!(in alloc;
        "PROCEDURE P{i}(a, b: INTEGER): INTEGER; VAR c, d, i: INTEGER; BEGIN c := a; d := b;"
    )?;
    put_line(text, first.as_bytes())?;
    put_statements(alloc, text, random)?;
    put_ending(alloc, text, i)
}

/// A module of so many procedures, 1 to 1,000, which print a number that they reckon with one another. The same seed and
/// size make the same text.
#[tactic(auto, unfolding(crate::specs::Bulk::bulk_text))]
pub fn bulk_text(alloc: Global, seed: u64, size: u32) -> Result<Vec<u8>, AllocError>
    requires { 1 ≤ size }
    ensures { IfOk result (λ text. text.items ≡ bulk_text seed size) }
{
    let mut text = Vec::new(alloc);
    let mut random = Generator::new(seed);
    put_line(&mut text, b"MODULE Bulk; IMPORT Out;")?;
    for i in 0..size {
        put_procedure(alloc, &mut text, i, &mut random)?;
    }
    let last = size - 1;
    let body = format!(in alloc; "BEGIN Out.Int(P{last}(1, 2), 0); Out.Ln END Bulk.")?;
    put_line(&mut text, body.as_bytes())?;
    Ok(text)
}
