//! All constants.

ghost use Rattle.std.specs.Prelude.{◌≡◌, ◌++◌, ◌<◌, ◌≤◌, ◌^◌, replicate, None, IfOk, OnOk};
ghost use Rattle.ob_types.specs.Meaning.{texts_of};
ghost use Rattle.ssa_lowered.specs.Constants.{constants as constants_there};
ghost use Rattle.ssa_lowered.specs.Data.{layout};
ghost use Rattle.ssa_tables.specs.Faults.{first_limit};
ghost use Rattle.ssa_tables.specs.Shared.{ServesAll};
ghost use Rattle.ssa_tables.specs.constants.Described.{all_described, all_texts, padded};

use crate::constants::descriptors::push_descriptor;
use ob_types::{Characters, Procedure, Program, Types};
use outside::Memory;
use ssa_exprs::ProgramTables;
use std::alloc::Global;

/// The constants of a program, by its tables, where the globals start at an address.
pub fn program_constants(
    alloc: Global,
    tables: &ProgramTables,
    program: &Program,
    globals: u32,
) -> Result<Vec<u8>, Memory>
    requires tables { ServesAll tables.now program.now }
    requires within { first_limit program.now ≡ None }
    ensures { IfOk result (λ bytes. bytes.items ≡ constants_there program.now (layout program.now.types) globals) }
{
    let mut bytes = Vec::new(alloc);
    let first = u64::from(globals) + u64::from(tables.descriptors);
    push_descriptors(&mut bytes, &program.types, first)?;
    push_procedures(&mut bytes, program.procedures.as_slice())?;
    Ok(bytes)
}

/// Adds all descriptors. Over 2^32 of them are as if there were no memory.
fn push_descriptors(bytes: &mut Vec<u8>, types: &Types, first: u64) -> Result<(), Memory>
    requires { first < 2 ^ 62 }
    ensures { OnOk result (bytes.new.items ≡ bytes.old.items ++ all_described types.now first) }
{
    let count = types.records().len();
    if count > u32::MAX as usize {
        return Err(Memory);
    }
    for r in 0..count {
        push_descriptor(bytes, types, first, r as u32)?;
    }
    Ok(())
}

/// Adds the strings of all procedures.
fn push_procedures(bytes: &mut Vec<u8>, procedures: &[Procedure]) -> Result<(), Memory>
    ensures { OnOk result (bytes.new.items ≡ bytes.old.items ++ all_texts (texts_of procedures.now)) }
{
    for q in procedures {
        push_texts(bytes, q.texts.as_slice())?;
    }
    Ok(())
}

/// Adds strings, each with its 0X and zeros up to where the next one begins.
fn push_texts(bytes: &mut Vec<u8>, texts: &[Characters]) -> Result<(), Memory>
    ensures { OnOk result (bytes.new.items ≡ bytes.old.items ++ all_texts texts.now) }
{
    for text in texts {
        push_text(bytes, text.as_slice())?;
    }
    Ok(())
}

/// Adds a string.
fn push_text(bytes: &mut Vec<u8>, text: &[u8]) -> Result<(), Memory>
    ensures { OnOk result (bytes.new.items ≡ bytes.old.items ++ padded text.now) }
{
    bytes.extend_from_slice(text)?;
    push_zeros(bytes, 8 - text.len() % 8)?;
    Ok(())
}

/// Adds some zeros, eight at most.
fn push_zeros(bytes: &mut Vec<u8>, count: usize) -> Result<(), Memory>
    requires { count ≤ 8 }
    ensures { OnOk result (bytes.new.items ≡ bytes.old.items ++ replicate count 0) }
{
    bytes.extend_from_slice(&[0; 8][..count])?;
    Ok(())
}
