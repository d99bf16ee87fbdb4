//! Where strings stand, a byte a character, each at a multiple of 8.

ghost use Rattle.std.specs.Prelude.{◌≡◌, suc, ◌+◌, min, IfOk};
ghost use Rattle.ob_types.specs.Meaning.{texts_of};
ghost use Rattle.ssa_lowered.specs.Data.{rounded};
ghost use Rattle.ssa_tables.specs.Places.{starts, string_size};
ghost use Rattle.ssa_tables.specs.Strings.{Adds, first_strings};

use crate::places::behind;
use items::Items;
use ob_types::{Characters, Procedure};
use outside::Memory;
use std::alloc::Global;

/// Where the strings of all procedures begin, and where the last one ends.
pub fn string_places(
    alloc: Global,
    first: u32,
    procedures: &[Procedure],
) -> Result<Items<u32>, Memory>
    ensures { IfOk result (λ list. list ≡ starts string_size first (texts_of procedures.now)) }
{
    let mut list = Items::new(alloc);
    let mut at = first;
    for q in procedures {
        at = add_strings(&mut list, at, q.texts.as_slice())?;
    }
    list.push(at)?;
    Ok(list)
}

/// Adds where each of some strings begins; the result is where the last one ends.
fn add_strings(list: &mut Items<u32>, first: u32, texts: &[Characters]) -> Result<u32, Memory>
    ensures { IfOk result (λ end. Adds list.old list.new first end texts.now) }
{
    let mut at = first;
    for text in texts {
        list.push(at)?;
        at = behind_string(at, text.len());
    }
    Ok(at)
}

/// Where a string of so many characters ends, with its 0X.
fn behind_string(at: u32, characters: usize) -> u32
    ensures { result ≡ min (at + rounded (suc characters)) 16777215 }
{
    if characters < 16777215 {
        behind(at, characters as u32 + 1)
    } else {
        16777215
    }
}

/// Which of all strings is each procedure's first. Over 2^32 strings are as if there were no memory for them.
pub fn first_strings(alloc: Global, procedures: &[Procedure]) -> Result<Items<u32>, Memory>
    ensures { IfOk result (λ list. list ≡ first_strings 0 procedures.now) }
{
    let mut list = Items::from_vec(Vec::with_capacity(alloc, procedures.len())?);
    let mut at: u32 = 0;
    for q in procedures {
        list.push(at)?;
        at = behind_strings(at, q.texts.len())?;
    }
    Ok(list)
}

/// The string behind so many others.
fn behind_strings(at: u32, count: usize) -> Result<u32, Memory>
    ensures { IfOk result (λ next. next ≡ at + count) }
{
    if count > (u32::MAX - at) as usize {
        return Err(Memory);
    }
    Ok(at + count as u32)
}
