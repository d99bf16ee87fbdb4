//! All modules.

ghost use Rattle.std.specs.Prelude.{◌≡◌, ◌≤◌, true, length, IsTrue, IfOk, IfErr};
ghost use Rattle.ob_types.specs.Counted.{IsCounted, IsLaidOut, HasOneNumberEach};
ghost use Rattle.ob_types.specs.Meaning.{texts_of};
ghost use Rattle.ob_types.specs.WellFormed.{well_formed};
ghost use Rattle.source_program.specs.Behind.{IsBehind};
ghost use Rattle.source_program.specs.Texts.{IsProgramOfTexts, IsSourceFault};

use crate::fault::SourceFault;
use crate::module::one_more;
use check_modules::programs::{Modules, into_program, no_modules};
use items::Items;
use ob_types::{Procedure, Program};
use std::alloc::Global;

// What is known behind all modules.
fn all_modules(alloc: Global, texts: &[Items<u8>]) -> Result<Modules, SourceFault>
    ensures behind { IfOk result (λ s. IsBehind texts.now (length texts.now) s) }
    ensures fault { IfErr result (λ e. IsSourceFault texts.now e) }
{
    let mut state = match no_modules(alloc) {
        Ok(state) => state,
        Err(_) => return Err(SourceFault::Memory),
    };
    for (index, text) in texts.iter().enumerate() {
        state = one_more(state, alloc, texts, index, text.as_slice())?;
    }
    Ok(state)
}

// Whether all strings of these procedures have numbers of 32 bits.
fn have_numbers(procedures: &[Procedure]) -> bool
    ensures { IsTrue result → length (texts_of procedures.now) ≤ 4294967295 }
{
    let mut left = u32::MAX as usize;
    for procedure in procedures {
        let count = procedure.texts.len();
        if count > left {
            return false;
        }
        left -= count;
    }
    true
}

/// The program of modules with these texts, each text read and judged before the next is begun; or the first fault. For over 2^32
/// strings there is no memory. The calls of its table of types that ask for counted types that are laid out, each with one number, may be made.
pub fn source_program(alloc: Global, texts: &[Items<u8>]) -> Result<Program, SourceFault>
    ensures program { IfOk result (λ p. IsProgramOfTexts texts.now p) }
    ensures well_formed { IfOk result (λ p. well_formed p ≡ true) }
    ensures counted { IfOk result (λ p. IsCounted p.types) }
    ensures laid_out { IfOk result (λ p. IsLaidOut p.types) }
    ensures one_number { IfOk result (λ p. HasOneNumberEach p.types) }
    ensures fault { IfErr result (λ e. IsSourceFault texts.now e) }
{
    let state = all_modules(alloc, texts)?;
    let program = into_program(state);
    if !have_numbers(program.procedures.as_slice()) {
        return Err(SourceFault::Memory);
    }
    Ok(program)
}
