//! The code that a machine runs: its words, and the instructions that they stand for.

ghost use Rattle.std.specs.Prelude.{◌≡◌, ◌^◌, ◌<◌, ◌≤◌, map, length, option_and_then, option_copied, IfOk, IfSome};
ghost use Rattle.a64_table.specs.Decode.{decode_of};
ghost use Rattle.a64_machine.specs.State.{place_at};
ghost use Rattle.a64_machine.specs.Machine.{fetch};
ghost use Rattle.a64_machine.specs.View.{stop_of};

use crate::answers::Step;
use a64_instr::Instr;
use a64_table::decode;
use outside::Memory;
use std::alloc::Global;
use std::marker::Model;

/// Where the code lies.
pub const CODE_BASE: u64 = 0x1_0000;

/// Words, each with the instruction that it stands for, so that no word is decoded twice.
#[derive(Drop)]
pub struct Code {
    words: Vec<u32>,
    instructions: Vec<Option<Instr>>,
}

impl Model for Code {
    ghost use Rattle.std.specs.Prelude.{◌≡◌, ℕ, ◌^◌, ◌≤◌, List, map, length};
    ghost use Rattle.a64_table.specs.Decode.{decode_of};

    ghost Value = { List ℕ };

    ghost view = { λ c. c.words.items };

    ghost invariant = { λ c. (c.instructions.items ≡ map decode_of c.words.items) × (length c.words.items ≤ 2 ^ 32) };
}

/// The instructions that words stand for, one after the other.
fn decoded(alloc: Global, words: &[u32]) -> Result<Vec<Option<Instr>>, Memory>
    ensures { IfOk result (λ v. v.items ≡ map decode_of words.now) }
{
    let mut instructions = Vec::with_capacity(alloc, words.len())?;
    for word in words {
        instructions.push(decode(*word))?;
    }
    Ok(instructions)
}

impl Code {
    /// The code with these words.
    pub fn of_words(alloc: Global, words: Vec<u32>) -> Result<Code, Memory>
        requires { length words.items ≤ 2 ^ 32 }
        ensures { IfOk result (λ c. c ≡ words.items) }
    {
        let instructions = decoded(alloc, &words)?;
        Ok(Code {
            words,
            instructions,
        })
    }

    /// The instruction of the word at an address, where there is a word and it stands for one. There, the word has a
    /// number of 32 bits.
    #[inline]
    pub fn instruction(&self, pc: u64) -> Option<&Instr>
        ensures is { option_copied result ≡ option_and_then decode_of (fetch self.now pc) }
        ensures place { IfSome result (λ _. place_at pc < 2 ^ 32) }
    {
        if pc < CODE_BASE || pc % 4 != 0 {
            return None;
        }
        match self.instructions.get(((pc - CODE_BASE) / 4) as usize) {
            Some(instruction) => instruction.as_ref(),
            None => None,
        }
    }

    /// Why no instruction is at an address: there is no word, or it isn't in the table.
    #[cold]
    pub fn stops(&self, pc: u64) -> Step
        ensures { result ≡ stop_of pc (fetch self.now pc) }
    {
        match self.word(pc) {
            None => Step::BadAddress(pc),
            Some(word) => Step::Undefined(word),
        }
    }

    /// The word at an address, where it is a multiple of 4 in the code.
    fn word(&self, pc: u64) -> Option<u32>
        ensures { result ≡ fetch self.now pc }
    {
        if pc < CODE_BASE || pc % 4 != 0 {
            return None;
        }
        self.words.get(((pc - CODE_BASE) / 4) as usize).copied()
    }
}
