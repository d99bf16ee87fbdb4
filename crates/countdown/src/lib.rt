//! A worked instance of the laws: a loop that counts down, and the words of a small machine for it.
//!
//! Its meaning is counted in turns; between it and the machine stands a system of spots in the loop, so that the
//! words are in step with the meaning through two layers, as the compiler's are through its own.
#![tactic(auto)]

ghost use Rattle.std.specs.Prelude.{◌≡◌, ℕ, List, [], ◌∷◌, ◌++◌, length, IfOk, OnOk};
ghost use Rattle.run_laws.specs.Runs.{InStep, run, Trapped};
ghost use Rattle.countdown.specs.Countdown.{meaning, code_of, words_of, SameTrap, Undefined, machine, at_start};

use std::alloc::{AllocError, Global};

/// What a round of the loop does, one act after the other.
#[derive(Clone, Copy)]
pub enum Act {
    /// Writes the counter.
    Print,
    /// Takes one from the counter; a trap where it is 0.
    Down,
}

/// `counter := start; WHILE counter # 0 DO body END`.
#[derive(Drop)]
pub struct Countdown {
    /// What the counter is at first.
    pub start: u64,
    /// One round.
    pub body: Vec<Act>,
}

/// A word of the machine, which has a counter and a place, the index of its next word.
#[derive(Clone, Copy, PartialEq, Eq, Debug)]
pub enum Word {
    /// Sets the counter.
    Load(u64),
    /// Goes to the place where the counter isn't 0, else on.
    JumpIfPositive(u64),
    /// Ends.
    Halt,
    /// Writes the counter.
    Write,
    /// Traps where the counter is 0.
    TrapIfZero,
    /// Takes one from the counter.
    Less,
    /// Goes to the place.
    Jump(u64),
}

/// The place of the loop's test.
const TEST: u64 = 1;

/// The place of the body's first word.
const BODY: u64 = 3;

/// The words of a loop, one list from its start to the jump back; an error for want of memory alone.
pub fn lower(alloc: Global, program: &Countdown) -> Result<Vec<Word>, AllocError>
    ensures words { IfOk result (λ v. v.items ≡ words_of program.now) }
    ensures in_step { IfOk result (λ v. InStep (machine v.items) (length v.items) SameTrap at_start (meaning program.now)) }
    ensures defined { IfOk result (λ v. (m : ℕ) (out : List ℕ) → run (machine v.items).step m at_start [] ≡ Trapped Undefined out → ⊥) }
{
    let mut words = Vec::new(alloc);
    words.push(Word::Load(program.start))?;
    words.push(Word::JumpIfPositive(BODY))?;
    words.push(Word::Halt)?;
    for act in &program.body {
        add_act(&mut words, *act)?;
    }
    words.push(Word::Jump(TEST))?;
    Ok(words)
}

// The words of one act.
fn add_act(words: &mut Vec<Word>, act: Act) -> Result<(), AllocError>
    ensures { OnOk result (words.new.items ≡ words.old.items ++ code_of (act ∷ [])) }
{
    match act {
        Act::Print => {
            words.push(Word::Write)?;
        }
        Act::Down => {
            words.push(Word::TrapIfZero)?;
            words.push(Word::Less)?;
        }
    }
    Ok(())
}
