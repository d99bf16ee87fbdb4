//! Words of instructions, and what makes a constant.

ghost use Rattle.std.specs.Prelude.{◌≡◌, ℕ, [], ◌∷◌, ◌++◌, map, OnOk};
ghost use Rattle.a64_numbers.specs.Moves.{given, constant_moves};
ghost use Rattle.a64_table.specs.Table.{word_of};
ghost use Rattle.placed_code.specs.Words.{move_word};

use crate::shapes::small;
use a64_instr::{Instr, Reg};
use a64_numbers::{Move, constant_moves};
use a64_table::encode;
use outside::Memory;

/// Appends an instruction's word.
#[inline(always)]
pub(crate) fn push(words: &mut Vec<u32>, instr: Instr) -> Result<(), Memory>
    ensures { OnOk result (words.new.items ≡ words.old.items ++ word_of instr ∷ []) }
{
    words.push(encode(&instr))?;
    Ok(())
}

/// Appends the words of instructions.
pub(crate) fn push_all(words: &mut Vec<u32>, instrs: &[Instr]) -> Result<(), Memory>
    ensures { OnOk result (words.new.items ≡ words.old.items ++ map word_of instrs.now) }
{
    for instr in instrs {
        words.push(encode(instr))?;
    }
    Ok(())
}

/// A move of sixteen bits into a register.
fn instr_of(rd: Reg, step: Move) -> Instr
    ensures { result ≡ move_word rd step }
{
    match step {
        Move::Movz(imm, half) => Instr::Movz { rd, imm, half },
        Move::Movn(imm, half) => Instr::Movn { rd, imm, half },
        Move::Movk(imm, half) => Instr::Movk { rd, imm, half },
    }
}

/// Appends a move of sixteen bits into a register, where there is one.
fn push_move(words: &mut Vec<u32>, rd: Reg, step: Option<Move>) -> Result<(), Memory>
    ensures { OnOk result (words.new.items ≡ words.old.items ++ map word_of (map (move_word rd) (given (step ∷ [])))) }
{
    match step {
        None => Ok(()),
        Some(step) => push(words, instr_of(rd, step)),
    }
}

/// Appends the moves that make a number in a register.
pub(crate) fn push_constant(words: &mut Vec<u32>, rd: Reg, number: u64) -> Result<(), Memory>
    ensures { OnOk result (words.new.items ≡ words.old.items ++ map word_of (map (move_word rd) (constant_moves number))) }
{
    // One move makes a number of sixteen bits, as most are.
    if number < 65_536 {
        return push(words, small(rd, number as u32));
    }
    push_moves(words, rd, number)
}

/// Appends the moves that make a number in a register, each where it is there.
#[inline(never)]
fn push_moves(words: &mut Vec<u32>, rd: Reg, number: u64) -> Result<(), Memory>
    ensures { OnOk result (words.new.items ≡ words.old.items ++ map word_of (map (move_word rd) (constant_moves number))) }
{
    let [first, second, third, fourth] = constant_moves(number);
    push_move(words, rd, first)?;
    push_move(words, rd, second)?;
    push_move(words, rd, third)?;
    push_move(words, rd, fourth)?;
    Ok(())
}
