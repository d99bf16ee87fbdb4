//! How many words operations have.

ghost use Rattle.std.specs.Prelude.{◌≡◌, ◌≤◌, ◌+◌, [], ◌∷◌, map, length};
ghost use Rattle.a64_numbers.specs.Moves.{given, constant_moves};
ghost use Rattle.placed_code.specs.Words.{load_slot, move_word};
ghost use Rattle.placed_code.specs.Layout.{op_width};

use a64_numbers::{Move, constant_moves};
use block_runs::Code;
use link_words::is_near;

/// How many words an operation has, in a frame of so many slots.
pub fn operation_width(slots: u32, code: Code) -> u32
    ensures { result ≡ op_width slots code }
{
    match code {
        Code::Const(number) => constant_width(number),
        Code::Global(_) => 2,
        Code::Local(_) => 2,
        Code::Plus(_) => 2,
        Code::Code(_) => 2,
        Code::Arg(word) => load_width(slots as usize + word.saturating_sub(4) as usize),
        Code::Load => 1,
        Code::Store => 1,
        Code::LoadByte => 1,
        Code::StoreByte => 1,
        Code::Add => 1,
        Code::Sub => 1,
        Code::And => 1,
        Code::Or => 1,
        Code::Eor => 1,
        Code::Bic => 1,
        Code::Lsl => 1,
        Code::Asr => 1,
        Code::Ror => 1,
        Code::Mul => 1,
        Code::MulAdd => 1,
        Code::Neg => 1,
        Code::Not => 1,
        Code::Abs => 2,
        Code::Max0 => 2,
        Code::Odd => 2,
        Code::Set(_) => 2,
        Code::Flip => 2,
        Code::Bit => 2,
        Code::Span => 7,
        Code::Has => 3,
        Code::Div => 6,
        Code::Mod => 7,
        Code::Below => 3,
        Code::Fits => 3,
        Code::Byte => 3,
        Code::Elem => 3,
        Code::NotNil => 2,
        Code::True => 2,
        Code::IsPtr(_) => 6,
        Code::IsTag(_) => 3,
        Code::GuardPtr(_) => 7,
        Code::GuardTag(_) => 4,
        Code::New => 8,
        Code::Call(_) => 1,
        Code::CallAt => 1,
        Code::Copy => 1,
        Code::Zero => 1,
        Code::Compare => 1,
        Code::Svc(_) => 1,
    }
}

/// How many words load a register from a slot.
fn load_width(slot: usize) -> u32
    ensures { result ≡ length (load_slot 0 slot) }
{
    if is_near(slot) { 1 } else { 2 }
}

/// How many words make a number in a register, of which there are at most four.
pub(crate) fn constant_width(number: u64) -> u32
    ensures all { result ≡ length (constant_moves number) }
    ensures mapped { result ≡ length (map (move_word 0) (constant_moves number)) }
    ensures most { result ≤ 4 }
{
    // One move makes a number of sixteen bits, as most are.
    if number < 65_536 {
        return 1;
    }
    moves_width(number)
}

#[inline(never)]
fn moves_width(number: u64) -> u32
    ensures all { result ≡ length (constant_moves number) }
    ensures most { result ≤ 4 }
{
    let [first, second, third, fourth] = constant_moves(number);
    one_if_given(first) + one_if_given(second) + one_if_given(third) + one_if_given(fourth)
}

fn one_if_given(step: Option<Move>) -> u32
    ensures width { result ≡ length (given (step ∷ [])) }
    ensures most { result ≤ 1 }
{
    match step {
        None => 0,
        Some(_) => 1,
    }
}
