//! The laws of the table, as clauses of functions that do nothing.

ghost use Rattle.std.specs.Prelude.{◌≡◌, ℕ, ◌<◌, ◌^◌, ◌↔◌, Some, IfSome};
ghost use Rattle.a64_table.specs.Table.{word_of, InRange};
ghost use Rattle.a64_table.specs.Decode.{decode_of};
ghost use Rattle.a64_instr.specs.declared.instr.Instr.{Instr};

use crate::decoder::decode;
use crate::encoder::encode;
use a64_instr::Instr;

/// What a word stands for has fields in range, and its word is that word.
#[tactic(auto, using(crate::proofs::Laws::again))]
pub fn decoded_word_is_the_word()
    ensures { (w : ℕ) → w < 2 ^ 32 → IfSome (decode_of w) (λ i. InRange i × (word_of i ≡ w)) }
{}

/// The word of an instruction with fields in range stands for that instruction, and so for no other.
#[tactic(auto, using(crate::proofs::Laws::decodes))]
pub fn word_stands_for_its_instruction()
    ensures { (i : Instr) → InRange i → decode_of (word_of i) ≡ Some i }
{}

/// A word stands for nothing exactly where it is the word of no instruction.
#[tactic(auto, using(crate::proofs::Laws::nothing))]
pub fn other_words_stand_for_nothing()
    ensures { (w : ℕ) → (decode_of w ≡ None) ↔ ((i : Instr) → InRange i → word_of i ≡ w → ⊥) }
{}

/// The word of an instruction stands for that instruction, whichever it is: each value has its fields in range.
pub fn encoded_instruction_is_decoded(instr: &Instr) -> Option<Instr>
    ensures { result ≡ Some instr.now }
{
    decode(encode(instr))
}
