//! The words of entries and ends of procedures.

ghost use Rattle.std.specs.Prelude.{◌≡◌, ℕ, ◌*◌, ◌<◌, ◌^◌, [], ◌∷◌, ◌++◌, map, OnOk};
ghost use Rattle.a64_table.specs.Table.{word_of};
ghost use Rattle.a64_instr.specs.declared.instr.Instr.TheVariants.{Ret};
ghost use Rattle.placed_code.specs.Words.{depth_words, undepth_words, frame_words, unframe_words, room_words, unroom_words, data_words, undata_words, taking, giving, count_words};
ghost use Rattle.link_words.specs.Frames.{FrameFits, opening, closing, taken, given_back};

use crate::pushing::{push, push_all, push_constant};
use crate::shapes::*;
use a64_instr::{Cond, Instr};
use outside::Memory;

/// A procedure's frame: whether calls of it are counted, its slots, those for arguments among them, and its local data.
#[derive(Clone, Copy)]
pub struct Frame {
    pub counted: bool,
    pub slots: u32,
    pub outs: u32,
    pub cells: u64,
    pub bytes: u32,
}

/// Appends the words of an entry.
pub fn push_prologue(words: &mut Vec<u32>, frame: Frame) -> Result<(), Memory>
    requires { FrameFits frame }
    ensures { OnOk result (words.new.items ≡ words.old.items ++ map word_of (opening frame)) }
{
    push_depth(words, frame.counted)?;
    push_frame(words, frame.slots, frame.outs)?;
    push_room(words, frame.cells)?;
    push_data(words, frame.bytes)?;
    Ok(())
}

/// Appends the words of a return, behind the result's.
pub fn push_epilogue(words: &mut Vec<u32>, frame: Frame) -> Result<(), Memory>
    requires { FrameFits frame }
    ensures { OnOk result (words.new.items ≡ words.old.items ++ map word_of (closing frame)) }
{
    push_unframe(words, frame.slots, frame.outs)?;
    push_undata(words, frame.bytes)?;
    push_unroom(words, frame.cells)?;
    push_undepth(words, frame.counted)?;
    push_return(words)?;
    Ok(())
}

fn push_depth(words: &mut Vec<u32>, counted: bool) -> Result<(), Memory>
    ensures { OnOk result (words.new.items ≡ words.old.items ++ map word_of (depth_words counted)) }
{
    let depth = register(20);
    if counted {
        push_all(
            words,
            &[skips_nonzero(depth), brk(8), sub_low(depth, depth, 1)],
        )
    } else {
        Ok(())
    }
}

fn push_undepth(words: &mut Vec<u32>, counted: bool) -> Result<(), Memory>
    ensures { OnOk result (words.new.items ≡ words.old.items ++ map word_of (undepth_words counted)) }
{
    let depth = register(20);
    if counted {
        push(words, add_low(depth, depth, 1))
    } else {
        Ok(())
    }
}

fn push_frame(words: &mut Vec<u32>, slots: u32, outs: u32) -> Result<(), Memory>
    requires slots { slots < 2 ^ 21 }
    requires outs { outs < 2 ^ 12 }
    ensures { OnOk result (words.new.items ≡ words.old.items ++ map word_of (frame_words (8 * slots) outs)) }
{
    let bytes = 8 * slots;
    let sp = register(31);
    push_all(
        words,
        &[
            sub_high(sp, sp, bytes),
            sub_low(sp, sp, bytes),
            store(register(30), sp, outs),
        ],
    )
}

fn push_unframe(words: &mut Vec<u32>, slots: u32, outs: u32) -> Result<(), Memory>
    requires slots { slots < 2 ^ 21 }
    requires outs { outs < 2 ^ 12 }
    ensures { OnOk result (words.new.items ≡ words.old.items ++ map word_of (unframe_words (8 * slots) outs)) }
{
    let bytes = 8 * slots;
    let sp = register(31);
    push_all(
        words,
        &[
            load(register(30), sp, outs),
            add_high(sp, sp, bytes),
            add_low(sp, sp, bytes),
        ],
    )
}

fn push_room(words: &mut Vec<u32>, cells: u64) -> Result<(), Memory>
    ensures { OnOk result (words.new.items ≡ words.old.items ++ map word_of (room_words cells)) }
{
    if cells == 0 {
        Ok(())
    } else {
        push_taking(words, cells)
    }
}

fn push_unroom(words: &mut Vec<u32>, cells: u64) -> Result<(), Memory>
    ensures { OnOk result (words.new.items ≡ words.old.items ++ map word_of (unroom_words cells)) }
{
    if cells == 0 {
        Ok(())
    } else {
        push_giving(words, cells)
    }
}

/// Appends what takes cells from those that are left, or traps.
fn push_taking(words: &mut Vec<u32>, cells: u64) -> Result<(), Memory>
    ensures { OnOk result (words.new.items ≡ words.old.items ++ map word_of (taking cells)) }
{
    push_count(words, cells)?;
    push_taken(words)?;
    Ok(())
}

/// Appends what gives cells back.
fn push_giving(words: &mut Vec<u32>, cells: u64) -> Result<(), Memory>
    ensures { OnOk result (words.new.items ≡ words.old.items ++ map word_of (giving cells)) }
{
    push_count(words, cells)?;
    push_given(words)?;
    Ok(())
}

fn push_count(words: &mut Vec<u32>, cells: u64) -> Result<(), Memory>
    ensures { OnOk result (words.new.items ≡ words.old.items ++ map word_of (count_words cells)) }
{
    push_constant(words, register(16), cells)
}

fn push_taken(words: &mut Vec<u32>) -> Result<(), Memory>
    ensures { OnOk result (words.new.items ≡ words.old.items ++ map word_of taken) }
{
    let (x, left) = (register(16), register(23));
    push_all(
        words,
        &[
            against(left, x),
            skips(Cond::Hs),
            brk(9),
            sub(left, left, x),
        ],
    )
}

fn push_given(words: &mut Vec<u32>) -> Result<(), Memory>
    ensures { OnOk result (words.new.items ≡ words.old.items ++ map word_of given_back) }
{
    let left = register(23);
    push_all(words, &[add(left, left, register(16))])
}

fn push_return(words: &mut Vec<u32>) -> Result<(), Memory>
    ensures { OnOk result (words.new.items ≡ words.old.items ++ map word_of (Ret 30 ∷ [])) }
{
    push_all(words, &[Instr::Ret { rn: register(30) }])
}

fn push_data(words: &mut Vec<u32>, bytes: u32) -> Result<(), Memory>
    requires { bytes < 2 ^ 24 }
    ensures { OnOk result (words.new.items ≡ words.old.items ++ map word_of (data_words bytes)) }
{
    if bytes == 0 {
        return Ok(());
    }
    let local = register(19);
    push_all(
        words,
        &[add_high(local, local, bytes), add_low(local, local, bytes)],
    )
}

fn push_undata(words: &mut Vec<u32>, bytes: u32) -> Result<(), Memory>
    requires { bytes < 2 ^ 24 }
    ensures { OnOk result (words.new.items ≡ words.old.items ++ map word_of (undata_words bytes)) }
{
    if bytes == 0 {
        return Ok(());
    }
    let local = register(19);
    push_all(
        words,
        &[sub_high(local, local, bytes), sub_low(local, local, bytes)],
    )
}
