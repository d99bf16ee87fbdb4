//! How many words entries, returns and ends have.

ghost use Rattle.std.specs.Prelude.{◌≡◌, ◌≤◌, ◌+◌, length};
ghost use Rattle.placed_code.specs.Placed.{Placed};
ghost use Rattle.placed_code.specs.Words.{prologue, epilogue, turned, jump_words, depth_words, undepth_words, room_words, unroom_words, data_words, undata_words};
ghost use Rattle.placed_code.specs.Layout.{jump_width, last_width};
ghost use Rattle.link_words.specs.Frames.{opening, closing, frame_in};
ghost use Rattle.link_layout.specs.Widths.{test_width};

use crate::widths::constant_width;
use block_runs::End;
use link_words::Frame;

/// How many words an entry has, without the copies there.
pub fn prologue_width(frame: Frame) -> u32
    ensures width { (pr : Placed) → frame_in pr ≡ frame → result ≡ length (prologue pr) }
    ensures most { result ≤ 16 }
{
    opening_width(frame)
}

/// How many words a return has, without the result's.
pub fn epilogue_width(frame: Frame) -> u32
    ensures width { (pr : Placed) → frame_in pr ≡ frame → result ≡ length (epilogue pr) }
    ensures most { result ≤ 12 }
{
    closing_width(frame)
}

/// How many words an end has, where a block falls next, without the copies before it.
pub fn end_width(frame: Frame, next: u32, end: &End) -> u32
    ensures width { (pr : Placed) → frame_in pr ≡ frame → result ≡ last_width next pr end.now }
    ensures most { result ≤ 13 }
{
    match end {
        End::Return(None) => epilogue_width(frame),
        End::Return(Some(_)) => 1 + epilogue_width(frame),
        End::Jump { to, .. } => width_of_jump(*to == next),
        End::Branch { yes, no, .. } => 1 + width_of_test(next, *yes, *no),
        End::Nonzero { yes, no, .. } => width_of_test(next, *yes, *no),
        End::Trap(_) => 1,
    }
}

fn width_of_jump(falls: bool) -> u32
    ensures width { result ≡ jump_width falls }
    ensures most { result ≤ 1 }
{
    if falls { 0 } else { 1 }
}

fn width_of_test(next: u32, one: u32, other: u32) -> u32
    ensures width { result ≡ test_width next one other }
    ensures most { result ≤ 2 }
{
    let falls = other == next;
    if one == next && !falls {
        1
    } else {
        1 + width_of_jump(falls)
    }
}

fn opening_width(frame: Frame) -> u32
    ensures width { result ≡ length (opening frame) }
    ensures most { result ≤ 16 }
{
    let depth = if frame.counted { 3 } else { 0 };
    depth + 3 + room_width(frame.cells) + data_width(frame.bytes)
}

fn closing_width(frame: Frame) -> u32
    ensures width { result ≡ length (closing frame) }
    ensures most { result ≤ 12 }
{
    let depth = if frame.counted { 1 } else { 0 };
    3 + data_width(frame.bytes) + unroom_width(frame.cells) + depth + 1
}

fn room_width(cells: u64) -> u32
    ensures width { result ≡ length (room_words cells) }
    ensures most { result ≤ 8 }
{
    if cells == 0 {
        0
    } else {
        constant_width(cells) + 4
    }
}

fn unroom_width(cells: u64) -> u32
    ensures width { result ≡ length (unroom_words cells) }
    ensures most { result ≤ 5 }
{
    if cells == 0 {
        0
    } else {
        constant_width(cells) + 1
    }
}

fn data_width(bytes: u32) -> u32
    ensures taken { result ≡ length (data_words bytes) }
    ensures given_back { result ≡ length (undata_words bytes) }
    ensures most { result ≤ 2 }
{
    if bytes == 0 { 0 } else { 2 }
}
