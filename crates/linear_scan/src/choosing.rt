//! Which register is given up.

ghost use Rattle.std.specs.Prelude.{◌≡◌, ◌<◌, ◌≤◌, length};
ghost use Rattle.trace_needs.specs.Asked.{need_told};
ghost use Rattle.linear_scan.specs.Policy.{is_later, later, farther, victim, from};

use loc_state::has;
use trace_needs::Needs;

/// A register, and the next position that needs its value, if one does.
#[derive(Clone, Copy)]
pub(crate) struct Found {
    pub(crate) reg: u8,
    pub(crate) need: Option<u32>,
}

/// Of the registers the lowest one whose value isn't kept and has the latest need from a position on.
pub(crate) fn victim(regs: &[Option<u32>], keep: &[u32], positions: &Needs, at: u32) -> u8
    requires some { 0 < length regs.now }
    requires few { length regs.now ≤ 16 }
    ensures victim { result ≡ victim keep.now (from (need_told positions.now) at) regs.now }
    ensures below { result < length regs.now }
{
    let mut best = None;
    let mut reg: u8 = 0;
    for content in regs {
        best = farther(keep, positions, at, reg, *content, best);
        reg += 1;
    }
    match best {
        Some(found) => found.reg,
        None => 0,
    }
}

// The best so far, with a register more.
fn farther(
    keep: &[u32],
    positions: &Needs,
    at: u32,
    reg: u8,
    content: Option<u32>,
    best: Option<Found>,
) -> Option<Found>
    ensures { result ≡ farther keep.now (from (need_told positions.now) at) reg content best }
{
    match content {
        Some(value) if !has(keep, value) => later(reg, positions.next_need(value, at), best),
        _ => best,
    }
}

fn later(reg: u8, need: Option<u32>, best: Option<Found>) -> Option<Found>
    ensures { result ≡ later reg need best }
{
    match best {
        Some(found) if !is_later(found.need, need) => Some(found),
        _ => Some(Found { reg, need }),
    }
}

// Whether the second of two needs is later; none is the latest.
fn is_later(first: Option<u32>, second: Option<u32>) -> bool
    ensures { result ≡ is_later first second }
{
    match first {
        Some(first) => match second {
            Some(second) => first < second,
            None => true,
        },
        None => false,
    }
}
