//! Which register is given up.

ghost use Rattle.std.specs.Prelude.{◌≡◌, ◌≤◌, length, IfOk};
ghost use Rattle.trace_needs.specs.Needs.{last_mention};
ghost use Rattle.bottom_up.specs.Policy.{is_earlier, earlier, nearer, victim, before};

use loc_state::has;
use outside::Memory;
use std::alloc::Global;
use trace_needs::LateMentions;

/// A register, and the last position before that mentions its value, if one does.
#[derive(Clone, Copy)]
pub(crate) struct Found {
    pub(crate) reg: u8,
    pub(crate) mention: Option<u32>,
}

/// Of the registers the lowest one whose value isn't kept and was mentioned earliest before a position.
pub(crate) fn victim(
    alloc: Global,
    regs: &[Option<u32>],
    keep: &[u32],
    positions: &mut LateMentions<'_>,
    at: u32,
) -> Result<u8, Memory>
    requires { length regs.now ≤ 16 }
    ensures reg { IfOk result (λ reg. reg ≡ victim keep.now (before (last_mention positions.old) at) regs.now) }
    ensures same { positions.new ≡ positions.old }
{
    let mut best = None;
    let mut reg: u8 = 0;
    for content in regs {
        best = nearer(alloc, keep, positions, at, reg, *content, best)?;
        reg += 1;
    }
    match best {
        Some(found) => Ok(found.reg),
        None => Ok(0),
    }
}

// The best so far, with a register more.
fn nearer(
    alloc: Global,
    keep: &[u32],
    positions: &mut LateMentions<'_>,
    at: u32,
    reg: u8,
    content: Option<u32>,
    best: Option<Found>,
) -> Result<Option<Found>, Memory>
    ensures best { IfOk result (λ found. found ≡ nearer keep.now (before (last_mention positions.old) at) reg content best) }
    ensures same { positions.new ≡ positions.old }
{
    match content {
        Some(value) if !has(keep, value) => {
            let mention = positions.last_mention(alloc, value, at)?;
            Ok(earlier(reg, mention, best))
        }
        _ => Ok(best),
    }
}

fn earlier(reg: u8, mention: Option<u32>, best: Option<Found>) -> Option<Found>
    ensures { result ≡ earlier reg mention best }
{
    match best {
        Some(found) if !is_earlier(mention, found.mention) => Some(found),
        _ => Some(Found { reg, mention }),
    }
}

// Whether the first of two mentions is earlier; none is the earliest.
fn is_earlier(first: Option<u32>, second: Option<u32>) -> bool
    ensures { result ≡ is_earlier first second }
{
    match second {
        Some(second) => match first {
            Some(first) => first < second,
            None => true,
        },
        None => false,
    }
}
