//! Copies between the spots of a frame, and how many words they have.

ghost use Rattle.std.specs.Prelude.{◌≡◌, ℕ, ◌<◌, ◌≤◌, ◌+◌, ◌^◌, List, [], ◌∷◌, map, length, Some, IfOk, IfErr};
ghost use Rattle.placed_code.specs.Placed.{Placed};
ghost use Rattle.placed_code.specs.Words.{copies_words};
ghost use Rattle.link_layout.specs.Spots.{spot_of, copy_of, IsFrameOf, room_of, home_room, slot_room, words_to, widths_of_copies, width_between};
ghost use Rattle.link_layout.specs.declared.fault.LayoutFault.TheVariants.{Limit, Memory};

use crate::fault::LayoutFault;
use crate::homes::Ranks;
use crate::starting::behind;
use link_words::is_near;

/// Where a copy takes a number or puts it: a register, the home that the value of that number has, a slot for an argument of a
/// call, X25, or X16.
#[derive(Clone, Copy)]
pub enum Spot {
    Reg(u8),
    Home(u32),
    Out(u32),
    Target,
    Saved,
}

/// The number in a spot goes to another.
#[derive(Clone, Copy)]
pub struct Copy {
    pub to: Spot,
    pub from: Spot,
}

/// Whether a spot is a register, a slot that one word reaches, one that two words reach, or none of these.
#[derive(Clone, Copy)]
pub(crate) enum Room {
    Register,
    Near,
    Far,
    Nowhere,
}

/// How many words copies have, in a frame with these homes and so many slots for arguments.
#[inline(always)]
pub fn copies_width(homes: &Ranks, outs: u32, copies: &[Copy]) -> Result<u32, LayoutFault>
    ensures width { IfOk result (λ width. (pr : Placed) → IsFrameOf homes.now outs pr → width ≡ length (copies_words pr (map copy_of copies.now))) }
    ensures fits { IfOk result (λ width. width ≤ 2 ^ 18) }
    ensures limit { IfErr result (λ fault. (pr : Placed) → IsFrameOf homes.now outs pr → 2 ^ 18 < length (copies_words pr (map copy_of copies.now))) }
{
    width_of_copies(homes, outs, copies)
}

#[inline(always)]
fn width_of_copies(homes: &Ranks, outs: u32, copies: &[Copy]) -> Result<u32, LayoutFault>
    ensures width { IfOk result (λ width. width ≡ widths_of_copies homes.now outs (map copy_of copies.now)) }
    ensures fits { IfOk result (λ width. width ≤ 2 ^ 18) }
    ensures limit { IfErr result (λ fault. 2 ^ 18 < widths_of_copies homes.now outs (map copy_of copies.now)) }
{
    if copies.is_empty() {
        Ok(0)
    } else {
        sum_of_widths(homes, outs, copies)
    }
}

/// How many words copies have. Most lists of copies are empty, so this stands apart from the test of that.
#[inline(never)]
fn sum_of_widths(homes: &Ranks, outs: u32, copies: &[Copy]) -> Result<u32, LayoutFault>
    ensures width { IfOk result (λ width. width ≡ widths_of_copies homes.now outs (map copy_of copies.now)) }
    ensures fits { IfOk result (λ width. width ≤ 2 ^ 18) }
    ensures limit { IfErr result (λ fault. 2 ^ 18 < widths_of_copies homes.now outs (map copy_of copies.now)) }
{
    let mut width = 0;
    for copy in copies {
        width = behind(width, copy_width(homes, outs, *copy))?;
    }
    Ok(width)
}

/// How many words a copy has.
fn copy_width(homes: &Ranks, outs: u32, copy: Copy) -> u32
    ensures width { result ≡ widths_of_copies homes.now outs (copy_of copy ∷ []) }
    ensures most { result ≤ 4 }
{
    between(
        room_for(homes, outs, copy.to),
        room_for(homes, outs, copy.from),
    )
}

fn between(to: Room, from: Room) -> u32
    ensures width { result ≡ width_between to from }
    ensures most { result ≤ 4 }
{
    match (to, from) {
        (Room::Nowhere, _) => 0,
        (_, Room::Nowhere) => 0,
        (Room::Register, Room::Register) => 1,
        _ => words_to(to) + words_to(from),
    }
}

/// How many words reach a slot.
fn words_to(room: Room) -> u32
    ensures width { result ≡ words_to room }
    ensures most { result ≤ 2 }
{
    match room {
        Room::Near => 1,
        Room::Far => 2,
        _ => 0,
    }
}

fn room_for(homes: &Ranks, outs: u32, spot: Spot) -> Room
    ensures { result ≡ room_of homes.now outs (spot_of spot) }
{
    match spot {
        Spot::Reg(number) if number < 16 => Room::Register,
        Spot::Reg(_) => Room::Nowhere,
        Spot::Home(value) => match homes.rank(value) {
            Some(rank) => home_room(outs, rank),
            None => Room::Nowhere,
        },
        Spot::Out(slot) if slot < outs => slot_room(slot as usize),
        Spot::Out(_) => Room::Nowhere,
        Spot::Target => Room::Register,
        Spot::Saved => Room::Register,
    }
}

/// The room of a home by its rank, behind so many slots for arguments and the link.
fn home_room(outs: u32, rank: usize) -> Room
    ensures { result ≡ home_room outs (Some rank) }
{
    slot_room((outs as usize + 1).saturating_add(rank))
}

fn slot_room(slot: usize) -> Room
    ensures { result ≡ slot_room slot }
{
    if is_near(slot) { Room::Near } else { Room::Far }
}
