//! The destinations of moves.

ghost use Rattle.std.specs.Prelude.{◌≡◌, not, IfOk, OnOk, ◌||◌};
ghost use Rattle.lir_core.specs.Spots.{Spot, spot, same};
ghost use Rattle.alloc_audit.specs.Tests.{are_distinct};
ghost use Rattle.alloc_audit.specs.Destinations.{is_taken, no_spot};

use lir_core::{Move, Place};
use loc_state::Homes;
use std::alloc::{AllocError, Global};

/// Places to which moves lead.
#[derive(Drop)]
pub(crate) struct Destinations {
    pub(crate) regs: Homes,
    pub(crate) homes: Homes,
    pub(crate) outs: Homes,
}

impl Destinations {
    /// None.
    fn new(alloc: Global) -> Destinations
        ensures { (p : Spot) → is_taken result p ≡ no_spot p }
    {
        Destinations {
            regs: Homes::new(alloc),
            homes: Homes::new(alloc),
            outs: Homes::new(alloc),
        }
    }

    // Whether a place is one of them.
    fn has(&self, place: Place) -> bool
        ensures { result ≡ is_taken self.now (spot place) }
    {
        match place {
            Place::Reg(number) => self.regs.has(number as u32),
            Place::Home(number) => self.homes.has(number),
            Place::Out(number) => self.outs.has(number),
        }
    }

    // A place more.
    fn add(&mut self, place: Place) -> Result<(), AllocError>
        ensures { OnOk result ((p : Spot) → is_taken self.new p ≡ (same p (spot place) || is_taken self.old p)) }
    {
        match place {
            Place::Reg(number) => self.regs.insert(number as u32),
            Place::Home(number) => self.homes.insert(number),
            Place::Out(number) => self.outs.insert(number),
        }
    }
}

/// Whether no two moves lead to one place. Takes n log n for n moves.
pub(crate) fn are_distinct(alloc: Global, moves: &[Move]) -> Result<bool, AllocError>
    ensures { IfOk result (λ b. b ≡ are_distinct moves.now) }
{
    let mut taken = Destinations::new(alloc);
    let mut at = moves.len();
    while at > 0 {
        at -= 1;
        if taken.has(moves[at].to) {
            return Ok(false);
        }
        taken.add(moves[at].to)?;
    }
    Ok(true)
}
