//! Steps.

use lir_core::Place;

/// A step of a sequence of moves.
#[derive(Clone, Copy, PartialEq, Eq, Debug)]
pub enum Step {
    /// `to` takes what `from` has.
    Copy { to: Place, from: Place },
    /// X16 takes what a place has.
    Save(Place),
    /// A place takes what X16 has.
    Restore(Place),
}
