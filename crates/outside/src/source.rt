//! A source of bytes: what its calls answer, and what it tells.

ghost use Rattle.std.specs.Prelude.{◌≡◌, ℕ, ◌<◌, ◌≤◌, List, length, take, Option, IfOk, OnErr};
ghost use Rattle.outside.specs.Counts.{Rose};
ghost use Rattle.outside.specs.Source.{Gave, IsAtEnd};

use thiserror::Error;

/// A device could not do what was asked.
#[derive(Clone, Copy, Debug, Error)]
#[error("the device failed")]
pub struct Failed;

/// Gives bytes.
pub trait Source {
    /// What is left, where it is told.
    ghost left: { Self → Option (List ℕ) };

    /// How many faults there were.
    ghost faults: { Self → ℕ };

    /// Fills the front of the piece and answers how many bytes it gave; 0 for a piece that isn't empty is the
    /// end of the input. After `Failed` the piece may hold anything, and nothing is lost.
    fn read(&mut self, piece: &mut [u8]) -> Result<usize, Failed>
        ensures within { IfOk result (λ n. n ≤ length piece.old) }
        ensures gives { IfOk result (λ n. Gave (left self.old) (take n piece.new) (left self.new)) }
        ensures ends { IfOk result (λ n. n ≡ 0 → 0 < length piece.old → IsAtEnd (left self.old)) }
        ensures stays { OnErr result (left self.new ≡ left self.old) }
        ensures rises { faults self.old ≤ faults self.new }
        ensures failed { OnErr result (Rose (faults self.old) (faults self.new)) };
}
