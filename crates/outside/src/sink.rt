//! A sink of bytes: what its calls answer, and what it tells.

ghost use Rattle.std.specs.Prelude.{◌≡◌, ◌<◌, ◌≤◌, length, take, IfOk, OnErr};
ghost use Rattle.outside.specs.Sink.{Account, TookAll, TookNothing, Faulted};

use crate::source::Failed;

/// Takes bytes.
pub trait Sink {
    /// What it tells of itself: the bytes that it took, how many they are, and how many faults there were.
    ghost account: { Self → Account };

    /// Takes some first bytes of the piece and answers how many. `Failed`, and 0 for a piece that isn't empty,
    /// come only where the count of faults rose; `Failed` takes nothing.
    fn write(&mut self, piece: &[u8]) -> Result<usize, Failed>
        ensures within { IfOk result (λ n. n ≤ length piece.now) }
        ensures takes { IfOk result (λ n. TookAll (account self.old) (account self.new) (take n piece.now)) }
        ensures stays { OnErr result (TookNothing (account self.old) (account self.new)) }
        ensures rises { (account self.old).faults ≤ (account self.new).faults }
        ensures failed { OnErr result (Faulted (account self.old) (account self.new)) }
        ensures full { IfOk result (λ n. n ≡ 0 → 0 < length piece.now → Faulted (account self.old) (account self.new)) };
}
