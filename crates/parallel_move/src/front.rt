//! Moves that stand in order already.

ghost use Rattle.std.specs.Prelude.{◌≡◌, ◌≤◌, ◌++◌, length, take, drop, filter, map};
ghost use Rattle.lir_core.specs.Spots.{spot};
ghost use Rattle.parallel_move.specs.Order.{is_moving, is_source, pending, copied, order_of};

use lir_core::{Move, Place};

/// The most moves that are compared with each other.
const FEW: usize = 8;

/// How many moves at the front, where there are few in all, go to places that none behind them reads: their steps come
/// first, in their own order. Takes time by the square of a constant, and nothing of memory.
pub fn leading(moves: &[Move]) -> usize
    ensures order { order_of moves.now ≡ map copied (filter is_moving (take result moves.now)) ++ order_of (drop result moves.now) }
    ensures bound { result ≤ length moves.now }
{
    if moves.len() > FEW {
        return 0;
    }
    for i in 0..moves.len() {
        if is_read(moves[i].to, &moves[i + 1..]) {
            return i;
        }
    }
    moves.len()
}

// Whether a place is the source of a move.
fn is_read(place: Place, moves: &[Move]) -> bool
    ensures { result ≡ is_source (map pending moves.now) (spot place) }
{
    for m in moves {
        if m.from == place {
            return true;
        }
    }
    false
}
