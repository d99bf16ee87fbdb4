//! Where nodes stand in traces.

ghost use Rattle.std.specs.Prelude.{◌≡◌, ◌≤◌, ◌++◌, length, IfOk, OnOk};
ghost use Rattle.boundary_resolve.specs.Placing.{seats_in, seats_from};
ghost use Rattle.boundary_resolve.specs.Seats.{AreBelow, FindsSeats};

use lir_core::Trace;
use std::alloc::{AllocError, Global};

/// A node's trace, by its number, and its place there.
#[derive(Clone, Copy)]
pub(crate) struct Seat {
    pub(crate) node: u32,
    pub(crate) trace: usize,
    pub(crate) at: usize,
}

/// The seats by their nodes' numbers; the first, where a node has several. Takes memory for the greatest of these numbers,
/// which is below how many nodes a flow has.
pub(crate) fn seats(alloc: Global, traces: &[Trace]) -> Result<Vec<Option<Seat>>, AllocError>
    ensures { IfOk result (λ found. FindsSeats (seats_from 0 traces.now) found.items) }
{
    let seats = all_seats(alloc, traces)?;
    let mut found = vec![in alloc; None; behind_all(seats.as_slice())]?;
    let mut i = seats.len();
    while i > 0 {
        i -= 1;
        let seat = seats[i];
        found[seat.node as usize] = Some(seat);
    }
    Ok(found)
}

// The number behind the greatest of a node.
fn behind_all(seats: &[Seat]) -> usize
    ensures { AreBelow result seats.now }
{
    let mut behind = 0usize;
    for seat in seats {
        behind = behind.max(seat.node as usize + 1);
    }
    behind
}

// The seats in code order.
fn all_seats(alloc: Global, traces: &[Trace]) -> Result<Vec<Seat>, AllocError>
    ensures { IfOk result (λ seats. seats.items ≡ seats_from 0 traces.now) }
{
    let mut seats = Vec::with_capacity(alloc, count(traces))?;
    for (number, trace) in traces.iter().enumerate() {
        push_seats(&mut seats, number, trace.nodes.as_slice())?;
    }
    Ok(seats)
}

// How many nodes traces have.
fn count(traces: &[Trace]) -> usize {
    let mut count = 0usize;
    for trace in traces {
        count = count.saturating_add(trace.nodes.len());
    }
    count
}

fn push_seats(seats: &mut Vec<Seat>, trace: usize, nodes: &[u32]) -> Result<(), AllocError>
    ensures { OnOk result (seats.new.items ≡ seats.old.items ++ seats_in trace 0 nodes.now) }
{
    for (at, node) in nodes.iter().enumerate() {
        seats.push(Seat {
            node: *node,
            trace,
            at,
        })?;
    }
    Ok(())
}
