//! Small sets of moves with the steps that are wanted, and large ones.

use parallel_move::*;
use std::alloc::{AllocError, Global};
use std::test::Fail;

fn moved(to: Place, from: Place) -> Move {
    Move { to, from }
}

#[test]
fn nothing_moves(rt: HostRuntime) -> Result<(), Fail> {
    assert_eq!(rt; order(rt.alloc(), &[])?.len(), 0);
    let own = [moved(Place::Reg(0), Place::Reg(0))];
    assert_eq!(rt; order(rt.alloc(), &own)?.len(), 0);
    Ok(())
}

#[test]
fn a_row_is_moved_from_its_end(rt: HostRuntime) -> Result<(), Fail> {
    let moves = [
        moved(Place::Reg(1), Place::Reg(0)),
        moved(Place::Reg(2), Place::Reg(1)),
    ];
    let steps = order(rt.alloc(), &moves)?;
    let wanted = [
        Step::Copy {
            to: Place::Reg(2),
            from: Place::Reg(1),
        },
        Step::Copy {
            to: Place::Reg(1),
            from: Place::Reg(0),
        },
    ];
    assert_eq!(rt; steps.as_slice(), wanted.as_slice());
    Ok(())
}

#[test]
fn registers_are_swapped(rt: HostRuntime) -> Result<(), Fail> {
    let moves = [
        moved(Place::Reg(0), Place::Reg(1)),
        moved(Place::Reg(1), Place::Reg(0)),
    ];
    let steps = order(rt.alloc(), &moves)?;
    let wanted = [
        Step::Save(Place::Reg(0)),
        Step::Copy {
            to: Place::Reg(0),
            from: Place::Reg(1),
        },
        Step::Restore(Place::Reg(1)),
    ];
    assert_eq!(rt; steps.as_slice(), wanted.as_slice());
    Ok(())
}

#[test]
fn homes_are_swapped(rt: HostRuntime) -> Result<(), Fail> {
    let moves = [
        moved(Place::Home(4), Place::Home(7)),
        moved(Place::Home(7), Place::Home(4)),
    ];
    let steps = order(rt.alloc(), &moves)?;
    let wanted = [
        Step::Save(Place::Home(4)),
        Step::Copy {
            to: Place::Home(4),
            from: Place::Home(7),
        },
        Step::Restore(Place::Home(7)),
    ];
    assert_eq!(rt; steps.as_slice(), wanted.as_slice());
    Ok(())
}

// Each of so many homes takes what the next has, and the last what the first has.
fn turned(alloc: Global, homes: u32) -> Result<Vec<Move>, AllocError> {
    let mut moves = Vec::new(alloc);
    for home in 0..homes {
        let next = if home < homes - 1 { home + 1 } else { 0 };
        moves.push(moved(Place::Home(home), Place::Home(next)))?;
    }
    Ok(moves)
}

#[test]
fn one_large_cycle(rt: HostRuntime) -> Result<(), Fail> {
    let moves = turned(rt.alloc(), 100000)?;
    let steps = order(rt.alloc(), moves.as_slice())?;
    assert_eq!(rt; steps.len(), 100001);
    Ok(())
}
