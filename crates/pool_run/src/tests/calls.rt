//! Two seats in one thread, call by call, on a trace and its child.

ghost use Rattle.std.specs.Prelude.{ℕ, List, [], ◌∷◌, Option, Some, None};

use outside::Memory;
use pool_core::Work;
use std::alloc::Global;
use std::test::Fail;
use trace_pool::{Draw, Look, Pool};

// Trace 1 is the child of trace 0, and every number is a final result and a hint.
struct Pair;

impl Work for Pair {
    type Done = u32;

    type Hint = u32;

    ghost parents = { λ w. None ∷ Some 0 ∷ [] };

    ghost is_final = { λ w t d. Unit {0} };

    ghost is_hint = { λ w t h. Unit {0} };

    fn count(&self) -> u32 {
        2
    }

    fn parent(&self, trace: u32) -> Option<u32> {
        if trace == 0 { None } else { Some(0) }
    }

    fn gate_number(&self, trace: u32) -> u32 {
        trace
    }

    fn run<'a>(&'a self, alloc: Global, trace: u32, hint: Option<&'a u32>) -> Result<u32, Memory> {
        let _ = alloc;
        let _ = hint;
        Ok(trace)
    }

    fn hint(&self, alloc: Global, done: &u32, child: u32) -> Result<u32, Memory> {
        let _ = alloc;
        let _ = child;
        Ok(*done)
    }
}

#[test]
fn child_waits_for_its_parent(rt: HostRuntime) -> Result<(), Fail> {
    let (pool, seat) = Pool::open(rt.alloc(), &Pair)?;
    let (mut s, mut u) = seat.split(&pool);
    let Draw::Drawn = s.draw(&pool) else {
        return Err("a ticket for s".into());
    };
    let Draw::Drawn = u.draw(&pool) else {
        return Err("a ticket for u".into());
    };
    let Look::NotYet = u.look(&pool) else {
        return Err("not yet".into());
    };
    let Look::Task {
        trace: 0,
        hint: None,
    } = s.look(&pool)
    else {
        return Err("the first trace".into());
    };
    s.finish(&pool, 70, vec![in rt.alloc(); (1, 700)]?);
    let Look::Task {
        trace: 1,
        hint: Some(700),
    } = u.look(&pool)
    else {
        return Err("the child".into());
    };
    let Draw::NoMore = s.draw(&pool) else {
        return Err("no more".into());
    };
    u.finish(&pool, 71, Vec::new(rt.alloc()));
    let seat = s.join(u, &pool);
    let results = pool.close(seat);
    assert_eq!(rt; results.as_slice(), [Some(70), Some(71)].as_slice());
    Ok(())
}

#[test]
fn stopped_seats_give_up(rt: HostRuntime) -> Result<(), Fail> {
    let (pool, seat) = Pool::open(rt.alloc(), &Pair)?;
    let (mut s, mut u) = seat.split(&pool);
    let Draw::Drawn = s.draw(&pool) else {
        return Err("a ticket for s".into());
    };
    let Draw::Drawn = u.draw(&pool) else {
        return Err("a ticket for u".into());
    };
    let Look::NotYet = u.look(&pool) else {
        return Err("not yet".into());
    };
    let Look::Task {
        trace: 0,
        hint: None,
    } = s.look(&pool)
    else {
        return Err("the first trace".into());
    };
    s.stop(&pool);
    let Look::Stopped = u.look(&pool) else {
        return Err("stopped".into());
    };
    let seat = s.join(u, &pool);
    let results = pool.close(seat);
    assert_eq!(rt; results.as_slice(), [None, None].as_slice());
    Ok(())
}
