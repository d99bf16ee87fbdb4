//! The core, worked by hand: a trace and its child, and two workers.

use pool_core::{Core, Event, Seen, is_tree};
use std::process::Abort;
use std::test::Fail;

fn step(rt: &impl Abort, core: &mut Core, worker: u32, event: Event, seen: Seen) {
    assert!(rt; core.can(worker, event));
    assert_eq!(rt; core.step(worker, event), seen);
}

#[test]
fn parent_and_child(rt: HostRuntime) -> Result<(), Fail> {
    let parents = [None, Some(0)];
    assert!(rt; is_tree(&parents));
    let mut core = Core::open(rt.alloc(), &parents, 2)?;
    assert!(rt; !core.can(0, Event::Finish));
    assert!(rt; !core.can(2, Event::Draw));
    step(&rt, &mut core, 0, Event::Draw, Seen::Ticket(0));
    step(&rt, &mut core, 1, Event::Draw, Seen::Ticket(1));
    step(&rt, &mut core, 1, Event::Look, Seen::Empty);
    step(&rt, &mut core, 1, Event::See, Seen::Mark(false));
    step(&rt, &mut core, 0, Event::Look, Seen::Trace(0));
    assert!(rt; !core.can(0, Event::Finish));
    step(&rt, &mut core, 0, Event::Reserve, Seen::Ticket(1));
    step(&rt, &mut core, 0, Event::Show, Seen::Nothing);
    step(&rt, &mut core, 1, Event::Look, Seen::Trace(1));
    step(&rt, &mut core, 0, Event::Finish, Seen::Nothing);
    step(&rt, &mut core, 1, Event::Finish, Seen::Nothing);
    step(&rt, &mut core, 0, Event::Draw, Seen::NoMore);
    Ok(())
}

#[test]
fn stop_is_seen(rt: HostRuntime) -> Result<(), Fail> {
    let parents = [None, Some(0)];
    assert!(rt; is_tree(&parents));
    let mut core = Core::open(rt.alloc(), &parents, 2)?;
    step(&rt, &mut core, 0, Event::Draw, Seen::Ticket(0));
    step(&rt, &mut core, 1, Event::Draw, Seen::Ticket(1));
    step(&rt, &mut core, 0, Event::Look, Seen::Trace(0));
    step(&rt, &mut core, 0, Event::Stop, Seen::Nothing);
    step(&rt, &mut core, 1, Event::Look, Seen::Empty);
    step(&rt, &mut core, 1, Event::See, Seen::Mark(true));
    assert!(rt; !core.can(0, Event::Draw) && !core.can(1, Event::Look));
    Ok(())
}
