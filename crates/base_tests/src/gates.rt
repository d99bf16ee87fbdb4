//! Alone, nobody is met.

use memory_devices::MeetGate;
use outside::Gate;
use std::test::Fail;

#[test]
fn met_alone(rt: HostRuntime) -> Result<(), Fail> {
    let gate = MeetGate::new(10);
    gate.enter(0);
    assert!(rt; !gate.met());
    let pair = MeetGate::pair(1, 2, 10);
    pair.enter(1);
    pair.enter(2);
    assert!(rt; !pair.met());
    Ok(())
}

#[test]
fn met_when_the_other_was_first(rt: HostRuntime) -> Result<(), Fail> {
    let pair = MeetGate::pair(1, 2, 10);
    pair.enter(2);
    pair.enter(1);
    assert!(rt; pair.met());
    Ok(())
}
