//! The words of a counting loop.

use countdown::{Act, Countdown, Word, lower};
use std::test::Fail;

#[test]
fn lowers_a_countdown(rt: HostRuntime) -> Result<(), Fail> {
    let body = Vec::from_slice(rt.alloc(), &[Act::Print, Act::Down])?;
    let words = lower(rt.alloc(), &Countdown { start: 2, body })?;
    let wanted = [
        Word::Load(2),
        Word::JumpIfPositive(3),
        Word::Halt,
        Word::Write,
        Word::TrapIfZero,
        Word::Less,
        Word::Jump(1),
    ];
    assert_eq!(rt; words.as_slice(), wanted.as_slice());
    Ok(())
}
