//! Distances, and how many words there may be.

use a64_encode::*;
use a64_instr::{Bits, Instr};
use std::test::Fail;

#[test]
fn a_jump_over_a_label(rt: HostRuntime) -> Result<(), Fail> {
    let lines = [
        Asm::To {
            kind: Branch::B,
            label: 1,
        },
        Asm::Label(1),
        Asm::Word(Instr::Ret { rn: Bits::new(30) }),
    ];
    let code = assemble(rt.alloc(), &lines)?;
    assert_eq!(rt; code.as_slice(), [0x14000001, 0xD65F03C0].as_slice());
    Ok(())
}

#[test]
fn a_jump_to_itself(rt: HostRuntime) -> Result<(), Fail> {
    let lines = [
        Asm::Label(1),
        Asm::To {
            kind: Branch::B,
            label: 1,
        },
    ];
    let code = assemble(rt.alloc(), &lines)?;
    assert_eq!(rt; code.as_slice(), [0x14000000].as_slice());
    Ok(())
}
