//! Effects as a processor gave them, and the moves of a few constants.

use a64_instr::{Bits, Cond, Shift};
use a64_numbers::{
    Flags, Move, ands_flags, bic, branch_19, branch_26, constant_moves, csel, csinc, csneg, holds,
    immediate, madd, movk, movn, movz, msub, opposite, orn, sdiv, shifted, subs_flags,
};

#[test]
fn arithmetic_and_operands(rt: HostRuntime) {
    assert_eq!(rt; sdiv(0xffff_ffff_ffff_fff9, 2), 0xffff_ffff_ffff_fffd);
    assert_eq!(rt; sdiv(1 << 63, u64::MAX), 1 << 63);
    assert_eq!(rt; sdiv(5, 0), 0);
    assert_eq!(rt; madd(3, 4, 5), 17);
    assert_eq!(rt; msub(3, 4, 5), 0xffff_ffff_ffff_fff9);
    assert_eq!(rt; bic(6, 3), 4);
    assert_eq!(rt; orn(1, u64::MAX - 4), 5);
    assert_eq!(rt;
        shifted(Shift::Asr, 1 << 63, Bits::new(31)),
        0xffff_ffff_0000_0000
    );
    assert_eq!(rt; immediate(Bits::new(0xfff), true), 0xff_f000);
    assert_eq!(rt; branch_26(0x1_0010, Bits::new(0x3ff_ffff)), 0x1_000c);
    assert_eq!(rt; branch_19(0x1_0010, Bits::new(2)), 0x1_0018);
}

#[test]
fn flags_and_conditions(rt: HostRuntime) {
    let flags = subs_flags(1 << 63, 1);
    let wanted = Flags {
        negative: false,
        zero: false,
        carry: true,
        overflow: true,
    };
    assert!(rt; flags == wanted);
    assert!(rt; holds(Cond::Lt, flags));
    assert!(rt; !holds(opposite(Cond::Lt), flags));
    assert!(rt; ands_flags(0).zero);
    assert_eq!(rt; csel(Cond::Hi, flags, 7, 9), 7);
    assert_eq!(rt; csinc(Cond::Eq, flags, 7, 9), 10);
    assert_eq!(rt; csneg(Cond::Ge, flags, 7, 1), u64::MAX);
}

/// What a move leaves in a register that holds `old`.
fn moved(place: &Option<Move>, old: u64) -> u64 {
    match place {
        None => old,
        Some(Move::Movz(imm, half)) => movz(*imm, *half),
        Some(Move::Movn(imm, half)) => movn(*imm, *half),
        Some(Move::Movk(imm, half)) => movk(old, *imm, *half),
    }
}

/// What the moves of `n` leave in a register that holds `old`.
fn made(n: u64, old: u64) -> u64 {
    let [a, b, c, d] = constant_moves(n);
    moved(&d, moved(&c, moved(&b, moved(&a, old))))
}

#[test]
fn moves(rt: HostRuntime) {
    let (two, seven) = (Bits::new(2), Bits::new(7));
    assert_eq!(rt; movz(seven, two), 0x7_0000_0000);
    assert_eq!(rt; movn(seven, two), 0xffff_fff8_ffff_ffff);
    assert_eq!(rt;
        movk(0x0463_a351_4912_6039, Bits::new(0), Bits::new(1)),
        0x0463_a351_0000_6039
    );
    assert_eq!(rt; made(0, 9), 0);
    assert_eq!(rt; made(u64::MAX, 9), u64::MAX);
    assert_eq!(rt; made(0x7_0000_0005, 9), 0x7_0000_0005);
    assert_eq!(rt; made(0xffff_1234_ffff_ffff, 9), 0xffff_1234_ffff_ffff);
}
