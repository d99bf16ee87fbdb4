//! The words of the routines.

ghost use Rattle.std.specs.Prelude.{◌≡◌};
ghost use Rattle.a64_runtime.specs.Routines.{words};

/// What a routine does.
#[derive(Clone, Copy, PartialEq, Eq, Debug)]
pub enum Routine {
    /// X2 bytes from X1 to X0.
    Copy,
    /// X1 zero bytes, a multiple of eight, at X0.
    Zero,
    /// The text of X1 bytes at X0 against the text of X3 bytes at X2; the difference goes to X0.
    Compare,
}

/// MOVZ X3,#0; ADD X4,X3,#8; SUBS XZR,X4,X2; B.HI +20; LDR X5,[X1,X3]; STR X5,[X0,X3]; ORR X3,XZR,X4; B -24;
/// SUBS XZR,X3,X2; B.HS +20; LDRB X5,[X1,X3]; STRB X5,[X0,X3]; ADD X3,X3,#1; B -20; RET
const COPY: [u32; 15] = [
    0xD2800003, 0x91002064, 0xEB02009F, 0x540000A8, 0xF8636825, 0xF8236805, 0xAA0403E3, 0x17FFFFFA,
    0xEB02007F, 0x540000A2, 0x38636825, 0x38236805, 0x91000463, 0x17FFFFFB, 0xD65F03C0,
];

/// MOVZ X3,#0; SUBS XZR,X3,X1; B.HS +16; STR XZR,[X0,X3]; ADD X3,X3,#8; B -16; RET
const ZERO: [u32; 7] = [
    0xD2800003, 0xEB01007F, 0x54000082, 0xF823681F, 0x91002063, 0x17FFFFFC, 0xD65F03C0,
];

/// MOVZ X4,#0; MOVZ X5,#0; MOVZ X6,#0; SUBS XZR,X4,X1; B.HS +8; LDRB X5,[X0,X4]; SUBS XZR,X4,X3; B.HS +8;
/// LDRB X6,[X2,X4]; SUBS XZR,X5,X6; B.NE +16; CBZ X5,+12; ADD X4,X4,#1; B -48; SUB X0,X5,X6; RET
const COMPARE: [u32; 16] = [
    0xD2800004, 0xD2800005, 0xD2800006, 0xEB01009F, 0x54000042, 0x38646805, 0xEB03009F, 0x54000042,
    0x38646846, 0xEB0600BF, 0x54000081, 0xB4000065, 0x91000484, 0x17FFFFF4, 0xCB0600A0, 0xD65F03C0,
];

/// The words of a routine.
pub fn routine_words(which: Routine) -> &'static [u32]
    ensures { result.now ≡ words which }
{
    match which {
        Routine::Copy => &COPY,
        Routine::Zero => &ZERO,
        Routine::Compare => &COMPARE,
    }
}
