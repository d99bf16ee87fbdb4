//! Instructions, one variant for each row of the A64 table.

use crate::bits::Bits;

/// A register's number. Register 31 reads as 0 and drops writes, unless a row says that it is SP.
pub type Reg = Bits<5>;

/// How the second operand is shifted: logically left, logically right, arithmetically right.
#[derive(Clone, Copy)]
pub enum Shift {
    Lsl,
    Lsr,
    Asr,
}

/// A condition on the flags, in the order of its number from 0 (EQ) to 14 (AL).
#[derive(Clone, Copy)]
pub enum Cond {
    Eq,
    Ne,
    Hs,
    Lo,
    Mi,
    Pl,
    Vs,
    Vc,
    Hi,
    Ls,
    Ge,
    Lt,
    Gt,
    Le,
    Al,
}

/// An instruction of the A64 table (64-bit forms; Arm Architecture Reference Manual, A64 base instructions).
#[derive(Clone, Copy)]
pub enum Instr {
    /// ADD (immediate): `rd := rn + imm * 2^(12 high)`; 31 is SP in both.
    AddImm {
        rd: Reg,
        rn: Reg,
        imm: Bits<12>,
        high: bool,
    },
    /// SUB (immediate): `rd := rn - imm * 2^(12 high)`; 31 is SP in both.
    SubImm {
        rd: Reg,
        rn: Reg,
        imm: Bits<12>,
        high: bool,
    },
    /// SUBS (immediate): the same with flags; 31 is SP in `rn` alone.
    SubsImm {
        rd: Reg,
        rn: Reg,
        imm: Bits<12>,
        high: bool,
    },
    /// ADD (shifted register): `rd := rn + rm shifted by`.
    AddReg {
        rd: Reg,
        rn: Reg,
        rm: Reg,
        shift: Shift,
        by: Bits<6>,
    },
    /// SUB (shifted register): `rd := rn - rm shifted by`.
    SubReg {
        rd: Reg,
        rn: Reg,
        rm: Reg,
        shift: Shift,
        by: Bits<6>,
    },
    /// SUBS (shifted register): the same with flags.
    SubsReg {
        rd: Reg,
        rn: Reg,
        rm: Reg,
        shift: Shift,
        by: Bits<6>,
    },
    /// AND (shifted register).
    AndReg {
        rd: Reg,
        rn: Reg,
        rm: Reg,
        shift: Shift,
        by: Bits<6>,
    },
    /// BIC (shifted register): AND with the complement of the shifted `rm`.
    BicReg {
        rd: Reg,
        rn: Reg,
        rm: Reg,
        shift: Shift,
        by: Bits<6>,
    },
    /// ORR (shifted register).
    OrrReg {
        rd: Reg,
        rn: Reg,
        rm: Reg,
        shift: Shift,
        by: Bits<6>,
    },
    /// ORN (shifted register): ORR with the complement of the shifted `rm`.
    OrnReg {
        rd: Reg,
        rn: Reg,
        rm: Reg,
        shift: Shift,
        by: Bits<6>,
    },
    /// EOR (shifted register).
    EorReg {
        rd: Reg,
        rn: Reg,
        rm: Reg,
        shift: Shift,
        by: Bits<6>,
    },
    /// ANDS (shifted register): AND, with N and Z of the result, C and V clear.
    AndsReg {
        rd: Reg,
        rn: Reg,
        rm: Reg,
        shift: Shift,
        by: Bits<6>,
    },
    /// MOVN: `rd` := the complement of `imm * 2^(16 half)`.
    Movn {
        rd: Reg,
        imm: Bits<16>,
        half: Bits<2>,
    },
    /// MOVZ: `rd := imm * 2^(16 half)`.
    Movz {
        rd: Reg,
        imm: Bits<16>,
        half: Bits<2>,
    },
    /// MOVK: that half of `rd` := `imm`, the others stay.
    Movk {
        rd: Reg,
        imm: Bits<16>,
        half: Bits<2>,
    },
    /// MADD: `rd := ra + rn * rm`.
    Madd {
        rd: Reg,
        rn: Reg,
        rm: Reg,
        ra: Reg,
    },
    /// MSUB: `rd := ra - rn * rm`.
    Msub {
        rd: Reg,
        rn: Reg,
        rm: Reg,
        ra: Reg,
    },
    /// SDIV: `rd` := the signed quotient toward 0; 0 for divisor 0.
    Sdiv {
        rd: Reg,
        rn: Reg,
        rm: Reg,
    },
    /// LSLV: `rd := rn` shifted left by `rm` modulo 64.
    Lslv {
        rd: Reg,
        rn: Reg,
        rm: Reg,
    },
    /// LSRV: `rd := rn` shifted right, zeros in, by `rm` modulo 64.
    Lsrv {
        rd: Reg,
        rn: Reg,
        rm: Reg,
    },
    /// ASRV: `rd := rn` shifted right, signs in, by `rm` modulo 64.
    Asrv {
        rd: Reg,
        rn: Reg,
        rm: Reg,
    },
    /// RORV: `rd := rn` turned right by `rm` modulo 64.
    Rorv {
        rd: Reg,
        rn: Reg,
        rm: Reg,
    },
    /// CSEL: `rd := rn` where `cond` holds, else `rm`.
    Csel {
        rd: Reg,
        rn: Reg,
        rm: Reg,
        cond: Cond,
    },
    /// CSINC: `rd := rn` where `cond` holds, else `rm + 1`.
    Csinc {
        rd: Reg,
        rn: Reg,
        rm: Reg,
        cond: Cond,
    },
    /// CSNEG: `rd := rn` where `cond` holds, else `-rm`.
    Csneg {
        rd: Reg,
        rn: Reg,
        rm: Reg,
        cond: Cond,
    },
    /// B: to PC + 4 times the signed `to`.
    B {
        to: Bits<26>,
    },
    /// BL: X30 := PC + 4, and to PC + 4 times the signed `to`.
    Bl {
        to: Bits<26>,
    },
    /// B.cond: to PC + 4 times the signed `to` where `cond` holds.
    BCond {
        to: Bits<19>,
        cond: Cond,
    },
    /// CBZ: to PC + 4 times the signed `to` where `rt` is 0.
    Cbz {
        rt: Reg,
        to: Bits<19>,
    },
    /// CBNZ: to PC + 4 times the signed `to` where `rt` isn't 0.
    Cbnz {
        rt: Reg,
        to: Bits<19>,
    },
    /// BR: PC := `rn`.
    Br {
        rn: Reg,
    },
    /// BLR: PC := `rn`, X30 := the old PC + 4; `rn` is read first.
    Blr {
        rn: Reg,
    },
    /// RET: PC := `rn`.
    Ret {
        rn: Reg,
    },
    /// LDR (unsigned offset): `rt` := 8 bytes at `rn + 8 * imm`; `rn` 31 is SP.
    Ldr {
        rt: Reg,
        rn: Reg,
        imm: Bits<12>,
    },
    /// STR (unsigned offset): 8 bytes at `rn + 8 * imm` := `rt`; `rn` 31 is SP.
    Str {
        rt: Reg,
        rn: Reg,
        imm: Bits<12>,
    },
    /// LDRB (unsigned offset): `rt` := the byte at `rn + imm`; `rn` 31 is SP.
    Ldrb {
        rt: Reg,
        rn: Reg,
        imm: Bits<12>,
    },
    /// STRB (unsigned offset): the byte at `rn + imm` := the low byte of `rt`; `rn` 31 is SP.
    Strb {
        rt: Reg,
        rn: Reg,
        imm: Bits<12>,
    },
    /// LDR (register): `rt` := 8 bytes at `rn + rm`; `rn` 31 is SP.
    LdrReg {
        rt: Reg,
        rn: Reg,
        rm: Reg,
    },
    /// LDR (register, LSL 3): `rt` := 8 bytes at `rn + 8 * rm`; `rn` 31 is SP.
    LdrRegScaled {
        rt: Reg,
        rn: Reg,
        rm: Reg,
    },
    /// STR (register): 8 bytes at `rn + rm` := `rt`; `rn` 31 is SP.
    StrReg {
        rt: Reg,
        rn: Reg,
        rm: Reg,
    },
    /// STR (register, LSL 3): 8 bytes at `rn + 8 * rm` := `rt`; `rn` 31 is SP.
    StrRegScaled {
        rt: Reg,
        rn: Reg,
        rm: Reg,
    },
    /// LDRB (register): `rt` := the byte at `rn + rm`; `rn` 31 is SP.
    LdrbReg {
        rt: Reg,
        rn: Reg,
        rm: Reg,
    },
    /// STRB (register): the byte at `rn + rm` := the low byte of `rt`; `rn` 31 is SP.
    StrbReg {
        rt: Reg,
        rn: Reg,
        rm: Reg,
    },
    /// SVC: the machine's service with the number `imm`.
    Svc {
        imm: Bits<16>,
    },
    /// BRK: a trap with the kind `imm`.
    Brk {
        imm: Bits<16>,
    },
}
