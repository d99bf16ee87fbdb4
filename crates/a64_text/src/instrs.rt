//! The text of an instruction.

ghost use Rattle.std.specs.Prelude.{◌≡◌, ◌++◌, OnOk};
ghost use Rattle.a64_text.specs.Texts.{instr_text, return_text};

use crate::parts::Told;
use crate::shapes::{
    put_branch, put_branch_by, put_branch_if, put_chosen, put_four, put_number, put_one,
    put_shifted, put_sp_immediate, put_three, put_w_beside, put_w_summed, put_wide, put_x_beside,
    put_x_immediate, put_x_summed,
};
use a64_table::Instr::*;
use a64_table::{Instr, Reg};
use std::alloc::{AllocError, Global};

// A return.
fn put_return(alloc: Global, text: &mut Vec<u8>, rn: Reg) -> Result<(), AllocError>
    ensures { OnOk result (text.new.items ≡ text.old.items ++ return_text rn) }
{
    if rn.get() == 30 {
        text.extend_from_slice(b"ret")
    } else {
        put_one(alloc, text, b"ret", rn)
    }
}

/// Appends the text of an instruction.
pub fn put_instr(
    alloc: Global,
    text: &mut Vec<u8>,
    told: Told,
    instr: &Instr,
) -> Result<(), AllocError>
    ensures { OnOk result (text.new.items ≡ text.old.items ++ instr_text told instr.now) }
{
    match *instr {
        AddImm { rd, rn, imm, high } => put_sp_immediate(alloc, text, b"add", rd, rn, imm, high),
        SubImm { rd, rn, imm, high } => put_sp_immediate(alloc, text, b"sub", rd, rn, imm, high),
        SubsImm { rd, rn, imm, high } => put_x_immediate(alloc, text, b"subs", rd, rn, imm, high),
        AddReg {
            rd,
            rn,
            rm,
            shift,
            by,
        } => put_shifted(alloc, text, b"add", rd, rn, rm, shift, by),
        SubReg {
            rd,
            rn,
            rm,
            shift,
            by,
        } => put_shifted(alloc, text, b"sub", rd, rn, rm, shift, by),
        SubsReg {
            rd,
            rn,
            rm,
            shift,
            by,
        } => put_shifted(alloc, text, b"subs", rd, rn, rm, shift, by),
        AndReg {
            rd,
            rn,
            rm,
            shift,
            by,
        } => put_shifted(alloc, text, b"and", rd, rn, rm, shift, by),
        BicReg {
            rd,
            rn,
            rm,
            shift,
            by,
        } => put_shifted(alloc, text, b"bic", rd, rn, rm, shift, by),
        OrrReg {
            rd,
            rn,
            rm,
            shift,
            by,
        } => put_shifted(alloc, text, b"orr", rd, rn, rm, shift, by),
        OrnReg {
            rd,
            rn,
            rm,
            shift,
            by,
        } => put_shifted(alloc, text, b"orn", rd, rn, rm, shift, by),
        EorReg {
            rd,
            rn,
            rm,
            shift,
            by,
        } => put_shifted(alloc, text, b"eor", rd, rn, rm, shift, by),
        AndsReg {
            rd,
            rn,
            rm,
            shift,
            by,
        } => put_shifted(alloc, text, b"ands", rd, rn, rm, shift, by),
        Movn { rd, imm, half } => put_wide(alloc, text, b"movn", rd, imm, half),
        Movz { rd, imm, half } => put_wide(alloc, text, b"movz", rd, imm, half),
        Movk { rd, imm, half } => put_wide(alloc, text, b"movk", rd, imm, half),
        Madd { rd, rn, rm, ra } => put_four(alloc, text, b"madd", rd, rn, rm, ra),
        Msub { rd, rn, rm, ra } => put_four(alloc, text, b"msub", rd, rn, rm, ra),
        Sdiv { rd, rn, rm } => put_three(alloc, text, b"sdiv", rd, rn, rm),
        Lslv { rd, rn, rm } => put_three(alloc, text, b"lslv", rd, rn, rm),
        Lsrv { rd, rn, rm } => put_three(alloc, text, b"lsrv", rd, rn, rm),
        Asrv { rd, rn, rm } => put_three(alloc, text, b"asrv", rd, rn, rm),
        Rorv { rd, rn, rm } => put_three(alloc, text, b"rorv", rd, rn, rm),
        Csel { rd, rn, rm, cond } => put_chosen(alloc, text, b"csel", rd, rn, rm, cond),
        Csinc { rd, rn, rm, cond } => put_chosen(alloc, text, b"csinc", rd, rn, rm, cond),
        Csneg { rd, rn, rm, cond } => put_chosen(alloc, text, b"csneg", rd, rn, rm, cond),
        B { to } => put_branch(alloc, text, told, b"b", to),
        Bl { to } => put_branch(alloc, text, told, b"bl", to),
        BCond { to, cond } => put_branch_if(alloc, text, told, cond, to),
        Cbz { rt, to } => put_branch_by(alloc, text, told, b"cbz", rt, to),
        Cbnz { rt, to } => put_branch_by(alloc, text, told, b"cbnz", rt, to),
        Br { rn } => put_one(alloc, text, b"br", rn),
        Blr { rn } => put_one(alloc, text, b"blr", rn),
        Ret { rn } => put_return(alloc, text, rn),
        Ldr { rt, rn, imm } => put_x_beside(alloc, text, b"ldr", rt, rn, imm.get() * 8),
        Str { rt, rn, imm } => put_x_beside(alloc, text, b"str", rt, rn, imm.get() * 8),
        Ldrb { rt, rn, imm } => put_w_beside(alloc, text, b"ldrb", rt, rn, imm.get()),
        Strb { rt, rn, imm } => put_w_beside(alloc, text, b"strb", rt, rn, imm.get()),
        LdrReg { rt, rn, rm } => put_x_summed(alloc, text, b"ldr", rt, rn, rm, b"]"),
        LdrRegScaled { rt, rn, rm } => put_x_summed(alloc, text, b"ldr", rt, rn, rm, b", lsl #3]"),
        StrReg { rt, rn, rm } => put_x_summed(alloc, text, b"str", rt, rn, rm, b"]"),
        StrRegScaled { rt, rn, rm } => put_x_summed(alloc, text, b"str", rt, rn, rm, b", lsl #3]"),
        LdrbReg { rt, rn, rm } => put_w_summed(alloc, text, b"ldrb", rt, rn, rm),
        StrbReg { rt, rn, rm } => put_w_summed(alloc, text, b"strb", rt, rn, rm),
        Svc { imm } => put_number(alloc, text, b"svc", imm),
        Brk { imm } => put_number(alloc, text, b"brk", imm),
    }
}
