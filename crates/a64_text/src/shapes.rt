//! How a mnemonic and its operands are written, by their kinds.

ghost use Rattle.std.specs.Prelude.{◌≡◌, ◌++◌, OnOk};
ghost use Rattle.a64_text.specs.Shapes.{x_after, w_after, sp_after, hex_after, one, two_more, three, four, shifted, chosen, number, immediate, sp_immediate, x_immediate, wide, beside, summed, x_beside, w_beside, x_summed, w_summed, branch, branch_if, branch_by};

use crate::parts::{
    Told, put_cond, put_half, put_hex, put_high, put_offset, put_shift, put_sp, put_target, put_w,
    put_x,
};
use a64_table::{Bits, Cond, Reg, Shift};
use std::alloc::{AllocError, Global};

fn put_x_after(
    alloc: Global,
    text: &mut Vec<u8>,
    before: &[u8],
    number: Reg,
) -> Result<(), AllocError>
    ensures { OnOk result (text.new.items ≡ text.old.items ++ x_after before.now number) }
{
    text.extend_from_slice(before)?;
    put_x(alloc, text, number)
}

fn put_w_after(
    alloc: Global,
    text: &mut Vec<u8>,
    before: &[u8],
    number: Reg,
) -> Result<(), AllocError>
    ensures { OnOk result (text.new.items ≡ text.old.items ++ w_after before.now number) }
{
    text.extend_from_slice(before)?;
    put_w(alloc, text, number)
}

fn put_sp_after(
    alloc: Global,
    text: &mut Vec<u8>,
    before: &[u8],
    number: Reg,
) -> Result<(), AllocError>
    ensures { OnOk result (text.new.items ≡ text.old.items ++ sp_after before.now number) }
{
    text.extend_from_slice(before)?;
    put_sp(alloc, text, number)
}

fn put_hex_after(
    alloc: Global,
    text: &mut Vec<u8>,
    before: &[u8],
    number: u32,
) -> Result<(), AllocError>
    ensures { OnOk result (text.new.items ≡ text.old.items ++ hex_after before.now number) }
{
    text.extend_from_slice(before)?;
    put_hex(alloc, text, number)
}

/// One register.
pub(crate) fn put_one(
    alloc: Global,
    text: &mut Vec<u8>,
    name: &[u8],
    rn: Reg,
) -> Result<(), AllocError>
    ensures { OnOk result (text.new.items ≡ text.old.items ++ one name.now rn) }
{
    text.extend_from_slice(name)?;
    put_x_after(alloc, text, b" ", rn)
}

fn put_two_more(alloc: Global, text: &mut Vec<u8>, rn: Reg, rm: Reg) -> Result<(), AllocError>
    ensures { OnOk result (text.new.items ≡ text.old.items ++ two_more rn rm) }
{
    put_x_after(alloc, text, b", ", rn)?;
    put_x_after(alloc, text, b", ", rm)
}

/// Three registers.
pub(crate) fn put_three(
    alloc: Global,
    text: &mut Vec<u8>,
    name: &[u8],
    rd: Reg,
    rn: Reg,
    rm: Reg,
) -> Result<(), AllocError>
    ensures { OnOk result (text.new.items ≡ text.old.items ++ three name.now rd rn rm) }
{
    put_one(alloc, text, name, rd)?;
    put_two_more(alloc, text, rn, rm)
}

/// Four registers.
pub(crate) fn put_four(
    alloc: Global,
    text: &mut Vec<u8>,
    name: &[u8],
    rd: Reg,
    rn: Reg,
    rm: Reg,
    ra: Reg,
) -> Result<(), AllocError>
    ensures { OnOk result (text.new.items ≡ text.old.items ++ four name.now rd rn rm ra) }
{
    put_three(alloc, text, name, rd, rn, rm)?;
    put_x_after(alloc, text, b", ", ra)
}

/// Three registers, the last of which is shifted.
pub(crate) fn put_shifted(
    alloc: Global,
    text: &mut Vec<u8>,
    name: &[u8],
    rd: Reg,
    rn: Reg,
    rm: Reg,
    shift: Shift,
    by: Bits<6>,
) -> Result<(), AllocError>
    ensures { OnOk result (text.new.items ≡ text.old.items ++ shifted name.now rd rn rm shift by) }
{
    put_three(alloc, text, name, rd, rn, rm)?;
    put_shift(alloc, text, shift, by)
}

/// Three registers, and the condition that chooses.
pub(crate) fn put_chosen(
    alloc: Global,
    text: &mut Vec<u8>,
    name: &[u8],
    rd: Reg,
    rn: Reg,
    rm: Reg,
    cond: Cond,
) -> Result<(), AllocError>
    ensures { OnOk result (text.new.items ≡ text.old.items ++ chosen name.now rd rn rm cond) }
{
    put_three(alloc, text, name, rd, rn, rm)?;
    text.extend_from_slice(b", ")?;
    put_cond(text, cond)
}

/// A number.
pub(crate) fn put_number(
    alloc: Global,
    text: &mut Vec<u8>,
    name: &[u8],
    imm: Bits<16>,
) -> Result<(), AllocError>
    ensures { OnOk result (text.new.items ≡ text.old.items ++ number name.now imm) }
{
    text.extend_from_slice(name)?;
    put_hex_after(alloc, text, b" #", imm.get())
}

fn put_immediate(
    alloc: Global,
    text: &mut Vec<u8>,
    rn: Reg,
    imm: Bits<12>,
    high: bool,
) -> Result<(), AllocError>
    ensures { OnOk result (text.new.items ≡ text.old.items ++ immediate rn imm high) }
{
    put_sp_after(alloc, text, b", ", rn)?;
    put_hex_after(alloc, text, b", #", imm.get())?;
    put_high(text, high)
}

/// Two registers that may be SP, and 12 bits.
pub(crate) fn put_sp_immediate(
    alloc: Global,
    text: &mut Vec<u8>,
    name: &[u8],
    rd: Reg,
    rn: Reg,
    imm: Bits<12>,
    high: bool,
) -> Result<(), AllocError>
    ensures { OnOk result (text.new.items ≡ text.old.items ++ sp_immediate name.now rd rn imm high) }
{
    text.extend_from_slice(name)?;
    put_sp_after(alloc, text, b" ", rd)?;
    put_immediate(alloc, text, rn, imm, high)
}

/// Two registers, the second of which may be SP, and 12 bits.
pub(crate) fn put_x_immediate(
    alloc: Global,
    text: &mut Vec<u8>,
    name: &[u8],
    rd: Reg,
    rn: Reg,
    imm: Bits<12>,
    high: bool,
) -> Result<(), AllocError>
    ensures { OnOk result (text.new.items ≡ text.old.items ++ x_immediate name.now rd rn imm high) }
{
    put_one(alloc, text, name, rd)?;
    put_immediate(alloc, text, rn, imm, high)
}

/// A register and 16 bits.
pub(crate) fn put_wide(
    alloc: Global,
    text: &mut Vec<u8>,
    name: &[u8],
    rd: Reg,
    imm: Bits<16>,
    half: Bits<2>,
) -> Result<(), AllocError>
    ensures { OnOk result (text.new.items ≡ text.old.items ++ wide name.now rd imm half) }
{
    put_one(alloc, text, name, rd)?;
    put_hex_after(alloc, text, b", #", imm.get())?;
    put_half(alloc, text, half)
}

fn put_beside(alloc: Global, text: &mut Vec<u8>, rn: Reg, bytes: u32) -> Result<(), AllocError>
    ensures { OnOk result (text.new.items ≡ text.old.items ++ beside rn bytes) }
{
    put_sp_after(alloc, text, b", [", rn)?;
    put_offset(alloc, text, bytes)?;
    text.extend_from_slice(b"]")
}

fn put_summed(
    alloc: Global,
    text: &mut Vec<u8>,
    rn: Reg,
    rm: Reg,
    close: &[u8],
) -> Result<(), AllocError>
    ensures { OnOk result (text.new.items ≡ text.old.items ++ summed rn rm close.now) }
{
    put_sp_after(alloc, text, b", [", rn)?;
    put_x_after(alloc, text, b", ", rm)?;
    text.extend_from_slice(close)
}

/// Eight bytes at a register, so many bytes on.
pub(crate) fn put_x_beside(
    alloc: Global,
    text: &mut Vec<u8>,
    name: &[u8],
    rt: Reg,
    rn: Reg,
    bytes: u32,
) -> Result<(), AllocError>
    ensures { OnOk result (text.new.items ≡ text.old.items ++ x_beside name.now rt rn bytes) }
{
    put_one(alloc, text, name, rt)?;
    put_beside(alloc, text, rn, bytes)
}

/// A byte at a register, so many bytes on.
pub(crate) fn put_w_beside(
    alloc: Global,
    text: &mut Vec<u8>,
    name: &[u8],
    rt: Reg,
    rn: Reg,
    bytes: u32,
) -> Result<(), AllocError>
    ensures { OnOk result (text.new.items ≡ text.old.items ++ w_beside name.now rt rn bytes) }
{
    text.extend_from_slice(name)?;
    put_w_after(alloc, text, b" ", rt)?;
    put_beside(alloc, text, rn, bytes)
}

/// Eight bytes at the sum of two registers.
pub(crate) fn put_x_summed(
    alloc: Global,
    text: &mut Vec<u8>,
    name: &[u8],
    rt: Reg,
    rn: Reg,
    rm: Reg,
    close: &[u8],
) -> Result<(), AllocError>
    ensures { OnOk result (text.new.items ≡ text.old.items ++ x_summed name.now rt rn rm close.now) }
{
    put_one(alloc, text, name, rt)?;
    put_summed(alloc, text, rn, rm, close)
}

/// A byte at the sum of two registers.
pub(crate) fn put_w_summed(
    alloc: Global,
    text: &mut Vec<u8>,
    name: &[u8],
    rt: Reg,
    rn: Reg,
    rm: Reg,
) -> Result<(), AllocError>
    ensures { OnOk result (text.new.items ≡ text.old.items ++ w_summed name.now rt rn rm) }
{
    text.extend_from_slice(name)?;
    put_w_after(alloc, text, b" ", rt)?;
    put_summed(alloc, text, rn, rm, b"]")
}

/// A branch with 26 bits.
pub(crate) fn put_branch(
    alloc: Global,
    text: &mut Vec<u8>,
    told: Told,
    name: &[u8],
    to: Bits<26>,
) -> Result<(), AllocError>
    ensures { OnOk result (text.new.items ≡ text.old.items ++ branch told name.now 0x4000000 to) }
{
    text.extend_from_slice(name)?;
    text.extend_from_slice(b" ")?;
    put_target(alloc, text, told, 0x400_0000, to.get())
}

/// A branch where a condition holds.
pub(crate) fn put_branch_if(
    alloc: Global,
    text: &mut Vec<u8>,
    told: Told,
    cond: Cond,
    to: Bits<19>,
) -> Result<(), AllocError>
    ensures { OnOk result (text.new.items ≡ text.old.items ++ branch_if told cond to) }
{
    text.extend_from_slice(b"b.")?;
    put_cond(text, cond)?;
    text.extend_from_slice(b" ")?;
    put_target(alloc, text, told, 0x8_0000, to.get())
}

/// A branch by what a register has.
pub(crate) fn put_branch_by(
    alloc: Global,
    text: &mut Vec<u8>,
    told: Told,
    name: &[u8],
    rt: Reg,
    to: Bits<19>,
) -> Result<(), AllocError>
    ensures { OnOk result (text.new.items ≡ text.old.items ++ branch_by told name.now rt to) }
{
    put_one(alloc, text, name, rt)?;
    text.extend_from_slice(b", ")?;
    put_target(alloc, text, told, 0x8_0000, to.get())
}
