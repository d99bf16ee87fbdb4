//! What each instruction does: a function for each group of them, with an arm for each row of the table.

ghost use Rattle.std.specs.Prelude.{◌≡◌, ◌^◌, ◌<◌, None};
ghost use Rattle.wrapping_numbers.specs.Numbers.{add64};
ghost use Rattle.a64_numbers.specs.Operands.{shifted};
ghost use Rattle.a64_machine.specs.State.{place_at, read, read_or_sp};
ghost use Rattle.a64_machine.specs.Effects.{effect};
ghost use Rattle.a64_machine.specs.Groups.{group_of};
ghost use Rattle.a64_machine.specs.View.{core_state, Told, service_number};

use crate::answers::Step;
use crate::groups::{Group, group_of};
use crate::processor::Core;
use a64_instr::Instr::*;
use a64_instr::{Bits, Instr, Reg, Shift};
use a64_numbers::{
    ands_flags, bic, branch_19, branch_26, csel, csinc, csneg, holds, immediate, madd, movk, movn,
    movz, msub, orn, sdiv, shifted, subs_flags,
};
use wrapping_numbers::{asr, lsl, lsr, ror};

/// The number of an SVC.
#[inline]
pub fn service_number(i: &Instr) -> Option<Bits<16>>
    ensures { result ≡ service_number i.now }
{
    match i {
        Svc { imm } => Some(*imm),
        _ => None,
    }
}

impl Core {
    /// The second operand of the rows with a shifted register.
    fn operand(&self, rm: Reg, shift: Shift, by: Bits<6>) -> u64
        ensures { result ≡ shifted shift (read (core_state self.now).registers rm) by }
    {
        shifted(shift, self.read(rm), by)
    }

    /// The address so many bytes behind that in a register; 31 is SP.
    fn beside(&self, rn: Reg, bytes: u64) -> u64
        ensures { result ≡ add64 (read_or_sp (core_state self.now) rn) bytes }
    {
        self.read_or_sp(rn).wrapping_add(bytes)
    }

    /// Adds or takes away an immediate.
    #[inline(always)]
    fn adds_immediate(&mut self, i: &Instr) -> Step
        requires { group_of i.now ≡ Group.SumImmediate }
        ensures { Told result (core_state self.old) (core_state self.new) (effect i.now (core_state self.old)) }
    {
        match *i {
            AddImm { rd, rn, imm, high } => {
                let sum = self.read_or_sp(rn).wrapping_add(immediate(imm, high));
                self.gives_or_sp(rd, sum)
            }
            SubImm { rd, rn, imm, high } => {
                let difference = self.read_or_sp(rn).wrapping_sub(immediate(imm, high));
                self.gives_or_sp(rd, difference)
            }
            SubsImm { rd, rn, imm, high } => {
                let (a, b) = (self.read_or_sp(rn), immediate(imm, high));
                self.gives_flags(rd, a.wrapping_sub(b), subs_flags(a, b))
            }
            _ => unreachable!(),
        }
    }

    /// Adds or takes away a shifted register.
    #[inline(always)]
    fn adds_shifted(&mut self, i: &Instr) -> Step
        requires { group_of i.now ≡ Group.SumShifted }
        ensures { Told result (core_state self.old) (core_state self.new) (effect i.now (core_state self.old)) }
    {
        match *i {
            AddReg {
                rd,
                rn,
                rm,
                shift,
                by,
            } => {
                let (a, b) = (self.read(rn), self.operand(rm, shift, by));
                self.gives(rd, a.wrapping_add(b))
            }
            SubReg {
                rd,
                rn,
                rm,
                shift,
                by,
            } => {
                let (a, b) = (self.read(rn), self.operand(rm, shift, by));
                self.gives(rd, a.wrapping_sub(b))
            }
            SubsReg {
                rd,
                rn,
                rm,
                shift,
                by,
            } => {
                let (a, b) = (self.read(rn), self.operand(rm, shift, by));
                self.gives_flags(rd, a.wrapping_sub(b), subs_flags(a, b))
            }
            _ => unreachable!(),
        }
    }

    /// Combines a register with a shifted one bit by bit.
    #[inline(always)]
    fn combines_bits(&mut self, i: &Instr) -> Step
        requires { group_of i.now ≡ Group.Bitwise }
        ensures { Told result (core_state self.old) (core_state self.new) (effect i.now (core_state self.old)) }
    {
        match *i {
            AndReg {
                rd,
                rn,
                rm,
                shift,
                by,
            } => self.gives(rd, self.read(rn) & self.operand(rm, shift, by)),
            BicReg {
                rd,
                rn,
                rm,
                shift,
                by,
            } => self.gives(rd, bic(self.read(rn), self.operand(rm, shift, by))),
            OrrReg {
                rd,
                rn,
                rm,
                shift,
                by,
            } => self.gives(rd, self.read(rn) | self.operand(rm, shift, by)),
            OrnReg {
                rd,
                rn,
                rm,
                shift,
                by,
            } => self.gives(rd, orn(self.read(rn), self.operand(rm, shift, by))),
            EorReg {
                rd,
                rn,
                rm,
                shift,
                by,
            } => self.gives(rd, self.read(rn) ^ self.operand(rm, shift, by)),
            AndsReg {
                rd,
                rn,
                rm,
                shift,
                by,
            } => {
                let both = self.read(rn) & self.operand(rm, shift, by);
                self.gives_flags(rd, both, ands_flags(both))
            }
            _ => unreachable!(),
        }
    }

    /// Moves an immediate.
    #[inline(always)]
    fn moves_immediate(&mut self, i: &Instr) -> Step
        requires { group_of i.now ≡ Group.Move }
        ensures { Told result (core_state self.old) (core_state self.new) (effect i.now (core_state self.old)) }
    {
        match *i {
            Movn { rd, imm, half } => self.gives(rd, movn(imm, half)),
            Movz { rd, imm, half } => self.gives(rd, movz(imm, half)),
            Movk { rd, imm, half } => self.gives(rd, movk(self.read(rd), imm, half)),
            _ => unreachable!(),
        }
    }

    /// Multiplies or divides.
    #[inline(always)]
    fn multiplies(&mut self, i: &Instr) -> Step
        requires { group_of i.now ≡ Group.Product }
        ensures { Told result (core_state self.old) (core_state self.new) (effect i.now (core_state self.old)) }
    {
        match *i {
            Madd { rd, rn, rm, ra } => {
                let sum = madd(self.read(rn), self.read(rm), self.read(ra));
                self.gives(rd, sum)
            }
            Msub { rd, rn, rm, ra } => {
                let difference = msub(self.read(rn), self.read(rm), self.read(ra));
                self.gives(rd, difference)
            }
            Sdiv { rd, rn, rm } => self.gives(rd, sdiv(self.read(rn), self.read(rm))),
            _ => unreachable!(),
        }
    }

    /// Shifts or turns by a register.
    #[inline(always)]
    fn shifts(&mut self, i: &Instr) -> Step
        requires { group_of i.now ≡ Group.Shift }
        ensures { Told result (core_state self.old) (core_state self.new) (effect i.now (core_state self.old)) }
    {
        match *i {
            Lslv { rd, rn, rm } => self.gives(rd, lsl(self.read(rn), self.read(rm))),
            Lsrv { rd, rn, rm } => self.gives(rd, lsr(self.read(rn), self.read(rm))),
            Asrv { rd, rn, rm } => self.gives(rd, asr(self.read(rn), self.read(rm))),
            Rorv { rd, rn, rm } => self.gives(rd, ror(self.read(rn), self.read(rm))),
            _ => unreachable!(),
        }
    }

    /// Selects by a condition.
    #[inline(always)]
    fn selects(&mut self, i: &Instr) -> Step
        requires { group_of i.now ≡ Group.Select }
        ensures { Told result (core_state self.old) (core_state self.new) (effect i.now (core_state self.old)) }
    {
        match *i {
            Csel { rd, rn, rm, cond } => {
                let value = csel(cond, self.flags, self.read(rn), self.read(rm));
                self.gives(rd, value)
            }
            Csinc { rd, rn, rm, cond } => {
                let value = csinc(cond, self.flags, self.read(rn), self.read(rm));
                self.gives(rd, value)
            }
            Csneg { rd, rn, rm, cond } => {
                let value = csneg(cond, self.flags, self.read(rn), self.read(rm));
                self.gives(rd, value)
            }
            _ => unreachable!(),
        }
    }

    /// Branches, calls, returns or traps.
    #[inline(always)]
    fn branches(&mut self, i: &Instr) -> Step
        requires group { group_of i.now ≡ Group.Branch }
        requires place { place_at (core_state self.old).pc < 2 ^ 32 }
        ensures { Told result (core_state self.old) (core_state self.new) (effect i.now (core_state self.old)) }
    {
        match *i {
            B { to } => self.goes(branch_26(self.pc, to)),
            Bl { to } => self.calls(branch_26(self.pc, to)),
            BCond { to, cond } => self.goes_if(holds(cond, self.flags), branch_19(self.pc, to)),
            Cbz { rt, to } => self.goes_if(self.read(rt) == 0, branch_19(self.pc, to)),
            Cbnz { rt, to } => self.goes_if(self.read(rt) != 0, branch_19(self.pc, to)),
            Br { rn } => self.goes(self.read(rn)),
            Blr { rn } => self.calls(self.read(rn)),
            Ret { rn } => self.goes(self.read(rn)),
            Brk { imm } => Step::Trapped {
                kind: imm.get() as u16,
                word: self.place(),
            },
            _ => unreachable!(),
        }
    }

    /// Loads.
    #[inline(always)]
    fn loads(&mut self, i: &Instr) -> Step
        requires { group_of i.now ≡ Group.Load }
        ensures { Told result (core_state self.old) (core_state self.new) (effect i.now (core_state self.old)) }
    {
        match *i {
            Ldr { rt, rn, imm } => self.loads8(rt, self.beside(rn, 8 * imm.get() as u64)),
            Ldrb { rt, rn, imm } => self.loads1(rt, self.beside(rn, imm.get() as u64)),
            LdrReg { rt, rn, rm } => self.loads8(rt, self.beside(rn, self.read(rm))),
            LdrRegScaled { rt, rn, rm } => {
                let address = self.beside(rn, self.read(rm).wrapping_mul(8));
                self.loads8(rt, address)
            }
            LdrbReg { rt, rn, rm } => self.loads1(rt, self.beside(rn, self.read(rm))),
            _ => unreachable!(),
        }
    }

    /// Stores.
    #[inline(always)]
    fn stores(&mut self, i: &Instr) -> Step
        requires { group_of i.now ≡ Group.Store }
        ensures { Told result (core_state self.old) (core_state self.new) (effect i.now (core_state self.old)) }
    {
        match *i {
            Str { rt, rn, imm } => {
                let address = self.beside(rn, 8 * imm.get() as u64);
                self.stores8(address, self.read(rt))
            }
            Strb { rt, rn, imm } => {
                let address = self.beside(rn, imm.get() as u64);
                self.stores1(address, self.read(rt))
            }
            StrReg { rt, rn, rm } => {
                let address = self.beside(rn, self.read(rm));
                self.stores8(address, self.read(rt))
            }
            StrRegScaled { rt, rn, rm } => {
                let address = self.beside(rn, self.read(rm).wrapping_mul(8));
                self.stores8(address, self.read(rt))
            }
            StrbReg { rt, rn, rm } => {
                let address = self.beside(rn, self.read(rm));
                self.stores1(address, self.read(rt))
            }
            _ => unreachable!(),
        }
    }

    /// Carries out an instruction that isn't an SVC.
    #[inline(always)]
    pub fn execute(&mut self, i: &Instr) -> Step
        requires number { service_number i.now ≡ None }
        requires place { place_at (core_state self.old).pc < 2 ^ 32 }
        ensures { Told result (core_state self.old) (core_state self.new) (effect i.now (core_state self.old)) }
    {
        match group_of(i) {
            Group::SumImmediate => self.adds_immediate(i),
            Group::SumShifted => self.adds_shifted(i),
            Group::Bitwise => self.combines_bits(i),
            Group::Move => self.moves_immediate(i),
            Group::Product => self.multiplies(i),
            Group::Shift => self.shifts(i),
            Group::Select => self.selects(i),
            Group::Branch => self.branches(i),
            Group::Load => self.loads(i),
            Group::Store => self.stores(i),
            Group::Service => unreachable!(),
        }
    }
}
