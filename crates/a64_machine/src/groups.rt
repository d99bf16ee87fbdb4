//! The groups of rows of the table that the machine carries out by one function each.

ghost use Rattle.std.specs.Prelude.{◌≡◌};
ghost use Rattle.a64_machine.specs.Groups.{group_of};

use a64_instr::Instr;
use a64_instr::Instr::*;

/// A group of instructions.
#[derive(Clone, Copy)]
pub enum Group {
    /// Sums and differences with an immediate.
    SumImmediate,
    /// Sums and differences with a shifted register.
    SumShifted,
    /// Bit by bit, with a shifted register.
    Bitwise,
    /// Moves of an immediate.
    Move,
    /// Products and quotients.
    Product,
    /// Shifts by a register.
    Shift,
    /// Choices by a condition.
    Select,
    /// Branches, calls, returns and traps.
    Branch,
    /// Loads.
    Load,
    /// Stores.
    Store,
    /// Services.
    Service,
}

/// The group of an instruction.
#[inline(always)]
pub fn group_of(i: &Instr) -> Group
    ensures { result ≡ group_of i.now }
{
    match i {
        AddImm { .. } | SubImm { .. } | SubsImm { .. } => Group::SumImmediate,
        AddReg { .. } | SubReg { .. } | SubsReg { .. } => Group::SumShifted,
        AndReg { .. }
        | BicReg { .. }
        | OrrReg { .. }
        | OrnReg { .. }
        | EorReg { .. }
        | AndsReg { .. } => Group::Bitwise,
        Movn { .. } | Movz { .. } | Movk { .. } => Group::Move,
        Madd { .. } | Msub { .. } | Sdiv { .. } => Group::Product,
        Lslv { .. } | Lsrv { .. } | Asrv { .. } | Rorv { .. } => Group::Shift,
        Csel { .. } | Csinc { .. } | Csneg { .. } => Group::Select,
        B { .. }
        | Bl { .. }
        | BCond { .. }
        | Cbz { .. }
        | Cbnz { .. }
        | Br { .. }
        | Blr { .. }
        | Ret { .. }
        | Brk { .. } => Group::Branch,
        Ldr { .. } | Ldrb { .. } | LdrReg { .. } | LdrRegScaled { .. } | LdrbReg { .. } =>
            Group::Load,
        Str { .. } | Strb { .. } | StrReg { .. } | StrRegScaled { .. } | StrbReg { .. } =>
            Group::Store,
        Svc { .. } => Group::Service,
    }
}
