//! Places of values, and the lines that allocators write.

use crate::flow::{Flow, Trace};
use crate::live_sets::LiveSets;
use crate::registers::RegisterList;
use items::Items;

/// Where a value stands: in a register, in the home that the value of that number has, or in a slot for an argument of a
/// call above the fourth.
#[derive(Clone, Copy, PartialEq, Eq, Debug)]
pub enum Place {
    Reg(u8),
    Home(u32),
    Out(u32),
}

/// `to` takes what `from` has.
#[derive(Clone, Copy, PartialEq, Eq, Debug)]
pub struct Move {
    pub to: Place,
    pub from: Place,
}

/// Which value each register has, and which values are homed, rising.
#[derive(Drop)]
pub struct Places {
    pub regs: Items<Option<u32>>,
    pub homed: Items<u32>,
}

/// A line of a node.
#[derive(Drop)]
pub enum Line {
    /// The node's operation of that index.
    Lir(u32),
    /// A register's value goes to its home.
    Store { reg: u8, value: u32 },
    /// A value comes from its home.
    Load { reg: u8, value: u32 },
    /// The arguments of the call that follows, all at once.
    Moves(Items<Move>),
    /// The result of the call before goes from X0 to a register.
    Result(u8),
    /// The address of the procedure that is called next goes to X25.
    Target(Place),
}

/// What an allocator gives for a trace: for each of its nodes the places before and behind, the lines, and the registers of
/// the uses and the definition of each operation and of the end's uses, in order. A call lists none.
#[derive(Drop)]
pub struct TraceOut {
    pub trace: u32,
    pub starts: Items<Places>,
    pub ends: Items<Places>,
    pub lines: Items<Items<Line>>,
    pub regs: Items<RegisterList>,
}

/// What an allocator is given: a trace with its number, how many registers there are, 4 to 16, and the parent's node whose
/// end is the hint.
#[derive(Clone, Copy)]
pub struct TraceIn<'a> {
    pub flow: &'a Flow,
    pub live: &'a LiveSets,
    pub trace: &'a Trace,
    pub number: u32,
    pub regs: u8,
    pub from: Option<u32>,
}
