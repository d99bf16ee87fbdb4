//! The walk from a trace's start to its end.

ghost use Rattle.std.specs.Prelude.{◌≡◌, ℕ, ◌+◌, ◌<◌, ◌≤◌, List, [], ◌∷◌, ◌++◌, length, Option, Some, true, slice_get, IfOk, OnOk};
ghost use Rattle.block_runs.specs.Blocks.{Operation};
ghost use Rattle.lir_core.specs.declared.places.Places.{Places};
ghost use Rattle.lir_core.specs.declared.places.TraceOut.{TraceOut};
ghost use Rattle.lir_core.specs.Flows.{operation_of};
ghost use Rattle.lir_core.specs.Lines.{Room, end_reads};

use crate::part::{Ended, Part, room_for};
use lir_core::{Items, Leave, Line, Lir, Places, RegisterList, TraceOut};
use outside::Memory;
use std::alloc::Global;

/// The lists of the nodes that are walked, as a result has them, and the node that is being walked.
#[derive(Drop)]
pub struct Forward {
    pub starts: Items<Places>,
    pub ends: Items<Places>,
    pub lines: Items<Items<Line>>,
    pub regs: Items<RegisterList>,
    pub part: Part,
}

impl Forward {
    ghost use Rattle.loc_state.specs.Steps.{started, in_part, brought, evicted, dropped, defines, called, closed};
    ghost use Rattle.loc_state.specs.Walked.{Course, Simulates, AreValues, InRow, Matches, CanBring, CanDefine, CanCall, Walked, IsWalked, task};

    /// Starts before a trace with these start places, with room for what so many nodes will have.
    pub fn new(alloc: Global, start: Places, nodes: usize) -> Result<Forward, Memory>
        ensures step { IfOk result (λ f. f ≡ started start) }
        ensures simulates { IfOk result (λ f. (x : Course) → x.done ≡ [] → length start.regs ≡ x.room.regs → AreValues x.room.values start → Simulates x 0 [] f) }
    {
        Ok(Forward {
            starts: room_for(alloc, nodes)?,
            ends: room_for(alloc, nodes)?,
            lines: room_for(alloc, nodes)?,
            regs: room_for(alloc, nodes)?,
            part: Part::begin(alloc, start)?,
        })
    }

    /// Makes room for the lines of so many operations.
    pub fn make_room(&mut self, alloc: Global, operations: usize) -> Result<(), Memory>
        ensures { OnOk result (self.new ≡ self.old) }
    {
        self.part.make_room(alloc, operations)?;
        Ok(())
    }

    /// Notes the register of the next use. With none given the value is in a register; else it is homed, and is loaded
    /// into the register, which is empty and isn't noted.
    pub fn bring(&mut self, value: u32, reg: Option<u8>) -> Result<(), Memory>
        requires few { length self.old.part.regs ≤ 16 }
        requires in_row { InRow reg self.old.part }
        ensures step { OnOk result (self.new ≡ in_part (brought value reg) self.old) }
        ensures simulates { OnOk result ((x : Course) (n : ℕ) (noted : List ℕ) → CanBring value reg self.old.part
            → Simulates x n noted self.old → Simulates x n (noted ++ value ∷ []) self.new) }
    {
        self.part.bring(value, reg)?;
        Ok(())
    }

    /// Stores a register's value where it isn't homed, and empties the register. What a noted register contains stays.
    pub fn evict(&mut self, reg: u8) -> Result<(), Memory>
        requires { reg < length self.old.part.regs }
        ensures step { OnOk result (self.new ≡ in_part (evicted reg) self.old) }
        ensures simulates { OnOk result ((x : Course) (n : ℕ) (noted : List ℕ) → Simulates x n noted self.old → Simulates x n noted self.new) }
    {
        self.part.evict(reg)?;
        Ok(())
    }

    /// Takes a value's places away. What a noted register contains stays.
    pub fn drop_value(&mut self, value: u32)
        ensures step { self.new ≡ in_part (dropped value) self.old }
        ensures simulates { (x : Course) (n : ℕ) (noted : List ℕ) → Simulates x n noted self.old → Simulates x n noted self.new }
    {
        self.part.drop_value(value);
    }

    /// Ends an operation that isn't a call, all uses of which are noted: its definition goes to an empty register.
    pub fn define(&mut self, index: u32, lir: &Lir, reg: Option<u8>) -> Result<(), Memory>
        requires { Matches lir.now.def reg self.old.part }
        ensures step { OnOk result (self.new ≡ in_part (defines index lir.now.def reg) self.old) }
        ensures simulates { OnOk result ((x : Course) → slice_get x.ops index ≡ Some (operation_of lir.now)
            → CanDefine x.room.values (operation_of lir.now) reg self.old.part → Simulates x index lir.now.uses self.old
            → Simulates x (index + 1) [] self.new) }
    {
        self.part.define(index, lir.def, reg)?;
        Ok(())
    }

    /// A call, each use of which has a place: of the values in registers those to be kept are stored where they aren't
    /// homed, lowest register first; then the target and the arguments go to where the call takes them, all registers are
    /// emptied, and the result is in X0.
    pub fn call(&mut self, alloc: Global, index: u32, lir: &Lir, keep: &[u32]) -> Result<(), Memory>
        requires few { length self.old.part.regs ≤ 16 }
        requires some { 0 < length self.old.part.regs }
        ensures step { OnOk result (self.new ≡ in_part (called index (operation_of lir.now) keep.now) self.old) }
        ensures simulates { OnOk result ((x : Course) → slice_get x.ops index ≡ Some (operation_of lir.now)
            → CanCall x.room (operation_of lir.now) self.old.part → Simulates x index [] self.old → Simulates x (index + 1) [] self.new) }
    {
        self.part.call(alloc, index, lir, keep)?;
        Ok(())
    }

    /// Ends a node, the end's uses of which are noted, and begins the next with its start places; there are none behind the
    /// last node.
    pub fn next_node(
        &mut self,
        alloc: Global,
        end: &Leave,
        start: Option<Places>,
    ) -> Result<(), Memory>
        ensures step { OnOk result (self.new ≡ closed start self.old) }
        ensures ended { OnOk result ((x : Course) → Simulates x (length x.ops) (end_reads end.now) self.old
            → IsWalked x.room (x.done ++ task x.ops (end_reads end.now) ∷ []) self.new) }
        ensures begun { OnOk result ((room : Room) (ops : List Operation) (q : Places) → start ≡ Some q → length q.regs ≡ room.regs
            → AreValues room.values q → Walked room ops 0 [] self.new.part) }
    {
        let start = match start {
            Some(start) => start,
            None => Places {
                regs: Items::new(alloc),
                homed: Items::new(alloc),
            },
        };
        let end = self.part.places(alloc)?;
        let Ended {
            start,
            lines,
            named,
        } = self.part.begin_next(alloc, start)?;
        self.starts.push(start)?;
        self.ends.push(end)?;
        self.lines.push(lines)?;
        self.regs.push(named)?;
        Ok(())
    }

    /// The result for a trace of that number, all nodes of which are ended.
    pub fn finish(self, trace: u32) -> TraceOut
        ensures { result ≡ record { trace = trace; starts = self.starts; ends = self.ends; lines = self.lines; regs = self.regs } }
    {
        let Forward {
            starts,
            ends,
            lines,
            regs,
            part: _,
        } = self;
        TraceOut {
            trace,
            starts,
            ends,
            lines,
            regs,
        }
    }
}
