//! The walk from a trace's end to its start.

ghost use Rattle.std.specs.Prelude.{◌≡◌, ℕ, ◌+◌, ◌≤◌, List, [], ◌∷◌, ◌++◌, length, Some, slice_get, IfOk, OnOk};
ghost use Rattle.lir_core.specs.Flows.{operation_of};

use crate::front_items::FrontItems;
use crate::marks::Marking;
use crate::part::{BackPart, Stage};
use lir_core::{Items, Leave, Line, Lir, Places, RegisterList, TraceIn, TraceOut};
use outside::Memory;
use std::alloc::{AllocError, Global};
use std::mem::replace;
use value_sets::ValueSet;

/// The lists of the nodes that are walked, as a result has them, but for the homed values, and the node that is being
/// walked.
#[derive(Drop)]
pub struct Backward {
    pub starts: FrontItems<Places>,
    pub ends: FrontItems<Places>,
    pub lines: FrontItems<Items<Line>>,
    pub regs: FrontItems<RegisterList>,
    pub part: BackPart,
}

impl Backward {
    ghost use Rattle.loc_state.specs.Walked.{AllWalk};
    ghost use Rattle.loc_back.specs.Served.{Route, Section, Simulates, due, IsEntered, MayTake, MayEvict, CanDefine, CanCall, CanEnter, with_def, onward, walked, tasks, IsWhole};
    ghost use Rattle.loc_back.specs.Steps.{bare, with_homes, started, in_part, taken, evicted, defined, called, left_node, before_node, closed};

    /// Starts behind a trace, with values that are homed, and so many registers, and with room for what so many nodes will
    /// have.
    pub fn new(alloc: Global, homed: &[u32], regs: u8, nodes: usize) -> Result<Backward, Memory>
        ensures step { IfOk result (λ b. b ≡ started homed.now regs) }
        ensures simulates { IfOk result (λ b. (x : Route) → x.done ≡ [] → x.made ≡ [] → regs ≡ x.room.regs
            → Simulates x 0 [] b) }
    {
        Ok(Backward {
            starts: FrontItems::with_room(alloc, nodes)?,
            ends: FrontItems::with_room(alloc, nodes)?,
            lines: FrontItems::with_room(alloc, nodes)?,
            regs: FrontItems::with_room(alloc, nodes)?,
            part: BackPart::begin(alloc, homed, regs)?,
        })
    }

    /// From the start of a node with these parameters to the end of the node before; behind the trace's last node there are
    /// none. Each argument that is in no register takes the one that is given, if one is, and values join the homed ones.
    pub fn next_node(
        &mut self,
        alloc: Global,
        params: &[u32],
        end: &Leave,
        args: &[Option<u8>],
        homes: &[u32],
    ) -> Result<(), Memory>
        ensures step { OnOk result (self.new ≡ before_node params.now end.now args.now homes.now self.old) }
        ensures row { OnOk result (length self.new.part.regs ≡ length self.old.part.regs) }
        ensures simulates { OnOk result ((x : Route) (b : Section)
            → CanEnter x b params.now end.now homes.now self.old.part.homed
            → Simulates x 0 (due x 0 self.old.part.stage) self.old
            → Simulates (onward self.old.part.stage b params.now x) (length b.ops) [] self.new) }
    {
        self.leave_node(alloc)?;
        self.part.enter(params, end, args, homes)?;
        Ok(())
    }

    /// Begins an operation that isn't a call: its definition is made in the register that is given, and another value that
    /// the register has behind it is evicted.
    pub fn define(
        &mut self,
        alloc: Global,
        index: u32,
        lir: &Lir,
        reg: Option<u8>,
    ) -> Result<(), Memory>
        ensures step { OnOk result (self.new ≡ in_part (defined index lir.now.def reg) self.old) }
        ensures row { OnOk result (length self.new.part.regs ≡ length self.old.part.regs) }
        ensures simulates { OnOk result ((x : Route) → slice_get x.here.ops index ≡ Some (operation_of lir.now)
            → IsEntered self.old.part.stage → CanDefine x (operation_of lir.now) reg self.old.part
            → Simulates x (index + 1) (due x (index + 1) self.old.part.stage) self.old
            → Simulates (with_def lir.now.def x) index [] self.new) }
    {
        self.part.define(alloc, index, lir.def, reg)?;
        Ok(())
    }

    /// Notes the register of the next use of an operation or an end. With none given the value is in a register; else it
    /// takes the register that is given.
    pub fn take(&mut self, value: u32, reg: Option<u8>) -> Result<(), Memory>
        requires few { length self.old.part.regs ≤ 16 }
        ensures step { OnOk result (self.new ≡ in_part (taken value reg) self.old) }
        ensures row { OnOk result (length self.new.part.regs ≡ length self.old.part.regs) }
        ensures simulates { OnOk result ((x : Route) (n : ℕ) (noted : List ℕ) → MayTake x value reg self.old.part
            → Simulates x n noted self.old → Simulates x n (noted ++ value ∷ []) self.new) }
    {
        self.part.take(value, reg)?;
        Ok(())
    }

    /// Homes a register's value and empties the register; behind an operation the value is loaded again.
    pub fn evict(&mut self, reg: u8) -> Result<(), Memory>
        ensures step { OnOk result (self.new ≡ in_part (evicted reg) self.old) }
        ensures row { OnOk result (length self.new.part.regs ≡ length self.old.part.regs) }
        ensures simulates { OnOk result ((x : Route) (n : ℕ) (noted : List ℕ) → MayEvict reg self.old.part
            → Simulates x n noted self.old → Simulates x n noted self.new) }
    {
        self.part.evict(reg)?;
        Ok(())
    }

    /// A call: behind it the result goes from X0 to where it is, and every other register is loaded; before it each use is
    /// in the register that is given, or homed where none is.
    pub fn call(
        &mut self,
        alloc: Global,
        index: u32,
        lir: &Lir,
        args: &[Option<u8>],
    ) -> Result<(), Memory>
        requires few { length self.old.part.regs ≤ 16 }
        ensures step { OnOk result (self.new ≡ in_part (called index (operation_of lir.now) args.now) self.old) }
        ensures row { OnOk result (length self.new.part.regs ≡ length self.old.part.regs) }
        ensures simulates { OnOk result ((x : Route) → slice_get x.here.ops index ≡ Some (operation_of lir.now)
            → IsEntered self.old.part.stage → CanCall x (operation_of lir.now) args.now self.old.part.homed
            → Simulates x (index + 1) (due x (index + 1) self.old.part.stage) self.old
            → Simulates (with_def lir.now.def x) index [] self.new) }
    {
        self.part.call(alloc, index, lir, args)?;
        Ok(())
    }

    /// Ends the walk at the start of the first node, and marks homes at all places.
    pub fn close(&mut self, alloc: Global, t: &TraceIn) -> Result<(), Memory>
        ensures step { OnOk result (self.new ≡ closed t.now.flow.now t.now.live.now t.now.trace.now.nodes self.old) }
        ensures simulates { OnOk result ((x : Route) → IsWhole t.now.flow.now t.now.live.now t.now.trace.now.nodes x self.old.part
            → Simulates x 0 (due x 0 self.old.part.stage) self.old
            → AllWalk x.room (tasks (walked self.old.part.stage x)) self.new.starts self.new.lines self.new.regs self.new.ends) }
    {
        self.leave_node(alloc)?;
        self.mark(alloc, t)?;
        Ok(())
    }

    // The node that is walked joins the lists.
    fn leave_node(&mut self, alloc: Global) -> Result<(), AllocError>
        ensures step { OnOk result (self.new ≡ left_node self.old) }
        ensures row { OnOk result (self.new.part.regs ≡ self.old.part.regs) }
    {
        let stage = self.part.stage;
        self.part.settle(alloc)?;
        match stage {
            Stage::Behind => Ok(()),
            Stage::End => self.join(alloc),
            Stage::Operation(_) => self.join(alloc),
            Stage::Done => self.join(alloc),
        }
    }

    fn join(&mut self, alloc: Global) -> Result<(), AllocError>
        ensures { OnOk result (self.new ≡ record {
          starts = bare self.old.part.regs ∷ self.old.starts;
          ends = bare self.old.part.end ∷ self.old.ends;
          lines = self.old.part.lines ∷ self.old.lines;
          regs = self.old.part.named ∷ self.old.regs;
          part = record self.old.part { end = []; lines = []; named = [] };
        }) }
    {
        let start = Places {
            regs: self.part.regs.list(alloc)?,
            homed: Items::new(alloc),
        };
        let end = Places {
            regs: replace(&mut self.part.end, Items::new(alloc)),
            homed: Items::new(alloc),
        };
        let lines = self.part.lines.take_items(alloc)?;
        let named = self.part.named.take(alloc)?;
        self.starts.push_front(start)?;
        self.ends.push_front(end)?;
        self.lines.push_front(lines)?;
        self.regs.push_front(named)?;
        Ok(())
    }

    fn mark(&mut self, alloc: Global, t: &TraceIn) -> Result<(), AllocError>
        ensures { OnOk result (self.new ≡ with_homes t.now.flow.now t.now.live.now t.now.trace.now.nodes self.old) }
    {
        let nodes = t.trace.nodes.as_slice();
        let marking = Marking {
            flow: t.flow,
            live: t.live,
            homed: &self.part.homed,
        };
        let mut values = ValueSet::new(alloc);
        marking.mark_starts(alloc, &mut values, nodes, &mut self.starts)?;
        marking.mark_ends(alloc, &mut values, nodes, &mut self.ends)?;
        Ok(())
    }

    /// The result for a trace of that number.
    pub fn finish(self, trace: u32) -> TraceOut
        ensures { result ≡ record { trace = trace; starts = self.starts; ends = self.ends; lines = self.lines; regs = self.regs } }
    {
        let Backward {
            starts,
            ends,
            lines,
            regs,
            part: _,
        } = self;
        TraceOut {
            trace,
            starts: starts.into_items(),
            ends: ends.into_items(),
            lines: lines.into_items(),
            regs: regs.into_items(),
        }
    }
}
