//! The node that is being walked.

ghost use Rattle.std.specs.Prelude.{◌≡◌, ◌≤◌, [], ◌++◌, length, drop, replicate, None, Some, IfOk, OnOk};
ghost use Rattle.lir_core.specs.Flows.{operation_of};
ghost use Rattle.loc_state.specs.Homed.{all_inserted};
ghost use Rattle.loc_back.specs.Steps.{settled_stage, passed};

use crate::front_items::FrontItems;
use crate::front_registers::FrontRegisters;
use crate::scratch::Scratch;
use crate::seating::{
    drop_params, keep_others, put, save, save_all, seat, seat_new, unseat, value_at,
};
use crate::writing::{
    leave, load_again, move_result, name, name_all, open, reload_all, store_result,
};
use lir_core::{Items, Leave, Line, Lir, is_aimed};
use loc_state::{Registers, argument_moves, place_of, register_of};
use outside::Memory;
use std::alloc::{AllocError, Global};
use value_sets::ValueSet;

/// An operation that is begun: its index in the node, the register of its definition, and the definition where it is to be
/// stored.
#[derive(Clone, Copy)]
pub struct Begun {
    pub index: u32,
    pub reg: Option<u8>,
    pub stored: Option<u32>,
}

/// A register that is loaded again behind an operation.
#[derive(Clone, Copy, Default)]
pub struct Loading {
    pub reg: u8,
    pub value: u32,
}

/// How far the walk has come: no node yet, a node's end, an operation whose uses are being taken, or what is written.
#[derive(Clone, Copy)]
pub enum Stage {
    Behind,
    End,
    Operation(Begun),
    Done,
}

/// The registers at the node's end, where values stand now, the lines from there on and the registers that are named; and
/// of what is begun the registers noted and what is loaded again.
#[derive(Drop)]
pub struct BackPart {
    pub end: Items<Option<u32>>,
    pub regs: Registers,
    pub homed: ValueSet,
    pub lines: FrontItems<Line>,
    pub named: FrontRegisters,
    pub stage: Stage,
    pub noted: Scratch<u8>,
    pub loads: Scratch<Loading>,
}

impl BackPart {
    ghost use Rattle.loc_state.specs.Lines.{place_of, aims, moves};
    ghost use Rattle.loc_back.specs.declared.part.Stage.TheVariants.{Behind};
    ghost use Rattle.loc_back.specs.Steps.{end_of, settled, taken, again, evicted, begins, if_homed, seated, unseated, emptied, written, called, defined, entered};

    /// No node yet: so many empty registers, and homed values.
    pub(crate) fn begin(alloc: Global, homed: &[u32], regs: u8) -> Result<BackPart, AllocError>
        ensures { IfOk result (λ t. t ≡ record {
          end = [];
          regs = replicate regs None;
          homed = all_inserted homed.now [];
          lines = [];
          named = [];
          stage = Behind;
          noted = [];
          loads = [];
        }) }
    {
        let mut first = ValueSet::new(alloc);
        first.insert_all(homed)?;
        Ok(BackPart {
            end: Items::new(alloc),
            regs: empty_registers(alloc, regs)?,
            homed: first,
            lines: FrontItems::with_room(alloc, LINES)?,
            named: FrontRegisters::new(alloc),
            stage: Stage::Behind,
            noted: Scratch::new(alloc),
            loads: Scratch::new(alloc),
        })
    }

    /// Writes what was begun.
    pub(crate) fn settle(&mut self, alloc: Global) -> Result<(), AllocError>
        ensures { OnOk result (self.new ≡ settled self.old) }
    {
        self.settle_end(alloc)?;
        load_again(&mut self.lines, self.loads.as_slice())?;
        open(&mut self.lines, self.stage)?;
        name(&mut self.named, self.stage)?;
        name_all(&mut self.named, self.noted.as_slice())?;
        self.stage = settled_stage(self.stage);
        self.noted.clear();
        self.loads.clear();
        Ok(())
    }

    // The registers at an end are as they are now.
    fn settle_end(&mut self, alloc: Global) -> Result<(), AllocError>
        ensures { OnOk result (self.new ≡ record self.old { end = end_of self.old.stage self.old.regs self.old.end }) }
    {
        match self.stage {
            Stage::End => {
                self.end = self.regs.list(alloc)?;
                Ok(())
            }
            Stage::Behind => Ok(()),
            Stage::Operation(_) => Ok(()),
            Stage::Done => Ok(()),
        }
    }

    pub(crate) fn take(&mut self, value: u32, reg: Option<u8>) -> Result<(), AllocError>
        requires { length self.old.regs ≤ 16 }
        ensures step { OnOk result (self.new ≡ taken value reg self.old) }
        ensures row { OnOk result (length self.new.regs ≡ length self.old.regs) }
    {
        match reg {
            None => {
                self.noted.push(register_of(self.regs.as_slice(), value))?;
                Ok(())
            }
            Some(reg) => {
                put(&mut self.regs, reg, Some(value));
                self.noted.push(reg)?;
                Ok(())
            }
        }
    }

    pub(crate) fn evict(&mut self, reg: u8) -> Result<(), AllocError>
        ensures step { OnOk result (self.new ≡ evicted reg self.old) }
        ensures row { OnOk result (length self.new.regs ≡ length self.old.regs) }
    {
        let content = value_at(self.regs.as_slice(), reg);
        put(&mut self.regs, reg, None);
        save(&mut self.homed, content)?;
        self.load_behind(reg, content)
    }

    // Behind an operation a value that leaves its register is loaded again.
    fn load_behind(&mut self, reg: u8, content: Option<u32>) -> Result<(), AllocError>
        ensures { OnOk result (self.new ≡ record self.old { loads = again self.old.stage reg content self.old.loads }) }
    {
        match self.stage {
            Stage::Operation(_) => leave(&mut self.loads, reg, content),
            Stage::Behind => Ok(()),
            Stage::End => Ok(()),
            Stage::Done => Ok(()),
        }
    }

    pub(crate) fn define(
        &mut self,
        alloc: Global,
        index: u32,
        def: Option<u32>,
        reg: Option<u8>,
    ) -> Result<(), AllocError>
        ensures step { OnOk result (self.new ≡ defined index def reg self.old) }
        ensures row { OnOk result (length self.new.regs ≡ length self.old.regs) }
    {
        self.settle(alloc)?;
        self.begin_operation(index, def, reg)
    }

    fn begin_operation(
        &mut self,
        index: u32,
        def: Option<u32>,
        reg: Option<u8>,
    ) -> Result<(), AllocError>
        ensures { OnOk result (self.new ≡ begins index def reg self.old) }
    {
        if let Some(value) = def {
            if let Some(reg) = reg {
                return self.begin_definition(index, value, reg);
            }
        }
        self.stage = Stage::Operation(Begun {
            index,
            reg: None,
            stored: None,
        });
        Ok(())
    }

    fn begin_definition(&mut self, index: u32, value: u32, reg: u8) -> Result<(), AllocError>
        ensures { OnOk result (self.new ≡ begins index (Some value) (Some reg) self.old) }
    {
        let content = keep_others(Some(value), value_at(self.regs.as_slice(), reg));
        let stored = self.if_homed(value);
        put(&mut self.regs, reg, None);
        save(&mut self.homed, content)?;
        self.loads.clear();
        leave(&mut self.loads, reg, content)?;
        self.stage = Stage::Operation(Begun {
            index,
            reg: Some(reg),
            stored,
        });
        Ok(())
    }

    fn if_homed(&self, value: u32) -> Option<u32>
        ensures { result ≡ if_homed self.now.homed value }
    {
        if self.homed.has(value) {
            Some(value)
        } else {
            None
        }
    }

    pub(crate) fn call(
        &mut self,
        alloc: Global,
        index: u32,
        lir: &Lir,
        args: &[Option<u8>],
    ) -> Result<(), Memory>
        requires { length self.old.regs ≤ 16 }
        ensures step { OnOk result (self.new ≡ called index (operation_of lir.now) args.now self.old) }
        ensures row { OnOk result (length self.new.regs ≡ length self.old.regs) }
    {
        self.settle(alloc)?;
        self.empty(lir.def)?;
        self.read(lir.uses.as_slice(), args)?;
        self.write_call(alloc, index, lir)
    }

    // Behind a call its result is taken and the other registers are loaded; all are empty before.
    fn empty(&mut self, def: Option<u32>) -> Result<(), AllocError>
        requires { length self.old.regs ≤ 16 }
        ensures step { OnOk result (self.new ≡ emptied def self.old) }
        ensures row { OnOk result (length self.new.regs ≡ length self.old.regs) }
    {
        reload_all(&mut self.lines, def, self.regs.as_slice())?;
        move_result(&mut self.lines, def, self.regs.as_slice())?;
        store_result(&mut self.lines, def, &self.homed)?;
        save_all(&mut self.homed, def, self.regs.as_slice())?;
        self.regs.remove_all();
        Ok(())
    }

    // The uses of a call go to their registers and homes.
    fn read(&mut self, uses: &[u32], args: &[Option<u8>]) -> Result<(), AllocError>
        ensures step { OnOk result (self.new ≡ record self.old { regs = seated uses.now args.now self.old.regs; homed = unseated uses.now args.now self.old.homed }) }
        ensures row { OnOk result (length self.new.regs ≡ length self.old.regs) }
    {
        seat(&mut self.regs, uses, args);
        unseat(&mut self.homed, uses, args)
    }

    // The lines of a call: its target, its arguments, itself.
    fn write_call(&mut self, alloc: Global, index: u32, lir: &Lir) -> Result<(), Memory>
        requires { length self.old.regs ≤ 16 }
        ensures { OnOk result (self.new ≡ written index (operation_of lir.now) self.old) }
    {
        self.lines.push_front(Line::Lir(index))?;
        let uses = lir.uses.as_slice();
        if is_aimed(lir.template) {
            return self.write_aimed(alloc, uses);
        }
        self.write_moves(alloc, uses)
    }

    // The target, which is the first use, then the arguments.
    fn write_aimed(&mut self, alloc: Global, uses: &[u32]) -> Result<(), Memory>
        requires { length self.old.regs ≤ 16 }
        ensures { OnOk result (self.new
            ≡ record self.old { lines = (aims (place_of self.old.regs) uses.now ++ moves (place_of self.old.regs) (drop 1 uses.now)) ++ self.old.lines }) }
    {
        let Some((target, arguments)) = uses.split_first() else {
            return Ok(());
        };
        self.write_moves(alloc, arguments)?;
        let target = place_of(self.regs.as_slice(), *target);
        self.lines.push_front(Line::Target(target))?;
        Ok(())
    }

    fn write_moves(&mut self, alloc: Global, arguments: &[u32]) -> Result<(), Memory>
        requires { length self.old.regs ≤ 16 }
        ensures { OnOk result (self.new ≡ record self.old { lines = moves (place_of self.old.regs) arguments.now ++ self.old.lines }) }
    {
        if !arguments.is_empty() {
            let moves = argument_moves(alloc, self.regs.as_slice(), arguments)?;
            self.lines.push_front(Line::Moves(moves))?;
        }
        Ok(())
    }

    /// The end of the node before one with these parameters.
    pub(crate) fn enter(
        &mut self,
        params: &[u32],
        end: &Leave,
        args: &[Option<u8>],
        homes: &[u32],
    ) -> Result<(), AllocError>
        ensures step { OnOk result (self.new ≡ entered params.now end.now args.now homes.now self.old) }
        ensures row { OnOk result (length self.new.regs ≡ length self.old.regs) }
    {
        drop_params(&mut self.regs, params);
        seat_new(&mut self.regs, passed(end), args);
        self.homed.insert_all(homes)?;
        self.stage = Stage::End;
        Ok(())
    }
}

/// The lines of a node for which there is room at once: most nodes have no more.
const LINES: usize = 16;

/// Empty registers, as many as there are at most.
const EMPTY: [Option<u32>; 16] = [None; 16];

// So many registers, which are empty.
fn empty_registers(alloc: Global, count: u8) -> Result<Registers, AllocError>
    ensures { IfOk result (λ regs. regs ≡ replicate count None) }
{
    if let Some(row) = EMPTY.get(..count as usize) {
        return Registers::from_slice(alloc, row);
    }
    let row: Vec<Option<u32>> = vec![in alloc; None; count as usize]?;
    Registers::from_slice(alloc, row.as_slice())
}

fn settled_stage(stage: Stage) -> Stage
    ensures { result ≡ settled_stage stage }
{
    match stage {
        Stage::Behind => Stage::Behind,
        Stage::End | Stage::Operation(_) | Stage::Done => Stage::Done,
    }
}

/// What a jump passes on.
fn passed(end: &Leave) -> &[u32]
    ensures { result.now ≡ passed end.now }
{
    match end {
        Leave::Jump { args, .. } => args.as_slice(),
        _ => &[],
    }
}
