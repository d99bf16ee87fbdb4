//! Calls: their arguments, their beginning, their return.

ghost use Rattle.std.specs.Prelude.{◌≡◌, ◌+◌, ◌≤◌, ◌++◌, replicate, nat_le, OnOk, IfOk, IfErr};
ghost use Rattle.ob_types.specs.Store.{Bits};
ghost use Rattle.ob_types.specs.Meaning.{received as received_by, procedure_of};
ghost use Rattle.eval_store.specs.Did.{Did};
ghost use Rattle.ob_eval.specs.Calling.{Receives, ReceivedOne, Received, prepared};

use crate::machine::Machine;
use eval_at_once::{Active, kind_in, length_of_kind, record_of_kind};
use eval_layouts::LaidProgram;
use eval_store::{Cell, Handed, HandedForm, Object, Stop, World};
use eval_tasks::{Act, Task};
use items::Items;
use ob_types::{Argument, Call, Checked, Formal, Mode, Procedure};
use outside::Memory;
use std::alloc::Global;

/// As many calls may be active, with as many cells.
const CALLS: usize = 8192;

const FRAMES: u64 = 1048576;

/// The cell of an argument that is a value, where it is handed over as its parameter wants.
fn receive(mode: Mode, handed: Handed) -> Result<Option<Cell>, Stop>
    ensures { Receives mode handed result }
{
    match mode {
        Mode::Value => match handed.cell() {
            Some(c) => Ok(Some(c)),
            None => Err(Stop::NoSense),
        },
        Mode::Place => match handed.form() {
            HandedForm::At(_) => Ok(None),
            _ => Err(Stop::NoSense),
        },
        Mode::Record => match handed.form() {
            HandedForm::Tagged(_, _) => Ok(None),
            _ => Err(Stop::NoSense),
        },
        Mode::Open => match handed.form() {
            HandedForm::Sized(_, _) => Ok(None),
            _ => Err(Stop::NoSense),
        },
    }
}

/// One argument more, behind the cells of those before it.
fn receive_one(cells: &mut Vec<Cell>, mode: Mode, handed: Handed) -> Result<(), Stop>
    ensures { ReceivedOne mode handed cells.old.items result cells.new.items }
{
    match receive(mode, handed) {
        Err(stop) => Err(stop),
        Ok(None) => Ok(()),
        Ok(Some(c)) => {
            if cells.push(c).is_err() {
                return Err(Stop::NoMemory);
            }
            Ok(())
        }
    }
}

/// The cells of all arguments that are values, with room for some more.
fn receive_all(
    alloc: Global,
    formals: &[Formal],
    arguments: &[Handed],
    more: usize,
) -> Result<Vec<Cell>, Stop>
    ensures { Received (received_by formals.now arguments.now) result }
{
    if formals.len() != arguments.len() {
        return Err(Stop::NoSense);
    }
    let Some(room) = formals.len().checked_add(more) else {
        return Err(Stop::NoMemory);
    };
    let Ok(mut cells) = Vec::with_capacity(alloc, room) else {
        return Err(Stop::NoMemory);
    };
    for i in 0..formals.len() {
        match receive_one(&mut cells, formals[i].mode, arguments[i]) {
            Err(stop) => return Err(stop),
            Ok(()) => {}
        }
    }
    Ok(cells)
}

/// Some cells, and so many of 0 behind them.
fn with_zeros(values: Vec<Cell>, count: u64) -> Result<Object, Stop>
    ensures ok { IfOk result (λ o. o ≡ values.items ++ replicate count (Bits 0)) }
    ensures err { IfErr result (λ e. e ≡ Stop.NoMemory) }
{
    let mut cells = values;
    for _i in 0..count {
        if cells.push(Cell::bits(0)).is_err() {
            return Err(Stop::NoMemory);
        }
    }
    Ok(Object::from_vec(cells))
}

/// A call's object: traps 8 and 9, a turn for each cell of its structured variables, its arguments and zeros.
fn prepare(
    laid: &LaidProgram,
    world: &mut World,
    g: u32,
    procedure: &Procedure,
    arguments: &[Handed],
) -> Result<Object, Stop>
    requires is { procedure.now ≡ procedure_of laid.now g }
    ensures did { Did (prepared laid.now g arguments.now world.old) result world.new }
    ensures turns { OnOk result (world.new.turns ≤ world.old.turns) }
{
    let Some(own) = laid.own_cells(g) else {
        return Err(Stop::NoMemory);
    };
    let Some(zeroed) = laid.zeroed_cells(g) else {
        return Err(Stop::NoMemory);
    };
    let values = match receive_all(
        world.allocator(),
        procedure.formals.as_slice(),
        arguments,
        own.min(FRAMES) as usize,
    ) {
        Err(stop) => return Err(stop),
        Ok(cells) => cells,
    };
    if world.depth() >= CALLS {
        return Err(Stop::Trapped(8, g));
    }
    if !fits(world.frame_cells(), values.len() as u64, own) {
        return Err(Stop::Trapped(9, g));
    }
    match world.spend_some(zeroed) {
        Err(stop) => Err(stop),
        Ok(()) => with_zeros(values, own),
    }
}

/// Whether so many cells more may be active.
fn fits(active: u64, values: u64, own: u64) -> bool
    ensures { result ≡ nat_le (active + (values + own)) 1048576 }
{
    active <= FRAMES && values <= FRAMES - active && own <= FRAMES - active - values
}

impl<'a> Machine<'a> {
    ghost use Rattle.std.specs.Prelude.{◌≡◌, ◌<◌, ◌∷◌, List, reverse, take, drop, true, false, OnOk, IfOk, IfErr};
    ghost use Rattle.run_laws.specs.Turns.{State};
    ghost use Rattle.ob_types.specs.Store.{Store, Handed as TheHanded};
    ghost use Rattle.eval_at_once.specs.declared.active.Active.{Active as TheActive};
    ghost use Rattle.ob_types.specs.Meaning.{procedure_of};
    ghost use Rattle.eval_tasks.specs.Tasks.{gathers, reaches, returns, resumes, acts, rest};
    ghost use Rattle.eval_tasks.specs.Weights.{all_arguments, of_call};
    ghost use Rattle.ob_eval.specs.Steps.{before, Went, Falls};
    ghost use Rattle.ob_eval.specs.Calling.{calls_with, answers, enters};

    /// A call's tasks: its result is wanted or not.
    pub fn reach(&mut self, laid: &LaidProgram, call: &'a Call, wanted: bool) -> Result<(), Stop>
        ensures went { Went laid.now (before laid.now (reaches laid.now call.now wanted) self.old) result self.new }
        ensures falls { Falls (of_call call.now) self.old result self.new }
    {
        match call {
            Call::Direct(g, arguments) => {
                self.add(Task::Do(Act::Invoke(*g, arguments.len() as u64, wanted)))?;
                self.add(Task::Gather(arguments))?;
                Ok(())
            }
            Call::Indirect(d, arguments) => {
                self.add(Task::Do(Act::InvokeValue(arguments.len() as u64, wanted)))?;
                self.add(Task::Gather(arguments))?;
                self.add(Task::Do(Act::Fetch))?;
                self.add(Task::Locate(d))?;
                Ok(())
            }
        }
    }

    /// The first argument, if there is one.
    pub fn gather(&mut self, laid: &LaidProgram, arguments: &'a [Argument]) -> Result<(), Stop>
        ensures went { Went laid.now (before laid.now (gathers laid.now arguments.now) self.old) result self.new }
        ensures falls { Falls (all_arguments arguments.now) self.old result self.new }
    {
        match arguments.split_first() {
            None => Ok(()),
            Some((first, rest)) => return self.argument(laid, first, rest),
        }
    }

    /// An argument, before others.
    fn argument(
        &mut self,
        laid: &LaidProgram,
        first: &'a Argument,
        rest: &'a [Argument],
    ) -> Result<(), Stop>
        ensures went { Went laid.now (before laid.now (gathers laid.now (first.now ∷ rest.now)) self.old) result self.new }
        ensures falls { Falls (all_arguments (first.now ∷ rest.now)) self.old result self.new }
    {
        match first {
            Argument::ByValue(x) => {
                self.add(Task::Gather(rest))?;
                self.add(Task::Evaluate(x))?;
                Ok(())
            }
            Argument::ByPlace(d) => {
                self.add(Task::Gather(rest))?;
                self.add(Task::Do(Act::AsPlace))?;
                self.add(Task::Locate(d))?;
                Ok(())
            }
            Argument::ByRecord(d) => {
                self.add(Task::Gather(rest))?;
                self.add(Task::Do(Act::AsRecord(record_of_kind(kind_in(d)))))?;
                self.add(Task::Locate(d))?;
                Ok(())
            }
            Argument::ByOpen(d) => {
                self.add(Task::Gather(rest))?;
                self.add(Task::Do(Act::AsSpan(length_of_kind(kind_in(d)))))?;
                self.add(Task::Locate(d))?;
                Ok(())
            }
        }
    }

    /// What is left behind a body: its result, and the return to this call.
    fn answer(
        &mut self,
        laid: &LaidProgram,
        returned: &'a Option<Checked>,
        old: Active,
        wanted: bool,
    ) -> Result<(), Stop>
        ensures follows { OnOk result ((x : TheActive) (vs : List TheHanded) (s : State Store)
            → rest laid.now self.new.tasks x vs s ≡ answers laid.now old returned.now wanted (rest laid.now self.old.tasks) x vs s) }
        ensures same { OnOk result (self.new ≡ record self.old { tasks = self.new.tasks }) }
        ensures err { IfErr result (λ e. e ≡ Stop.NoMemory) }
    {
        match returned {
            None => {
                if wanted {
                    self.add(Task::Do(Act::Nothing))?;
                }
                self.add(Task::Return(old, false))?;
                Ok(())
            }
            Some(x) => {
                self.add(Task::Return(old, wanted))?;
                if !wanted {
                    self.add(Task::Do(Act::Drop))?;
                }
                self.add(Task::Evaluate(&x.form))?;
                Ok(())
            }
        }
    }

    /// A call with these arguments.
    fn call(
        &mut self,
        laid: &LaidProgram<'a>,
        g: u32,
        arguments: Items<Handed>,
        wanted: bool,
    ) -> Result<(), Stop>
        ensures went { Went laid.now (before laid.now (calls_with laid.now g arguments wanted) self.old) result self.new }
        ensures falls { Falls 1 self.old result self.new }
    {
        if self.active.fuel == 0 {
            return Err(Stop::TurnsSpent);
        }
        match self.world.spend() {
            Err(stop) => return Err(stop),
            Ok(()) => {}
        }
        let Some(procedure) = laid.procedure(g) else {
            return Err(Stop::NoMemory);
        };
        let object = match prepare(laid, &mut self.world, g, procedure, arguments.as_slice()) {
            Err(stop) => return Err(stop),
            Ok(made) => made,
        };
        let frame = self.world.depth() as u64;
        match self.world.enter(object) {
            Err(stop) => return Err(stop),
            Ok(()) => {}
        }
        return self.enter(laid, g, procedure, frame, arguments, wanted);
    }

    /// A call's body, where its object is there.
    fn enter(
        &mut self,
        laid: &LaidProgram<'a>,
        g: u32,
        procedure: &'a Procedure,
        frame: u64,
        arguments: Items<Handed>,
        wanted: bool,
    ) -> Result<(), Stop>
        requires fuel { 0 < self.old.active.fuel }
        requires is { procedure.now ≡ procedure_of laid.now g }
        ensures went { Went laid.now (before laid.now (enters laid.now g arguments frame wanted) self.old) result self.new }
        ensures world { OnOk result (self.new.world ≡ self.old.world) }
    {
        let next = Active {
            fuel: self.active.fuel - 1,
            procedure: g,
            frame,
            arguments,
        };
        let old = std::mem::replace(&mut self.active, next);
        match self.answer(laid, &procedure.answer, old, wanted) {
            Err(stop) => Err(stop),
            Ok(()) => {
                self.add(Task::PerformAll(procedure.body.as_slice(), false))?;
                Ok(())
            }
        }
    }

    /// The last so many that were handed over, the first one first.
    fn take_last(&mut self, count: u64) -> Result<Items<Handed>, Stop>
        ensures ok { IfOk result (λ hs. (hs ≡ reverse (take count self.old.values)) × (self.new ≡ record self.old { values = drop count self.old.values })) }
        ensures err { IfErr result (λ e. e ≡ Stop.NoMemory) }
    {
        match self.values.take_last(count as usize) {
            Ok(arguments) => Ok(arguments),
            Err(Memory) => Err(Stop::NoMemory),
        }
    }

    /// A call of a procedure with the last values.
    pub fn invoke(
        &mut self,
        laid: &LaidProgram<'a>,
        g: u32,
        count: u64,
        wanted: bool,
    ) -> Result<(), Stop>
        ensures went { Went laid.now (before laid.now (acts laid.now (Act.Invoke g count wanted)) self.old) result self.new }
        ensures falls { Falls 1 self.old result self.new }
    {
        match self.take_last(count) {
            Err(stop) => Err(stop),
            Ok(arguments) => return self.call(laid, g, arguments, wanted),
        }
    }

    /// A call of the procedure value that stands behind the last values.
    pub fn invoke_value(
        &mut self,
        laid: &LaidProgram<'a>,
        count: u64,
        wanted: bool,
    ) -> Result<(), Stop>
        ensures went { Went laid.now (before laid.now (acts laid.now (Act.InvokeValue count wanted)) self.old) result self.new }
        ensures falls { Falls 1 self.old result self.new }
    {
        match self.take_last(count) {
            Err(stop) => Err(stop),
            Ok(arguments) => match self.take_cell() {
                Err(stop) => Err(stop),
                Ok(c) => match self.world.code_in(self.active.procedure, c) {
                    Err(stop) => Err(stop),
                    Ok(g) => return self.call(laid, g, arguments, wanted),
                },
            },
        }
    }

    /// Back to the caller, without a result.
    pub fn return_bare(&mut self, laid: &LaidProgram, old: Active) -> Result<(), Stop>
        ensures went { Went laid.now (before laid.now (returns laid.now old false) self.old) result self.new }
        ensures falls { Falls 1 self.old result self.new }
    {
        match self.world.spend() {
            Err(stop) => Err(stop),
            Ok(()) => {
                self.world.leave(self.active.frame);
                self.active = old;
                Ok(())
            }
        }
    }

    /// Back to the caller, with the last value as the result.
    pub fn return_with(&mut self, laid: &LaidProgram, old: Active) -> Result<(), Stop>
        ensures went { Went laid.now (before laid.now (returns laid.now old true) self.old) result self.new }
        ensures falls { Falls 1 self.old result self.new }
    {
        match self.take_cell() {
            Err(stop) => Err(stop),
            Ok(cell) => match self.world.spend() {
                Err(stop) => Err(stop),
                Ok(()) => {
                    self.world.leave(self.active.frame);
                    self.active = old;
                    self.give(cell)?;
                    Ok(())
                }
            },
        }
    }

    /// Another call runs.
    pub fn resume(&mut self, laid: &LaidProgram, old: Active) -> Result<(), Stop>
        ensures went { Went laid.now (before laid.now (resumes laid.now old) self.old) result self.new }
        ensures falls { Falls 1 self.old result self.new }
    {
        self.active = old;
        Ok(())
    }
}
