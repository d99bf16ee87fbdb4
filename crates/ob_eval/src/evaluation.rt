//! A whole program.

ghost use Rattle.std.specs.Prelude.{◌≡◌, ◌≤◌, ℕ, List, [], true, IfOk, OnOk};
ghost use Rattle.outside.specs.Sink.{TookAll, TookFront, Faulted};
ghost use Rattle.run_laws.specs.Turns.{State};
ghost use Rattle.ob_types.specs.Store.{Store, Handed};
ghost use Rattle.ob_types.specs.Meaning.{meaning, bodies, start};
ghost use Rattle.ob_types.specs.WellFormed.{well_formed};
ghost use Rattle.eval_at_once.specs.declared.active.Active.{Active};
ghost use Rattle.eval_tasks.specs.Tasks.{rest};
ghost use Rattle.ob_eval.specs.Steps.{left};
ghost use Rattle.ob_eval.specs.Starting.{active_of, body_before, DoBodies};
ghost use Rattle.ob_eval.specs.Evaluated.{Evaluated};

use crate::answer::{Eval, answer_of};
use crate::machine::Machine;
use eval_at_once::Active;
use eval_layouts::LaidProgram;
use eval_store::{Stop, World};
use eval_tasks::{Stack, Task};
use items::Items;
use ob_types::{Module, Program};
use outside::{Memory, Sink, WriteFault, write_all};
use std::alloc::Global;

/// As many bytes are written at once.
const PIECE: usize = 4096;

impl<'a> Machine<'a> {
    ghost use Rattle.std.specs.Prelude.{◌≡◌, ◌≢◌, ◌≤◌, OnOk, OnErr};
    ghost use Rattle.outside.specs.Sink.{TookAll, TookFront, Faulted};
    ghost use Rattle.run_laws.specs.Turns.{outcome};
    ghost use Rattle.eval_store.specs.Did.{Sensible};
    ghost use Rattle.ob_eval.specs.Steps.{left};
    ghost use Rattle.ob_eval.specs.Evaluated.{Evaluated, Finished, Drained, silent};

    /// What was written goes to the sink.
    fn flush<O: Sink>(&mut self, out: &mut O) -> Result<(), WriteFault>
        ensures all { OnOk result (TookAll (O.account out.old) (O.account out.new) self.old.world.out) }
        ensures rest { OnOk result (self.new ≡ silent self.old) }
        ensures front { OnErr result (TookFront (O.account out.old) (O.account out.new) self.old.world.out) }
        ensures rises { (O.account out.old).faults ≤ (O.account out.new).faults }
        ensures failed { OnErr result (Faulted (O.account out.old) (O.account out.new)) }
    {
        match write_all(out, self.world.written()) {
            Err(fault) => Err(fault),
            Ok(()) => {
                self.world.clear_written();
                Ok(())
            }
        }
    }

    /// What was written goes to the sink where it is much.
    fn drain<O: Sink>(&mut self, out: &mut O) -> Result<(), WriteFault>
        ensures drained { OnOk result (Drained (TookAll (O.account out.old) (O.account out.new)) self.old self.new) }
        ensures front { OnErr result (TookFront (O.account out.old) (O.account out.new) self.old.world.out) }
        ensures rises { (O.account out.old).faults ≤ (O.account out.new).faults }
        ensures failed { OnErr result (Faulted (O.account out.old) (O.account out.new)) }
    {
        if self.world.written().len() < PIECE {
            return Ok(());
        }
        match self.flush(out) {
            Err(fault) => Err(fault),
            Ok(()) => Ok(()),
        }
    }

    /// An answer, once what was written has gone to the sink.
    fn finish<O: Sink>(&mut self, answer: Eval, out: &mut O) -> Eval
        requires { answer ≢ Eval.WriteFault }
        ensures told { Finished answer result (TookAll (O.account out.old) (O.account out.new) self.old.world.out) (TookFront (O.account out.old) (O.account out.new) self.old.world.out) }
        ensures rises { (O.account out.old).faults ≤ (O.account out.new).faults }
        ensures failed { result ≡ Eval.WriteFault → Faulted (O.account out.old) (O.account out.new) }
    {
        match self.flush(out) {
            Err(WriteFault) => Eval::WriteFault,
            Ok(()) => answer,
        }
    }

    /// All that is left to do; what is written goes to the sink.
    fn run<O: Sink>(&mut self, laid: &LaidProgram<'a>, out: &mut O) -> Eval
        requires sensible { Sensible (left laid.now self.old) }
        ensures told { Evaluated result (outcome (left laid.now self.old)) (TookAll (O.account out.old) (O.account out.new)) (TookFront (O.account out.old) (O.account out.new)) }
        ensures rises { (O.account out.old).faults ≤ (O.account out.new).faults }
        ensures failed { result ≡ Eval.WriteFault → Faulted (O.account out.old) (O.account out.new) }
    {
        'turns: loop {
            match self.until_spent(laid) {
                Err(stop) => match stop {
                    Stop::NoMemory => return Eval::Memory,
                    _ => return self.finish(answer_of(stop), out),
                },
                Ok(done) => {
                    if done {
                        return self.finish(Eval::Ended, out);
                    }
                    match self.drain(out) {
                        Err(WriteFault) => return Eval::WriteFault,
                        Ok(()) => {}
                    }
                }
            }
        }
    }
}

/// No call runs.
fn no_call(alloc: Global, turns: u64) -> Active
    ensures { result ≡ active_of turns 0 }
{
    Active {
        fuel: turns,
        procedure: 0,
        frame: 0,
        arguments: Items::new(alloc),
    }
}

/// A module's body is done before what is there.
fn add_body<'a>(
    alloc: Global,
    laid: &LaidProgram<'a>,
    tasks: &mut Stack<Task<'a>>,
    first: &Module,
    turns: u64,
) -> Result<(), Memory>
    ensures { OnOk result ((x : Active) (vs : List Handed) (s : State Store) → rest laid.now tasks.new x vs s ≡ body_before laid.now turns first.now.body (rest laid.now tasks.old) vs s) }
{
    match laid.procedure(first.body) {
        None => Err(Memory),
        Some(procedure) => {
            tasks.push(Task::PerformAll(procedure.body.as_slice(), false))?;
            tasks.push(Task::Resume(Active {
                fuel: turns,
                procedure: first.body,
                frame: 0,
                arguments: Items::new(alloc),
            }))?;
            Ok(())
        }
    }
}

/// The bodies of all modules, the first one first.
fn all_bodies<'a>(
    alloc: Global,
    laid: &LaidProgram<'a>,
    turns: u64,
) -> Result<Stack<Task<'a>>, Memory>
    ensures { IfOk result (λ tasks. DoBodies laid.now turns tasks laid.now.modules) }
{
    let modules = laid.program().modules.as_slice();
    let mut tasks = Stack::new(alloc);
    let mut i = modules.len();
    'modules: while i > 0 {
        i -= 1;
        add_body(alloc, laid, &mut tasks, &modules[i], turns)?;
    }
    Ok(tasks)
}

/// The machine before the first module's body.
fn started<'a>(
    alloc: Global,
    laid: &LaidProgram<'a>,
    input: &[u8],
    turns: u64,
) -> Result<Machine<'a>, Memory>
    ensures { IfOk result (λ m. left laid.now m ≡ bodies laid.now turns laid.now.modules (record { store = start laid.now input.now; out = []; turns = turns })) }
{
    let tasks = all_bodies(alloc, laid, turns)?;
    let globals = laid.first_globals(alloc)?;
    let strings = laid.first_strings(alloc)?;
    let bytes = Vec::from_slice(alloc, input)?;
    Ok(Machine {
        tasks,
        values: Stack::new(alloc),
        active: no_call(alloc, turns),
        world: World::new(alloc, globals, strings, bytes, turns),
    })
}

/// What a well-formed program means on an input with so many turns. Calls and open constructs stand on the heap; what is
/// written goes to the sink in pieces, and the rest of it before the answer.
pub fn eval<O: Sink>(
    alloc: Global,
    program: &Program,
    input: &[u8],
    turns: u64,
    out: &mut O,
) -> Eval
    requires { well_formed program.now ≡ true }
    ensures told { Evaluated result (meaning program.now input.now turns) (TookAll (O.account out.old) (O.account out.new)) (TookFront (O.account out.old) (O.account out.new)) }
    ensures rises { (O.account out.old).faults ≤ (O.account out.new).faults }
    ensures failed { result ≡ Eval.WriteFault → Faulted (O.account out.old) (O.account out.new) }
{
    let Ok(laid) = LaidProgram::new(alloc, program) else {
        return Eval::Memory;
    };
    match started(alloc, &laid, input, turns) {
        Err(Memory) => Eval::Memory,
        Ok(machine) => {
            let mut going = machine;
            going.run(&laid, out)
        }
    }
}
