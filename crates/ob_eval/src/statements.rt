//! Statements.

use crate::machine::Machine;
use eval_at_once::{
    element_kind, is_byte, kind_in, length_of_kind, perform, perform_some, record_of_kind,
};
use eval_layouts::LaidProgram;
use eval_store::{Cell, Stop};
use eval_tasks::{Act, Branching, Stage, Task, Typing};
use ob_types::{Binary, ForLoop, Stmt};

impl<'a> Machine<'a> {
    ghost use Rattle.std.specs.Prelude.{◌≡◌, ◌∷◌, suc};
    ghost use Rattle.eval_tasks.specs.Tasks.{performs, performs_all, otherwise_all};
    ghost use Rattle.eval_tasks.specs.Weights.{of_statement, all_statements};
    ghost use Rattle.ob_eval.specs.Steps.{before, Went, Falls};

    /// Statements, one after the other: the first ones at once, and tasks for the others.
    pub fn perform_all(&mut self, laid: &LaidProgram, all: &'a [Stmt]) -> Result<(), Stop>
        ensures went { Went laid.now (before laid.now (performs_all laid.now all.now) self.old) result self.new }
        ensures falls { Falls (all_statements all.now) self.old result self.new }
    {
        match perform_some(laid, &self.active, &mut self.world, all) {
            Err(stop) => Err(stop),
            Ok(rest) => match rest.split_first() {
                None => Ok(()),
                Some((first, more)) => return self.perform_first(laid, first, more),
            },
        }
    }

    /// A statement that can't be done at once, and those behind it.
    fn perform_first(
        &mut self,
        laid: &LaidProgram,
        first: &'a Stmt,
        more: &'a [Stmt],
    ) -> Result<(), Stop>
        ensures went { Went laid.now (before laid.now (performs_all laid.now (first.now ∷ more.now)) self.old) result self.new }
        ensures falls { Falls (all_statements (first.now ∷ more.now)) self.old result self.new }
    {
        self.add(Task::PerformAll(more, false))?;
        return self.begin(laid, first);
    }

    /// A statement at once, or its tasks.
    pub fn perform(&mut self, laid: &LaidProgram, statement: &'a Stmt) -> Result<(), Stop>
        ensures went { Went laid.now (before laid.now (performs laid.now statement.now) self.old) result self.new }
        ensures falls { Falls (of_statement statement.now) self.old result self.new }
    {
        match perform(laid, &self.active, &mut self.world, statement) {
            Err(stop) => Err(stop),
            Ok(done) => {
                if done {
                    return Ok(());
                }
                return self.begin(laid, statement);
            }
        }
    }

    /// A statement's tasks.
    fn begin(&mut self, laid: &LaidProgram, statement: &'a Stmt) -> Result<(), Stop>
        ensures went { Went laid.now (before laid.now (performs laid.now statement.now) self.old) result self.new }
        ensures falls { Falls (of_statement statement.now) self.old result self.new }
    {
        match statement {
            Stmt::Call(call) => return self.reach(laid, call, false),
            Stmt::If(branches, other) => return self.begin_if(laid, branches, other),
            Stmt::While(branches) => {
                self.add(Task::Branches(branches, Branching::Rounds(self.active.fuel)))?;
                Ok(())
            }
            Stmt::Repeat(body, _) => {
                self.add(Task::Perform(statement, Stage::Rounds(self.active.fuel)))?;
                self.add(Task::PerformAll(body, false))?;
                Ok(())
            }
            Stmt::For(f) => {
                let it: &'a ForLoop = f;
                self.add(Task::Perform(statement, Stage::Rounds(self.active.fuel)))?;
                self.add(Task::Do(Act::Number))?;
                self.add(Task::Evaluate(&it.limit.form))?;
                self.add(Task::Do(Act::PutFirst))?;
                self.add(Task::Evaluate(&it.first.form))?;
                self.add(Task::Do(Act::AsPlace))?;
                self.add(Task::Locate(&it.variable))?;
                Ok(())
            }
            Stmt::Case(x, parts) => {
                self.add(Task::Cases(parts))?;
                self.add(Task::Evaluate(&x.form))?;
                Ok(())
            }
            Stmt::CasePointer(x, parts) => {
                self.add(Task::Types(parts, Typing::OfPointer))?;
                self.add(Task::Evaluate(&x.form))?;
                Ok(())
            }
            Stmt::CaseParameter(d, parts) => {
                self.add(Task::Types(parts, Typing::OfParameter))?;
                self.add(Task::Locate(d))?;
                Ok(())
            }
            _ => return self.begin_change(laid, statement),
        }
    }

    /// The tasks of an assignment, INC, DEC, INCL or EXCL.
    fn begin_change(&mut self, laid: &LaidProgram, statement: &'a Stmt) -> Result<(), Stop>
        ensures went { Went laid.now (before laid.now (performs laid.now statement.now) self.old) result self.new }
        ensures falls { Falls (of_statement statement.now) self.old result self.new }
    {
        match statement {
            Stmt::Assign(d, x) => {
                self.add(Task::Do(Act::Put))?;
                self.add(Task::Evaluate(&x.form))?;
                self.add(Task::Do(Act::AsPlace))?;
                self.add(Task::Locate(d))?;
                Ok(())
            }
            Stmt::CopyArray(d, e) => {
                let Some(cells) = laid.cells(element_kind(kind_in(d))) else {
                    return Err(Stop::NoMemory);
                };
                self.add(Task::Do(Act::CopyArray(cells)))?;
                self.add(Task::Do(Act::AsSpan(length_of_kind(kind_in(e)))))?;
                self.add(Task::Locate(e))?;
                self.add(Task::Do(Act::AsSpan(length_of_kind(kind_in(d)))))?;
                self.add(Task::Locate(d))?;
                Ok(())
            }
            Stmt::CopyRecord(d, e) => {
                let Some(cells) = laid.record_cells(record_of_kind(kind_in(d))) else {
                    return Err(Stop::NoMemory);
                };
                self.add(Task::Do(Act::CopyRecord(cells)))?;
                self.add(Task::Do(Act::AsPlace))?;
                self.add(Task::Locate(e))?;
                self.add(Task::Do(Act::AsPlace))?;
                self.add(Task::Locate(d))?;
                Ok(())
            }
            Stmt::Increase(d, x) => {
                self.add(Task::Do(Act::ChangeNumber(Binary::Add, is_byte(kind_in(d)))))?;
                self.add(Task::Evaluate(&x.form))?;
                self.add(Task::Do(Act::AsPlace))?;
                self.add(Task::Locate(d))?;
                Ok(())
            }
            Stmt::Decrease(d, x) => {
                self.add(Task::Do(Act::ChangeNumber(Binary::Subtract, is_byte(kind_in(d)))))?;
                self.add(Task::Evaluate(&x.form))?;
                self.add(Task::Do(Act::AsPlace))?;
                self.add(Task::Locate(d))?;
                Ok(())
            }
            Stmt::Include(d, x) => {
                self.add(Task::Do(Act::ChangeSet(Binary::Union)))?;
                self.add(Task::Evaluate(&x.form))?;
                self.add(Task::Do(Act::AsPlace))?;
                self.add(Task::Locate(d))?;
                Ok(())
            }
            Stmt::Exclude(d, x) => {
                self.add(Task::Do(Act::ChangeSet(Binary::Difference)))?;
                self.add(Task::Evaluate(&x.form))?;
                self.add(Task::Do(Act::AsPlace))?;
                self.add(Task::Locate(d))?;
                Ok(())
            }
            _ => return self.begin_standard(laid, statement),
        }
    }

    /// The tasks of NEW, ASSERT, or a procedure of Out or In; no other statement is left here.
    fn begin_standard(&mut self, laid: &LaidProgram, statement: &'a Stmt) -> Result<(), Stop>
        ensures went { Went laid.now (before laid.now (performs laid.now statement.now) self.old) result self.new }
        ensures falls { Falls (of_statement statement.now) self.old result self.new }
    {
        match statement {
            Stmt::New(d) => {
                self.add(Task::Do(Act::Make(record_of_kind(kind_in(d)))))?;
                self.add(Task::Locate(d))?;
                Ok(())
            }
            Stmt::Assert(x) => {
                self.add(Task::Do(Act::Assert))?;
                self.add(Task::Evaluate(&x.form))?;
                Ok(())
            }
            Stmt::OutChar(x) => {
                self.add(Task::Do(Act::OutChar))?;
                self.add(Task::Evaluate(&x.form))?;
                Ok(())
            }
            Stmt::OutInt(x, width) => {
                self.add(Task::Do(Act::OutInt))?;
                self.add(Task::Evaluate(&width.form))?;
                self.add(Task::Do(Act::Number))?;
                self.add(Task::Evaluate(&x.form))?;
                Ok(())
            }
            Stmt::OutString(d) => {
                self.add(Task::Do(Act::OutString))?;
                self.add(Task::Do(Act::AsSpan(length_of_kind(kind_in(d)))))?;
                self.add(Task::Locate(d))?;
                Ok(())
            }
            Stmt::OutLn => {
                self.give(Cell::bits(10))?;
                self.add(Task::Do(Act::OutChar))?;
                Ok(())
            }
            Stmt::InChar(d) => {
                self.add(Task::Do(Act::InChar))?;
                self.add(Task::Locate(d))?;
                Ok(())
            }
            _ => Err(Stop::NoMemory),
        }
    }

    /// Statements, unless the last value holds.
    pub fn otherwise(&mut self, laid: &LaidProgram, all: &'a [Stmt]) -> Result<(), Stop>
        ensures went { Went laid.now (before laid.now (otherwise_all laid.now all.now) self.old) result self.new }
        ensures falls { Falls (suc (all_statements all.now)) self.old result self.new }
    {
        match self.take_number() {
            Err(stop) => Err(stop),
            Ok(a) => {
                if a == 0 {
                    self.add(Task::PerformAll(all, false))?;
                    return Ok(());
                }
                Ok(())
            }
        }
    }
}
