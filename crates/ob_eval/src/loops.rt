//! REPEAT and FOR.

use crate::machine::Machine;
use eval_at_once::test;
use eval_layouts::LaidProgram;
use eval_store::{Address, Cell, Handed, HandedForm, Stop};
use eval_tasks::{Stage, Task};
use ob_types::{Checked, ForLoop, Stmt};

/// What FOR keeps through its rounds: its limit, and the address of its variable.
#[derive(Clone, Copy)]
pub struct Limit {
    pub value: u64,
    pub variable: Address,
}

ghost use Rattle.std.specs.Prelude.{◌≡◌};
ghost use Rattle.ob_types.specs.Statements.{at_limit as at_the_limit};

/// The test of FOR.
fn at_limit(step: i64, v: u64, limit: u64) -> bool
    ensures { result ≡ at_the_limit step v limit }
{
    if step > 0 {
        v.cast_signed() <= limit.cast_signed()
    } else {
        limit.cast_signed() <= v.cast_signed()
    }
}

impl<'a> Machine<'a> {
    ghost use Rattle.std.specs.Prelude.{◌≡◌, ◌+◌, List, OnOk, IfErr};
    ghost use Rattle.ob_types.specs.declared.tree.Expr.{Expr as TheExpr};
    ghost use Rattle.ob_types.specs.declared.statements.Stmt.{Stmt as TheStmt};
    ghost use Rattle.eval_tasks.specs.Tasks.{staged};
    ghost use Rattle.eval_tasks.specs.Weights.{of_staged, all_statements};
    ghost use Rattle.ob_eval.specs.Steps.{before, Went, Falls};
    ghost use Rattle.ob_eval.specs.Parts.{IsFor, IsRepeat};
    ghost use Rattle.ob_eval.specs.Limits.{with_limit, TookLimit};

    /// The limit and the address, which stand last.
    fn take_limit(&mut self) -> Result<Limit, Stop>
        ensures { TookLimit self.old result self.new }
    {
        match self.take_number() {
            Err(stop) => Err(stop),
            Ok(value) => match self.take() {
                Err(stop) => Err(stop),
                Ok(handed) => match handed.alone() {
                    Some(variable) => Ok(Limit { value, variable }),
                    None => Err(Stop::NoSense),
                },
            },
        }
    }

    /// The limit and the address stay.
    fn keep_limit(&mut self, limit: Limit) -> Result<(), Stop>
        ensures ok { OnOk result (self.new ≡ with_limit limit self.old) }
        ensures err { IfErr result (λ e. e ≡ Stop.NoMemory) }
    {
        self.hand(Handed::at(limit.variable))?;
        self.give(Cell::bits(limit.value))?;
        Ok(())
    }

    /// A round of FOR: its turn, its test and its body.
    fn for_round(
        &mut self,
        laid: &LaidProgram,
        n: u64,
        statement: &'a Stmt,
        step: i64,
        body: &'a [Stmt],
    ) -> Result<(), Stop>
        requires is { IsFor laid.now statement.now step body.now }
        ensures went { Went laid.now (before laid.now (staged laid.now (Stage.Rounds n) statement.now) self.old) result self.new }
        ensures falls { Falls 1 self.old result self.new }
    {
        let limit = match self.take_limit() {
            Err(stop) => return Err(stop),
            Ok(kept) => kept,
        };
        if n == 0 {
            return Err(Stop::TurnsSpent);
        }
        match self.world.spend() {
            Err(stop) => return Err(stop),
            Ok(()) => {}
        }
        match self.world.fetch(limit.variable) {
            Err(stop) => Err(stop),
            Ok(c) => match c.number() {
                None => Err(Stop::NoSense),
                Some(v) => {
                    if !at_limit(step, v, limit.value) {
                        return Ok(());
                    }
                    self.keep_limit(limit)?;
                    self.add(Task::Perform(statement, Stage::Behind(n - 1)))?;
                    self.add(Task::PerformAll(body, false))?;
                    Ok(())
                }
            },
        }
    }

    /// FOR behind a round's body: the step.
    fn for_step(
        &mut self,
        laid: &LaidProgram,
        n: u64,
        statement: &'a Stmt,
        step: i64,
    ) -> Result<(), Stop>
        requires is { (body : List TheStmt) × IsFor laid.now statement.now step body }
        ensures went { Went laid.now (before laid.now (staged laid.now (Stage.Behind n) statement.now) self.old) result self.new }
        ensures falls { Falls 2 self.old result self.new }
    {
        let limit = match self.take_limit() {
            Err(stop) => return Err(stop),
            Ok(kept) => kept,
        };
        match self.world.fetch(limit.variable) {
            Err(stop) => Err(stop),
            Ok(c) => match c.number() {
                None => Err(Stop::NoSense),
                Some(v) => match self.world.put(
                    limit.variable,
                    Cell::bits(v.wrapping_add(step.cast_unsigned())),
                ) {
                    Err(stop) => Err(stop),
                    Ok(()) => {
                        self.keep_limit(limit)?;
                        self.add(Task::Perform(statement, Stage::Rounds(n)))?;
                        Ok(())
                    }
                },
            },
        }
    }

    /// A round of REPEAT: its turn and its condition.
    fn repeat_round(
        &mut self,
        laid: &LaidProgram,
        n: u64,
        statement: &'a Stmt,
        body: &'a [Stmt],
        condition: &'a Checked,
    ) -> Result<(), Stop>
        requires is { IsRepeat laid.now statement.now body.now condition.now.form }
        ensures went { Went laid.now (before laid.now (staged laid.now (Stage.Rounds n) statement.now) self.old) result self.new }
        ensures falls { Falls 1 self.old result self.new }
    {
        if n == 0 {
            return Err(Stop::TurnsSpent);
        }
        match self.world.spend() {
            Err(stop) => Err(stop),
            Ok(()) => match test(laid, &self.active, &self.world, &condition.form) {
                Err(stop) => Err(stop),
                Ok(None) => {
                    self.add(Task::Perform(statement, Stage::Behind(n - 1)))?;
                    self.add(Task::Evaluate(&condition.form))?;
                    Ok(())
                }
                Ok(Some(ends)) => {
                    if ends {
                        return Ok(());
                    }
                    self.add(Task::Perform(statement, Stage::Rounds(n - 1)))?;
                    self.add(Task::PerformAll(body, false))?;
                    Ok(())
                }
            },
        }
    }

    /// REPEAT behind its condition.
    fn repeat_again(
        &mut self,
        laid: &LaidProgram,
        n: u64,
        statement: &'a Stmt,
        body: &'a [Stmt],
    ) -> Result<(), Stop>
        requires is { (y : TheExpr) × IsRepeat laid.now statement.now body.now y }
        ensures went { Went laid.now (before laid.now (staged laid.now (Stage.Behind n) statement.now) self.old) result self.new }
        ensures falls { Falls (2 + all_statements body.now) self.old result self.new }
    {
        match self.take_number() {
            Err(stop) => Err(stop),
            Ok(a) => {
                if a == 0 {
                    self.add(Task::Perform(statement, Stage::Rounds(n)))?;
                    self.add(Task::PerformAll(body, false))?;
                    return Ok(());
                }
                Ok(())
            }
        }
    }

    /// A statement from a stage on.
    pub fn go_on(
        &mut self,
        laid: &LaidProgram,
        statement: &'a Stmt,
        stage: Stage,
    ) -> Result<(), Stop>
        ensures went { Went laid.now (before laid.now (staged laid.now stage statement.now) self.old) result self.new }
        ensures falls { Falls (of_staged stage statement.now) self.old result self.new }
    {
        match stage {
            Stage::Begin => return self.perform(laid, statement),
            Stage::Rounds(n) => match statement {
                Stmt::Repeat(body, condition) => return self.repeat_round(
                    laid, n, statement, body, condition,
                ),
                Stmt::For(f) => {
                    let it: &'a ForLoop = f;
                    return self.for_round(laid, n, statement, it.step, it.body.as_slice());
                }
                _ => Err(Stop::NoMemory),
            },
            Stage::Behind(n) => match statement {
                Stmt::Repeat(body, _) => return self.repeat_again(laid, n, statement, body),
                Stmt::For(f) => {
                    let it: &'a ForLoop = f;
                    return self.for_step(laid, n, statement, it.step);
                }
                _ => Err(Stop::NoMemory),
            },
        }
    }
}
