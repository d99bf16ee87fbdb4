//! IF, WHILE and CASE.

ghost use Rattle.std.specs.Prelude.{◌≡◌, ◌<◌, ℕ, IfSome};
ghost use Rattle.run_laws.specs.Turns.{State};
ghost use Rattle.ob_types.specs.Store.{Store, Here};
ghost use Rattle.ob_types.specs.Operators.{label_has, labels_have};
ghost use Rattle.ob_types.specs.Expressions.{Calls};
ghost use Rattle.ob_types.specs.Meaning.{effects_of};
ghost use Rattle.ob_types.specs.declared.program.Program.{Program};
ghost use Rattle.eval_at_once.specs.Lists.{case_parts_by, type_parts_by};
ghost use Rattle.eval_tasks.specs.Weights.{all_statements as weight_of_all, all_case_parts as weight_of_cases, all_type_parts as weight_of_types};
ghost use Rattle.ob_eval.specs.Parts.{PartOf};

use crate::machine::Machine;
use eval_at_once::{Choice, choose, perform_some};
use eval_layouts::LaidProgram;
use eval_store::{Cell, Stop, is_of};
use eval_tasks::{Act, Branching, Task, Typing};
use ob_types::{Branch, CasePart, Label, Stmt, TypePart, Types};

/// As many rounds of WHILE go on before a task is left for the others.
const ROUNDS: u64 = 4096;

/// A label has a number.
fn has_number(label: &Label, v: u64) -> bool
    ensures { result ≡ label_has v label.now }
{
    match label {
        Label::One(n) => v == n.cast_unsigned(),
        Label::Range(low, high) => *low <= v.cast_signed() && v.cast_signed() <= *high,
    }
}

/// Some label has a number.
fn has_label(labels: &[Label], v: u64) -> bool
    ensures { result ≡ labels_have v labels.now }
{
    let mut rest = labels;
    'labels: while let Some((first, more)) = rest.split_first() {
        if has_number(first, v) {
            return true;
        }
        rest = more;
    }
    false
}

/// The first part of CASE that has a number.
fn case_part<'a>(parts: &'a [CasePart], v: u64) -> Option<&'a [Stmt]>
    ensures part { (p : Program) (calls : Calls) (here : Here) (fuel : ℕ) (s : State Store) → PartOf (effects_of p calls here fuel) (case_parts_by p calls here fuel v parts.now) result s }
    ensures lighter { IfSome result (λ body. weight_of_all body.now < weight_of_cases parts.now) }
{
    let mut rest = parts;
    'parts: while let Some((first, more)) = rest.split_first() {
        if has_label(first.labels.as_slice(), v) {
            return Some(first.body.as_slice());
        }
        rest = more;
    }
    None
}

/// The first part of CASE whose record type a dynamic type is or extends.
fn type_part<'a>(types: &Types, parts: &'a [TypePart], found: Option<u32>) -> Option<&'a [Stmt]>
    ensures part { (p : Program) (calls : Calls) (here : Here) (fuel : ℕ) (s : State Store) → p.types ≡ types.now
        → PartOf (effects_of p calls here fuel) (type_parts_by p calls here fuel found parts.now) result s }
    ensures lighter { IfSome result (λ body. weight_of_all body.now < weight_of_types parts.now) }
{
    let mut rest = parts;
    'parts: while let Some((first, more)) = rest.split_first() {
        if is_of(types, found, first.record) {
            return Some(first.body.as_slice());
        }
        rest = more;
    }
    None
}

impl<'a> Machine<'a> {
    ghost use Rattle.std.specs.Prelude.{◌≡◌, ◌+◌, ◌∷◌, suc};
    ghost use Rattle.eval_tasks.specs.Tasks.{performs, branching, cases, typing};
    ghost use Rattle.eval_tasks.specs.Weights.{of_statement, all_statements, all_branches, of_branching, all_case_parts, all_type_parts};
    ghost use Rattle.ob_eval.specs.Steps.{before, Went, Falls};
    ghost use Rattle.ob_eval.specs.Parts.{if_goes, types_go};

    /// IF: the branch that is chosen, or the tasks that choose it.
    pub fn begin_if(
        &mut self,
        laid: &LaidProgram,
        branches: &'a [Branch],
        other: &'a [Stmt],
    ) -> Result<(), Stop>
        ensures went { Went laid.now (before laid.now (if_goes laid.now branches.now other.now) self.old) result self.new }
        ensures falls { Falls (2 + (all_branches branches.now + all_statements other.now)) self.old result self.new }
    {
        match choose(laid, &self.active, &self.world, branches) {
            Err(stop) => Err(stop),
            Ok(Choice::Body(body)) => {
                self.add(Task::PerformAll(body, false))?;
                Ok(())
            }
            Ok(Choice::Nothing) => {
                self.add(Task::PerformAll(other, false))?;
                Ok(())
            }
            Ok(Choice::Unknown) => {
                self.add(Task::PerformAll(other, true))?;
                self.add(Task::Branches(branches, Branching::Try))?;
                Ok(())
            }
        }
    }

    /// The first branch, if there is one.
    pub fn try_first(&mut self, laid: &LaidProgram, all: &'a [Branch]) -> Result<(), Stop>
        ensures went { Went laid.now (before laid.now (branching laid.now Branching.Try all.now) self.old) result self.new }
        ensures falls { Falls (all_branches all.now) self.old result self.new }
    {
        match all.split_first() {
            None => {
                self.give(Cell::bits(0))?;
                Ok(())
            }
            Some((first, _)) => {
                self.add(Task::Branches(all, Branching::Chosen))?;
                self.add(Task::Evaluate(&first.condition.form))?;
                Ok(())
            }
        }
    }

    /// A branch where the last value holds, else those behind it.
    pub fn chosen(&mut self, laid: &LaidProgram, all: &'a [Branch]) -> Result<(), Stop>
        ensures went { Went laid.now (before laid.now (branching laid.now Branching.Chosen all.now) self.old) result self.new }
        ensures falls { Falls (of_branching Branching.Chosen all.now) self.old result self.new }
    {
        match all.split_first() {
            None => return Err(Stop::NoMemory),
            Some((first, rest)) => return self.choose_first(laid, first, rest),
        }
    }

    /// The first branch's body where its condition holds, else the other branches.
    fn choose_first(
        &mut self,
        laid: &LaidProgram,
        first: &'a Branch,
        rest: &'a [Branch],
    ) -> Result<(), Stop>
        ensures went { Went laid.now (before laid.now (branching laid.now Branching.Chosen (first.now ∷ rest.now)) self.old) result self.new }
        ensures falls { Falls (of_branching Branching.Chosen (first.now ∷ rest.now)) self.old result self.new }
    {
        match self.take_number() {
            Err(stop) => Err(stop),
            Ok(a) => {
                if a == 0 {
                    self.add(Task::Branches(rest, Branching::Try))?;
                    return Ok(());
                }
                self.add(Task::Do(Act::Yes))?;
                self.add(Task::PerformAll(first.body.as_slice(), false))?;
                Ok(())
            }
        }
    }

    /// Rounds of WHILE, a turn each: as many as can be done at once, and tasks for the others.
    pub fn rounds(&mut self, laid: &LaidProgram, most: u64, all: &'a [Branch]) -> Result<(), Stop>
        ensures went { Went laid.now (before laid.now (branching laid.now (Branching.Rounds most) all.now) self.old) result self.new }
        ensures falls { Falls 1 self.old result self.new }
    {
        let mut n = most;
        let mut more = ROUNDS;
        'rounds: loop {
            if n == 0 {
                return Err(Stop::TurnsSpent);
            }
            match self.world.spend() {
                Err(stop) => return Err(stop),
                Ok(()) => {}
            }
            n -= 1;
            match choose(laid, &self.active, &self.world, all) {
                Err(stop) => return Err(stop),
                Ok(Choice::Nothing) => return Ok(()),
                Ok(Choice::Unknown) => {
                    self.add(Task::Branches(all, Branching::Again(n)))?;
                    self.add(Task::Branches(all, Branching::Try))?;
                    return Ok(());
                }
                Ok(Choice::Body(body)) => match perform_some(
                    laid,
                    &self.active,
                    &mut self.world,
                    body,
                ) {
                    Err(stop) => return Err(stop),
                    Ok(rest) => {
                        if more == 0 || !rest.is_empty() {
                            self.add(Task::Branches(all, Branching::Rounds(n)))?;
                            self.add(Task::PerformAll(rest, false))?;
                            return Ok(());
                        }
                        more -= 1;
                    }
                },
            }
        }
    }

    /// One more round where a branch was done.
    pub fn again(&mut self, laid: &LaidProgram, n: u64, all: &'a [Branch]) -> Result<(), Stop>
        ensures went { Went laid.now (before laid.now (branching laid.now (Branching.Again n) all.now) self.old) result self.new }
        ensures falls { Falls 2 self.old result self.new }
    {
        match self.take_number() {
            Err(stop) => Err(stop),
            Ok(a) => {
                if a == 0 {
                    return Ok(());
                }
                self.add(Task::Branches(all, Branching::Rounds(n)))?;
                Ok(())
            }
        }
    }

    /// CASE on the last value, a number.
    pub fn case(&mut self, laid: &LaidProgram, parts: &'a [CasePart]) -> Result<(), Stop>
        ensures went { Went laid.now (before laid.now (cases laid.now parts.now) self.old) result self.new }
        ensures falls { Falls (all_case_parts parts.now) self.old result self.new }
    {
        match self.take_number() {
            Err(stop) => Err(stop),
            Ok(v) => match case_part(parts, v) {
                None => Err(Stop::Trapped(6, self.active.procedure)),
                Some(body) => {
                    self.add(Task::PerformAll(body, false))?;
                    Ok(())
                }
            },
        }
    }

    /// CASE on the type of the last value.
    pub fn case_type(
        &mut self,
        laid: &LaidProgram,
        parts: &'a [TypePart],
        by: Typing,
    ) -> Result<(), Stop>
        ensures went { Went laid.now (before laid.now (typing laid.now by parts.now) self.old) result self.new }
        ensures falls { Falls (suc (all_type_parts parts.now)) self.old result self.new }
    {
        match by {
            Typing::OfPointer => match self.take_cell() {
                Err(stop) => Err(stop),
                Ok(c) => match self.world.pointer_type(c) {
                    Err(stop) => Err(stop),
                    Ok(found) => return self.part_of(laid, parts, found),
                },
            },
            Typing::OfParameter => match self.take() {
                Err(stop) => Err(stop),
                Ok(handed) => match self.world.parameter_type(handed) {
                    Err(stop) => Err(stop),
                    Ok(found) => return self.part_of(laid, parts, found),
                },
            },
        }
    }

    /// The part for a dynamic type, where there is one.
    fn part_of(
        &mut self,
        laid: &LaidProgram,
        parts: &'a [TypePart],
        found: Option<u32>,
    ) -> Result<(), Stop>
        ensures went { Went laid.now (before laid.now (types_go laid.now found parts.now) self.old) result self.new }
        ensures falls { Falls (all_type_parts parts.now) self.old result self.new }
    {
        match type_part(laid.types(), parts, found) {
            None => Ok(()),
            Some(body) => {
                self.add(Task::PerformAll(body, false))?;
                Ok(())
            }
        }
    }
}
