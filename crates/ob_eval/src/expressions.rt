//! Expressions and designators.

use crate::machine::Machine;
use eval_at_once::{base, dereferenced, kind_in, known, length_of_kind, located, member, value};
use eval_layouts::LaidProgram;
use eval_store::{Cell, Handed, Stop};
use eval_tasks::{Act, Task};
use ob_types::{Designator, Expr, Link, Selector};

impl<'a> Machine<'a> {
    ghost use Rattle.std.specs.Prelude.{◌≡◌, ◌∷◌, suc};
    ghost use Rattle.eval_tasks.specs.Tasks.{evaluates, follows, locates, selects};
    ghost use Rattle.eval_tasks.specs.Weights.{of_expr, of_designator, all_links, all_selectors};
    ghost use Rattle.ob_eval.specs.Steps.{before, Went, Falls, with_number, with_handed};

    /// An expression's value at once, or its tasks.
    pub fn value(&mut self, laid: &LaidProgram, e: &'a Expr) -> Result<(), Stop>
        ensures went { Went laid.now (before laid.now (evaluates laid.now e.now) self.old) result self.new }
        ensures falls { Falls (of_expr e.now) self.old result self.new }
    {
        match value(laid, &self.active, &self.world, e) {
            Err(stop) => Err(stop),
            Ok(None) => return self.evaluate(laid, e),
            Ok(Some(cell)) => {
                self.give(cell)?;
                Ok(())
            }
        }
    }

    /// An expression's tasks.
    fn evaluate(&mut self, laid: &LaidProgram, e: &'a Expr) -> Result<(), Stop>
        ensures went { Went laid.now (before laid.now (evaluates laid.now e.now) self.old) result self.new }
        ensures falls { Falls (of_expr e.now) self.old result self.new }
    {
        match e {
            Expr::Literal(n) => {
                self.give(Cell::bits(*n))?;
                Ok(())
            }
            Expr::Routine(g) => {
                self.give(Cell::code(*g))?;
                Ok(())
            }
            Expr::Load(d) => {
                self.add(Task::Do(Act::Fetch))?;
                self.add(Task::Locate(d))?;
                Ok(())
            }
            Expr::Guard(d, guards) => {
                self.add(Task::Guards(guards.as_slice()))?;
                self.add(Task::Do(Act::Fetch))?;
                self.add(Task::Locate(d))?;
                Ok(())
            }
            Expr::Unary(operator, x) => {
                self.add(Task::Do(Act::OneOperand(*operator)))?;
                self.add(Task::Evaluate(x))?;
                Ok(())
            }
            Expr::Chain(x, links) => {
                self.add(Task::Follow(links))?;
                self.add(Task::Evaluate(x))?;
                Ok(())
            }
            Expr::Compare(relation, x, y) => {
                self.add(Task::Do(Act::Compared(*relation)))?;
                self.add(Task::Evaluate(y))?;
                self.add(Task::Evaluate(x))?;
                Ok(())
            }
            Expr::Call(call) => return self.reach(laid, call, true),
            _ => return self.evaluate_test(laid, e),
        }
    }

    /// The tasks of IN, IS, a relation of texts, a BYTE or LEN; no other expression is left here.
    fn evaluate_test(&mut self, laid: &LaidProgram, e: &'a Expr) -> Result<(), Stop>
        ensures went { Went laid.now (before laid.now (evaluates laid.now e.now) self.old) result self.new }
        ensures falls { Falls (of_expr e.now) self.old result self.new }
    {
        match e {
            Expr::In(x, s) => {
                self.add(Task::Do(Act::Contained))?;
                self.add(Task::Evaluate(s))?;
                self.add(Task::Do(Act::Element))?;
                self.add(Task::Evaluate(x))?;
                Ok(())
            }
            Expr::CompareTexts(relation, d, f) => {
                self.add(Task::Do(Act::TextsCompared(*relation)))?;
                self.add(Task::Do(Act::AsSpan(length_of_kind(kind_in(f)))))?;
                self.add(Task::Locate(f))?;
                self.add(Task::Do(Act::AsSpan(length_of_kind(kind_in(d)))))?;
                self.add(Task::Locate(d))?;
                Ok(())
            }
            Expr::IsPointer(x, r) => {
                self.add(Task::Do(Act::PointerIs(*r)))?;
                self.add(Task::Evaluate(x))?;
                Ok(())
            }
            Expr::IsParameter(d, r) => {
                self.add(Task::Do(Act::ParameterIs(*r)))?;
                self.add(Task::Locate(d))?;
                Ok(())
            }
            Expr::Byte(x) => {
                self.add(Task::Do(Act::AsByte))?;
                self.add(Task::Evaluate(x))?;
                Ok(())
            }
            Expr::Length(d) => {
                self.add(Task::Do(Act::LengthOf(length_of_kind(kind_in(d)))))?;
                self.add(Task::Locate(d))?;
                Ok(())
            }
            _ => Err(Stop::NoMemory),
        }
    }

    /// The first link, if there is one.
    pub fn follow(&mut self, laid: &LaidProgram, links: &'a [Link]) -> Result<(), Stop>
        ensures went { Went laid.now (before laid.now (follows laid.now links.now) self.old) result self.new }
        ensures falls { Falls (all_links links.now) self.old result self.new }
    {
        match links.split_first() {
            None => match self.take_cell() {
                Err(stop) => Err(stop),
                Ok(cell) => {
                    self.give(cell)?;
                    Ok(())
                }
            },
            Some((first, rest)) => match self.take_number() {
                Err(stop) => Err(stop),
                Ok(a) => return self.link(laid, a, first, rest),
            },
        }
    }

    /// A link from a number on.
    fn link(
        &mut self,
        laid: &LaidProgram,
        a: u64,
        first: &'a Link,
        rest: &'a [Link],
    ) -> Result<(), Stop>
        ensures went { Went laid.now (before laid.now (follows laid.now (first.now ∷ rest.now)) (with_number a self.old)) result self.new }
        ensures falls { Falls (all_links (first.now ∷ rest.now)) self.old result self.new }
    {
        match first {
            Link::Operate(operator, y) => {
                self.give(Cell::bits(a))?;
                self.add(Task::Follow(rest))?;
                self.add(Task::Do(Act::TwoOperands(*operator)))?;
                self.add(Task::Evaluate(y))?;
                Ok(())
            }
            Link::And(y) => {
                self.add(Task::Follow(rest))?;
                if a == 0 {
                    self.give(Cell::bits(0))?;
                    return Ok(());
                }
                self.add(Task::Evaluate(y))?;
                Ok(())
            }
            Link::Or(y) => {
                self.add(Task::Follow(rest))?;
                if a == 0 {
                    self.add(Task::Evaluate(y))?;
                    return Ok(());
                }
                self.give(Cell::bits(1))?;
                Ok(())
            }
            Link::Element(y) => {
                self.give(Cell::bits(a))?;
                self.add(Task::Follow(rest))?;
                self.add(Task::Do(Act::WithElement))?;
                self.add(Task::Evaluate(y))?;
                Ok(())
            }
            Link::Elements(y, z) => {
                self.give(Cell::bits(a))?;
                self.add(Task::Follow(rest))?;
                self.add(Task::Do(Act::WithRange))?;
                self.add(Task::Evaluate(z))?;
                self.add(Task::Do(Act::Element))?;
                self.add(Task::Evaluate(y))?;
                Ok(())
            }
        }
    }

    /// What a designator names at once, or its tasks.
    pub fn locate(&mut self, laid: &LaidProgram, d: &'a Designator) -> Result<(), Stop>
        ensures went { Went laid.now (before laid.now (locates laid.now d.now) self.old) result self.new }
        ensures falls { Falls (of_designator d.now) self.old result self.new }
    {
        match located(laid, &self.active, &self.world, d) {
            Err(stop) => Err(stop),
            Ok(None) => return self.begin_at(laid, d),
            Ok(Some(handed)) => {
                self.hand(handed)?;
                Ok(())
            }
        }
    }

    /// Where a designator begins, and its selectors.
    fn begin_at(&mut self, laid: &LaidProgram, d: &'a Designator) -> Result<(), Stop>
        ensures went { Went laid.now (before laid.now (locates laid.now d.now) self.old) result self.new }
        ensures falls { Falls (of_designator d.now) self.old result self.new }
    {
        match d {
            Designator::Whole(at, _) => match base(laid, &self.active, &self.world, *at) {
                Err(stop) => Err(stop),
                Ok(handed) => {
                    self.hand(handed)?;
                    Ok(())
                }
            },
            Designator::Part(access) => match base(laid, &self.active, &self.world, access.base) {
                Err(stop) => Err(stop),
                Ok(handed) => {
                    self.hand(handed)?;
                    self.add(Task::Select(access.selectors.as_slice()))?;
                    Ok(())
                }
            },
        }
    }

    /// The first selector, if there is one.
    pub fn select(&mut self, laid: &LaidProgram, selectors: &'a [Selector]) -> Result<(), Stop>
        ensures went { Went laid.now (before laid.now (selects laid.now selectors.now) self.old) result self.new }
        ensures falls { Falls (all_selectors selectors.now) self.old result self.new }
    {
        match self.take() {
            Err(stop) => Err(stop),
            Ok(handed) => match selectors.split_first() {
                None => {
                    self.hand(handed)?;
                    Ok(())
                }
                Some((first, rest)) => return self.select_from(laid, handed, first, rest),
            },
        }
    }

    /// A selector from what was handed over.
    fn select_from(
        &mut self,
        laid: &LaidProgram,
        handed: Handed,
        first: &'a Selector,
        rest: &'a [Selector],
    ) -> Result<(), Stop>
        ensures went { Went laid.now (before laid.now (selects laid.now (first.now ∷ rest.now)) (with_handed handed self.old)) result self.new }
        ensures falls { Falls (all_selectors (first.now ∷ rest.now)) self.old result self.new }
    {
        match first {
            Selector::Index {
                length,
                element,
                index,
            } => match self.world.as_span(handed, known(*length)) {
                Err(stop) => Err(stop),
                Ok(array) => match laid.cells(*element) {
                    None => Err(Stop::NoMemory),
                    Some(cells) => {
                        self.hand(array)?;
                        self.add(Task::Select(rest))?;
                        self.add(Task::Do(Act::ElementOf(cells)))?;
                        self.add(Task::Evaluate(index))?;
                        Ok(())
                    }
                },
            },
            Selector::Field { record, field } => match member(
                laid,
                &self.world,
                handed,
                *record,
                *field,
            ) {
                Err(stop) => Err(stop),
                Ok(next) => return self.select_on(laid, next, rest),
            },
            Selector::Dereference(guards) => match dereferenced(
                laid,
                &self.active,
                &self.world,
                handed,
                guards.as_slice(),
            ) {
                Err(stop) => Err(stop),
                Ok(next) => return self.select_on(laid, next, rest),
            },
            Selector::Narrow(r) => match self
                .world
                .narrowed(laid.types(), self.active.procedure, handed, *r)
            {
                Err(stop) => Err(stop),
                Ok(next) => return self.select_on(laid, next, rest),
            },
        }
    }

    /// Selectors from what is handed over.
    fn select_on(
        &mut self,
        laid: &LaidProgram,
        handed: Handed,
        rest: &'a [Selector],
    ) -> Result<(), Stop>
        ensures went { Went laid.now (before laid.now (selects laid.now rest.now) (with_handed handed self.old)) result self.new }
        ensures falls { Falls (suc (all_selectors rest.now)) self.old result self.new }
    {
        self.hand(handed)?;
        self.add(Task::Select(rest))?;
        Ok(())
    }
}
