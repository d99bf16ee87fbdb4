//! Expressions and designators without calls.

ghost use Rattle.run_laws.specs.Turns.{give};
ghost use Rattle.ob_types.specs.Expressions.{load, compared, contained};
ghost use Rattle.ob_types.specs.Meaning.{link as the_link, select as the_select, at_most};
ghost use Rattle.eval_store.specs.Did.{AtOnce};
ghost use Rattle.eval_at_once.specs.Here.{here_of, value_in, handed_in, guarded_in};
ghost use Rattle.eval_at_once.specs.Lists.{linked_by, selected_by};

use crate::active::Active;
use crate::kinds::{kind_in, known, length_of_kind};
use crate::places::{base, dereferenced, member};
use eval_layouts::LaidProgram;
use eval_store::{Cell, Handed, Stop, World};
use ob_operators::elements;
use ob_types::{Designator, Expr, Link, Relation, Selector};

/// The value of an expression; none where it has a call, or is none of the small ones.
#[cycle(at_once)]
pub fn value(
    laid: &LaidProgram,
    active: &Active,
    world: &World,
    e: &Expr,
) -> Result<Option<Cell>, Stop>
    ensures { AtOnce (value_in laid.now active.now e.now world.now) result world.now }
{
    match e {
        Expr::Literal(n) => Ok(Some(Cell::bits(*n))),
        Expr::Routine(g) => Ok(Some(Cell::code(*g))),
        Expr::Load(d) => loaded(laid, active, world, d),
        Expr::Guard(d, guards) => guarded(laid, active, world, d, guards.as_slice()),
        Expr::Unary(operator, x) => match value(laid, active, world, x) {
            Err(stop) => Err(stop),
            Ok(None) => Ok(None),
            Ok(Some(c)) => match world.one_operand(*operator, c) {
                Err(stop) => Err(stop),
                Ok(d) => Ok(Some(d)),
            },
        },
        Expr::Chain(x, links) => match value(laid, active, world, x) {
            Err(stop) => Err(stop),
            Ok(None) => Ok(None),
            Ok(Some(c)) => linked(laid, active, world, links, c),
        },
        Expr::Compare(relation, x, y) => comparison(laid, active, world, *relation, x, y),
        Expr::CompareTexts(_, _, _) => Ok(None),
        Expr::In(x, s) => membership(laid, active, world, x, s),
        Expr::IsPointer(x, r) => match value(laid, active, world, x) {
            Err(stop) => Err(stop),
            Ok(None) => Ok(None),
            Ok(Some(c)) => match world.pointer_is(laid.types(), c, *r) {
                Err(stop) => Err(stop),
                Ok(answer) => Ok(Some(answer)),
            },
        },
        Expr::IsParameter(d, r) => match located(laid, active, world, d) {
            Err(stop) => Err(stop),
            Ok(None) => Ok(None),
            Ok(Some(handed)) => match world.parameter_is(laid.types(), handed, *r) {
                Err(stop) => Err(stop),
                Ok(answer) => Ok(Some(answer)),
            },
        },
        Expr::Byte(x) => match value(laid, active, world, x) {
            Err(stop) => Err(stop),
            Ok(None) => Ok(None),
            Ok(Some(c)) => match world.as_byte(active.procedure, c) {
                Err(stop) => Err(stop),
                Ok(d) => Ok(Some(d)),
            },
        },
        Expr::Length(d) => match located(laid, active, world, d) {
            Err(stop) => Err(stop),
            Ok(None) => Ok(None),
            Ok(Some(handed)) => match world.length_of(handed, length_of_kind(kind_in(d))) {
                Err(stop) => Err(stop),
                Ok(n) => Ok(Some(n)),
            },
        },
        Expr::Call(_) => Ok(None),
    }
}

// What stands at a designator.
#[cycle(at_once)]
fn loaded(
    laid: &LaidProgram,
    active: &Active,
    world: &World,
    d: &Designator,
) -> Result<Option<Cell>, Stop>
    ensures { AtOnce (load (handed_in laid.now active.now d.now) world.now) result world.now }
{
    match located(laid, active, world, d) {
        Err(stop) => Err(stop),
        Ok(None) => Ok(None),
        Ok(Some(handed)) => match world.load(handed) {
            Err(stop) => Err(stop),
            Ok(c) => Ok(Some(c)),
        },
    }
}

// What stands at a designator, behind type guards.
#[cycle(at_once)]
fn guarded(
    laid: &LaidProgram,
    active: &Active,
    world: &World,
    d: &Designator,
    guards: &[u32],
) -> Result<Option<Cell>, Stop>
    ensures { AtOnce (guarded_in laid.now active.now (load (handed_in laid.now active.now d.now)) guards.now world.now) result world.now }
{
    match loaded(laid, active, world, d) {
        Err(stop) => Err(stop),
        Ok(None) => Ok(None),
        Ok(Some(c)) => match world.all_guarded(laid.types(), active.procedure, c, guards) {
            Err(stop) => Err(stop),
            Ok(c) => Ok(Some(c)),
        },
    }
}

// A relation of two values.
#[cycle(at_once)]
fn comparison(
    laid: &LaidProgram,
    active: &Active,
    world: &World,
    relation: Relation,
    x: &Expr,
    y: &Expr,
) -> Result<Option<Cell>, Stop>
    ensures { AtOnce (compared relation (value_in laid.now active.now x.now) (value_in laid.now active.now y.now) world.now) result world.now }
{
    match value(laid, active, world, x) {
        Err(stop) => Err(stop),
        Ok(None) => Ok(None),
        Ok(Some(c)) => match value(laid, active, world, y) {
            Err(stop) => Err(stop),
            Ok(None) => Ok(None),
            Ok(Some(d)) => match world.compared(relation, c, d) {
                Err(stop) => Err(stop),
                Ok(answer) => Ok(Some(answer)),
            },
        },
    }
}

// Whether a number is in a set.
#[cycle(at_once)]
fn membership(
    laid: &LaidProgram,
    active: &Active,
    world: &World,
    x: &Expr,
    s: &Expr,
) -> Result<Option<Cell>, Stop>
    ensures { AtOnce (contained active.now.procedure (value_in laid.now active.now x.now) (value_in laid.now active.now s.now) world.now) result world.now }
{
    match value(laid, active, world, x) {
        Err(stop) => Err(stop),
        Ok(None) => Ok(None),
        Ok(Some(c)) => match world.element(active.procedure, c) {
            Err(stop) => Err(stop),
            Ok(n) => match value(laid, active, world, s) {
                Err(stop) => Err(stop),
                Ok(None) => Ok(None),
                Ok(Some(d)) => match world.contained(n, d) {
                    Err(stop) => Err(stop),
                    Ok(answer) => Ok(Some(answer)),
                },
            },
        },
    }
}

/// What links make of a value, one after the other.
#[cycle(at_once)]
fn linked(
    laid: &LaidProgram,
    active: &Active,
    world: &World,
    links: &[Link],
    first: Cell,
) -> Result<Option<Cell>, Stop>
    ensures { AtOnce (linked_by laid.now (at_most laid.now active.now.fuel) (here_of active.now) links.now (give first) world.now) result world.now }
{
    let mut c = first;
    for l in links {
        match link(laid, active, world, l, c) {
            Err(stop) => return Err(stop),
            Ok(None) => return Ok(None),
            Ok(Some(d)) => c = d,
        }
    }
    Ok(Some(c))
}

/// What a link makes of a value.
#[cycle(at_once)]
fn link(
    laid: &LaidProgram,
    active: &Active,
    world: &World,
    l: &Link,
    c: Cell,
) -> Result<Option<Cell>, Stop>
    ensures { AtOnce (the_link laid.now (at_most laid.now active.now.fuel) (here_of active.now) l.now (give c) world.now) result world.now }
{
    let Some(a) = c.number() else {
        return Err(Stop::NoSense);
    };
    match l {
        Link::Operate(operator, y) => match value(laid, active, world, y) {
            Err(stop) => Err(stop),
            Ok(None) => Ok(None),
            Ok(Some(d)) => match world.two_operands(active.procedure, *operator, c, d) {
                Err(stop) => Err(stop),
                Ok(made) => Ok(Some(made)),
            },
        },
        Link::And(y) => {
            if a == 0 {
                return Ok(Some(Cell::bits(0)));
            }
            value(laid, active, world, y)
        }
        Link::Or(y) => {
            if a == 0 {
                return value(laid, active, world, y);
            }
            Ok(Some(Cell::bits(1)))
        }
        Link::Element(y) => match value(laid, active, world, y) {
            Err(stop) => Err(stop),
            Ok(None) => Ok(None),
            Ok(Some(d)) => match world.with_element(active.procedure, c, d) {
                Err(stop) => Err(stop),
                Ok(made) => Ok(Some(made)),
            },
        },
        Link::Elements(y, z) => match value(laid, active, world, y) {
            Err(stop) => Err(stop),
            Ok(None) => Ok(None),
            Ok(Some(d)) => match world.element(active.procedure, d) {
                Err(stop) => Err(stop),
                Ok(low) => match value(laid, active, world, z) {
                    Err(stop) => Err(stop),
                    Ok(None) => Ok(None),
                    Ok(Some(e)) => match world.element(active.procedure, e) {
                        Err(stop) => Err(stop),
                        Ok(high) => Ok(Some(Cell::bits(a | elements(low, high)))),
                    },
                },
            },
        },
    }
}

/// What a designator names.
#[cycle(at_once)]
pub fn located(
    laid: &LaidProgram,
    active: &Active,
    world: &World,
    d: &Designator,
) -> Result<Option<Handed>, Stop>
    ensures { AtOnce (handed_in laid.now active.now d.now world.now) result world.now }
{
    match d {
        Designator::Whole(at, _) => match base(laid, active, world, *at) {
            Err(stop) => Err(stop),
            Ok(handed) => Ok(Some(handed)),
        },
        Designator::Part(access) => match base(laid, active, world, access.base) {
            Err(stop) => Err(stop),
            Ok(handed) => selected(laid, active, world, access.selectors.as_slice(), handed),
        },
    }
}

/// Where selectors lead to, one after the other.
#[cycle(at_once)]
fn selected(
    laid: &LaidProgram,
    active: &Active,
    world: &World,
    selectors: &[Selector],
    first: Handed,
) -> Result<Option<Handed>, Stop>
    ensures { AtOnce (selected_by laid.now (at_most laid.now active.now.fuel) (here_of active.now) selectors.now (give first) world.now) result world.now }
{
    let mut handed = first;
    for s in selectors {
        match select(laid, active, world, s, handed) {
            Err(stop) => return Err(stop),
            Ok(None) => return Ok(None),
            Ok(Some(next)) => handed = next,
        }
    }
    Ok(Some(handed))
}

/// Where a selector leads to.
#[cycle(at_once)]
fn select(
    laid: &LaidProgram,
    active: &Active,
    world: &World,
    s: &Selector,
    handed: Handed,
) -> Result<Option<Handed>, Stop>
    ensures { AtOnce (the_select laid.now (at_most laid.now active.now.fuel) (here_of active.now) s.now (give handed) world.now) result world.now }
{
    match s {
        Selector::Index {
            length,
            element,
            index,
        } => match world.span(handed, known(*length)) {
            Err(stop) => Err(stop),
            Ok(array) => match value(laid, active, world, index) {
                Err(stop) => Err(stop),
                Ok(None) => Ok(None),
                Ok(Some(c)) => match laid.cells(*element) {
                    None => Err(Stop::NoMemory),
                    Some(cells) => match world.element_place(active.procedure, array, cells, c) {
                        Err(stop) => Err(stop),
                        Ok(next) => Ok(Some(next)),
                    },
                },
            },
        },
        Selector::Field { record, field } => match member(laid, world, handed, *record, *field) {
            Err(stop) => Err(stop),
            Ok(next) => Ok(Some(next)),
        },
        Selector::Dereference(guards) => match dereferenced(
            laid,
            active,
            world,
            handed,
            guards.as_slice(),
        ) {
            Err(stop) => Err(stop),
            Ok(next) => Ok(Some(next)),
        },
        Selector::Narrow(r) => match world.narrowed(laid.types(), active.procedure, handed, *r) {
            Err(stop) => Err(stop),
            Ok(next) => Ok(Some(next)),
        },
    }
}
