//! Statements without calls and without others in them.

ghost use Rattle.std.specs.Prelude.{◌≡◌};
ghost use Rattle.ob_types.specs.Meaning.{effect, effects_of, at_most};
ghost use Rattle.ob_types.specs.Statements.{assign as assigned, change_set, assert as asserted, out_char, out_int};
ghost use Rattle.eval_at_once.specs.Here.{here_of, value_in, handed_in, changed_in};
ghost use Rattle.eval_at_once.specs.AtOnce.{Done, DoneSome, IsEnd};

use crate::active::Active;
use crate::kinds::{is_byte, kind_in};
use crate::values::{located, value};
use eval_layouts::LaidProgram;
use eval_store::{Cell, Stop, World};
use ob_types::{Binary, Designator, Expr, Stmt};

/// `:=` of a scalar.
#[inline]
fn assign(
    laid: &LaidProgram,
    active: &Active,
    world: &mut World,
    d: &Designator,
    x: &Expr,
) -> Result<bool, Stop>
    ensures did { Done (assigned (handed_in laid.now active.now d.now) (value_in laid.now active.now x.now) world.old) result world.old world.new }
    ensures turns { world.new.turns ≡ world.old.turns }
{
    match located(laid, active, world, d) {
        Err(stop) => Err(stop),
        Ok(None) => Ok(false),
        Ok(Some(handed)) => match handed.place() {
            None => Err(Stop::NoSense),
            Some(a) => match value(laid, active, world, x) {
                Err(stop) => Err(stop),
                Ok(None) => Ok(false),
                Ok(Some(c)) => match world.put(a, c) {
                    Err(stop) => Err(stop),
                    Ok(()) => Ok(true),
                },
            },
        },
    }
}

/// INC and DEC.
fn change(
    laid: &LaidProgram,
    active: &Active,
    world: &mut World,
    operator: Binary,
    d: &Designator,
    x: &Expr,
) -> Result<bool, Stop>
    ensures did { Done (changed_in laid.now active.now operator d.now x.now world.old) result world.old world.new }
    ensures turns { world.new.turns ≡ world.old.turns }
{
    match located(laid, active, world, d) {
        Err(stop) => Err(stop),
        Ok(None) => Ok(false),
        Ok(Some(handed)) => match handed.place() {
            None => Err(Stop::NoSense),
            Some(_) => match value(laid, active, world, x) {
                Err(stop) => Err(stop),
                Ok(None) => Ok(false),
                Ok(Some(c)) => match world.change_number(
                    active.procedure,
                    operator,
                    handed,
                    c,
                    is_byte(kind_in(d)),
                ) {
                    Err(stop) => Err(stop),
                    Ok(()) => Ok(true),
                },
            },
        },
    }
}

/// INCL and EXCL.
fn change_elements(
    laid: &LaidProgram,
    active: &Active,
    world: &mut World,
    operator: Binary,
    d: &Designator,
    x: &Expr,
) -> Result<bool, Stop>
    ensures did { Done (change_set active.now.procedure operator (handed_in laid.now active.now d.now) (value_in laid.now active.now x.now) world.old) result world.old world.new }
    ensures turns { world.new.turns ≡ world.old.turns }
{
    match located(laid, active, world, d) {
        Err(stop) => Err(stop),
        Ok(None) => Ok(false),
        Ok(Some(handed)) => match handed.place() {
            None => Err(Stop::NoSense),
            Some(_) => match value(laid, active, world, x) {
                Err(stop) => Err(stop),
                Ok(None) => Ok(false),
                Ok(Some(c)) => match world.change_set(active.procedure, operator, handed, c) {
                    Err(stop) => Err(stop),
                    Ok(()) => Ok(true),
                },
            },
        },
    }
}

/// ASSERT.
fn assert(laid: &LaidProgram, active: &Active, world: &World, x: &Expr) -> Result<bool, Stop>
    ensures { Done (asserted active.now.procedure (value_in laid.now active.now x.now) world.now) result world.now world.now }
{
    match value(laid, active, world, x) {
        Err(stop) => Err(stop),
        Ok(None) => Ok(false),
        Ok(Some(c)) => match world.assert(active.procedure, c) {
            Err(stop) => Err(stop),
            Ok(()) => Ok(true),
        },
    }
}

/// Out.Char.
fn write_char(
    laid: &LaidProgram,
    active: &Active,
    world: &mut World,
    x: &Expr,
) -> Result<bool, Stop>
    ensures did { Done (out_char (value_in laid.now active.now x.now) world.old) result world.old world.new }
    ensures turns { world.new.turns ≡ world.old.turns }
{
    match value(laid, active, world, x) {
        Err(stop) => Err(stop),
        Ok(None) => Ok(false),
        Ok(Some(c)) => match world.out_char(c) {
            Err(stop) => Err(stop),
            Ok(()) => Ok(true),
        },
    }
}

/// Out.Int.
fn write_int(
    laid: &LaidProgram,
    active: &Active,
    world: &mut World,
    x: &Expr,
    width: &Expr,
) -> Result<bool, Stop>
    ensures did { Done (out_int (value_in laid.now active.now x.now) (value_in laid.now active.now width.now) world.old) result world.old world.new }
    ensures turns { world.new.turns ≡ world.old.turns }
{
    match value(laid, active, world, x) {
        Err(stop) => Err(stop),
        Ok(None) => Ok(false),
        Ok(Some(c)) => match c.number() {
            None => Err(Stop::NoSense),
            Some(_) => match value(laid, active, world, width) {
                Err(stop) => Err(stop),
                Ok(None) => Ok(false),
                Ok(Some(n)) => match world.out_int(c, n) {
                    Err(stop) => Err(stop),
                    Ok(()) => Ok(true),
                },
            },
        },
    }
}

/// A statement, where it has no call and no other in it: whether it was done. Else nothing is changed.
#[inline]
pub fn perform(
    laid: &LaidProgram,
    active: &Active,
    world: &mut World,
    statement: &Stmt,
) -> Result<bool, Stop>
    ensures did { Done (effect laid.now (at_most laid.now active.now.fuel) (here_of active.now) active.now.fuel statement.now world.old) result world.old world.new }
    ensures turns { world.new.turns ≡ world.old.turns }
{
    match statement {
        Stmt::Assign(d, x) => assign(laid, active, world, d, &x.form),
        Stmt::Increase(d, x) => change(laid, active, world, Binary::Add, d, &x.form),
        Stmt::Decrease(d, x) => change(laid, active, world, Binary::Subtract, d, &x.form),
        Stmt::Include(d, x) => change_elements(laid, active, world, Binary::Union, d, &x.form),
        Stmt::Exclude(d, x) => change_elements(laid, active, world, Binary::Difference, d, &x.form),
        Stmt::Assert(x) => assert(laid, active, world, &x.form),
        Stmt::OutChar(x) => write_char(laid, active, world, &x.form),
        Stmt::OutInt(x, width) => write_int(laid, active, world, &x.form, &width.form),
        Stmt::OutLn => match world.out_char(Cell::bits(10)) {
            Err(stop) => Err(stop),
            Ok(()) => Ok(true),
        },
        _ => Ok(false),
    }
}

/// As many statements from the first one on as can be done so: those that are left.
pub fn perform_some<'a>(
    laid: &LaidProgram,
    active: &Active,
    world: &mut World,
    all: &'a [Stmt],
) -> Result<&'a [Stmt], Stop>
    ensures did { DoneSome (effects_of laid.now (at_most laid.now active.now.fuel) (here_of active.now) active.now.fuel) all.now world.old result world.new }
    ensures end { IsEnd all.now result }
    ensures turns { world.new.turns ≡ world.old.turns }
{
    let mut rest = all;
    'statements: while let Some((first, more)) = rest.split_first() {
        match perform(laid, active, world, first) {
            Err(stop) => return Err(stop),
            Ok(done) => {
                if !done {
                    return Ok(rest);
                }
                rest = more;
            }
        }
    }
    Ok(rest)
}
