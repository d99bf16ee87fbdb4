//! Operators judged.

ghost use Rattle.std.specs.Prelude.{Some};
ghost use Rattle.ob_judge.specs.Scopes.{place};
ghost use Rattle.ob_judge.specs.Parts.{joined as judged_operator, signed as judged_sign, inverted as judged_not};
ghost use Rattle.check_types.specs.names.Worlds.{table_of, world_of};
ghost use Rattle.check_operands.specs.Operands.{Judges, JudgesBoth};
ghost use Rattle.check_operands.specs.operators.Rows.{operator_of};
ghost use Rattle.check_operands.specs.operators.Judged.{rowed as judged_row, applied as judged_unary};
ghost use Rattle.ob_syntax.specs.declared.expressions.Sign.TheVariants as TheSign;
ghost use Rattle.check_types.specs.TypeMeaning.{type_shape};

use crate::operators::literals::value;
use crate::operators::rows::{Operator, Row, row_of};
use crate::trees::{apply, linked};
use crate::{Operand, form};
use check_types::TypeRef;
use check_types::names::Scope;
use check_types::steps::CheckFault;
use ob_syntax::expressions::Sign;
use ob_types::{Expr, Unary};
use std::alloc::Global;

// What a row makes of two operands.
fn rowed<'a>(
    scope: &Scope<'a>,
    alloc: Global,
    row: Row,
    x: Operand,
    y: Operand,
) -> Result<Operand, CheckFault>
    ensures { JudgesBoth scope.now x y (judged_row row) result }
{
    let left = form(scope, x);
    let right = form(scope, y);
    let tree = linked(alloc, left, row.link(right))?;
    Ok(value(row.of(), tree))
}

/// An operator between two operands: 31 where there is no row for them.
pub fn joined<'a>(
    scope: &Scope<'a>,
    alloc: Global,
    operator: Operator,
    symbol: u32,
    x: Operand,
    y: Operand,
) -> Result<Operand, CheckFault>
    ensures { JudgesBoth scope.now x y (judged_operator (operator_of operator) (place scope.now.source.now symbol)) result }
{
    match row_of(operator, x.of, y.of) {
        None => Err(scope.source.fault(31, symbol)),
        Some(row) => rowed(scope, alloc, row, x, y),
    }
}

// An operator of one operand.
fn applied<'a>(
    scope: &Scope<'a>,
    alloc: Global,
    of: TypeRef,
    operator: Unary,
    x: Operand,
) -> Result<Operand, CheckFault>
    ensures { Judges scope.now x (judged_unary (type_shape (table_of scope.now) of) operator) result }
{
    let operand = form(scope, x);
    let tree = apply(alloc, operator, operand)?;
    Ok(value(of, tree))
}

// A number with a plus sign.
fn plus<'a>(scope: &Scope<'a>, symbol: u32, x: Operand) -> Result<Operand, CheckFault>
    ensures { Judges scope.now x (judged_sign scope.now.source.now (world_of scope.now) (Some (TheSign.Plus symbol))) result }
{
    if x.of.is_number() {
        Ok(value(TypeRef::Int, form(scope, x)))
    } else {
        Err(scope.source.fault(31, symbol))
    }
}

// A number or a set with a minus sign.
fn minus<'a>(
    scope: &Scope<'a>,
    alloc: Global,
    symbol: u32,
    x: Operand,
) -> Result<Operand, CheckFault>
    ensures { Judges scope.now x (judged_sign scope.now.source.now (world_of scope.now) (Some (TheSign.Minus symbol))) result }
{
    match x.of {
        TypeRef::Set => applied(scope, alloc, TypeRef::Set, Unary::Complement, x),
        TypeRef::Int => applied(scope, alloc, TypeRef::Int, Unary::Negate, x),
        TypeRef::Byte => applied(scope, alloc, TypeRef::Int, Unary::Negate, x),
        _ => Err(scope.source.fault(31, symbol)),
    }
}

/// A sign before an operand.
pub fn signed<'a>(
    scope: &Scope<'a>,
    alloc: Global,
    sign: &Option<Sign>,
    x: Operand,
) -> Result<Operand, CheckFault>
    ensures { Judges scope.now x (judged_sign scope.now.source.now (world_of scope.now) sign.now) result }
{
    match sign {
        None => Ok(x),
        Some(Sign::Plus(symbol)) => plus(scope, *symbol, x),
        Some(Sign::Minus(symbol)) => minus(scope, alloc, *symbol, x),
    }
}

/// `~`: 31 where its operand isn't BOOLEAN.
pub fn inverted<'a>(
    scope: &Scope<'a>,
    alloc: Global,
    symbol: u32,
    x: Operand,
) -> Result<Operand, CheckFault>
    ensures { Judges scope.now x (judged_not (place scope.now.source.now symbol)) result }
{
    if x.of.is_truth() {
        applied(scope, alloc, TypeRef::Bool, Unary::Not, x)
    } else {
        Err(scope.source.fault(31, symbol))
    }
}
