//! The standard functions.

ghost use Rattle.std.specs.Prelude.{◌≡◌, [], ◌∷◌};
ghost use Rattle.ob_judge.specs.Scopes.{place};
ghost use Rattle.ob_judge.specs.Scopes.{Abs as TheAbs, Odd as TheOdd, Len as TheLen, Ord as TheOrd, Chr as TheChr};
ghost use Rattle.ob_judge.specs.Calls.{Given as JudgedGiven, standard as judged_standard, shifted as judged_shift};
ghost use Rattle.check_types.specs.steps.Answers.{Answers};
ghost use Rattle.check_types.specs.names.Worlds.{world_of};
ghost use Rattle.check_operands.specs.Operands.{Stands};
ghost use Rattle.check_operands.specs.calls.Given.{IsGiven};

use crate::standard::made::function;
use check_operands::calls::Given;
use check_operands::operators::value;
use check_operands::trees::{apply, as_byte, linked};
use check_operands::{Operand, designator, form};
use check_types::TypeRef;
use check_types::names::Scope;
use check_types::steps::CheckFault;
use ob_types::{Binary, Expr, Link, Unary};
use std::alloc::Global;

/// ABS.
pub fn abs<'a>(
    scope: &Scope<'a>,
    alloc: Global,
    symbol: u32,
    x: Given,
) -> Result<Operand, CheckFault>
    ensures { (a : JudgedGiven) → IsGiven scope.now x a →
        Answers (Stands scope.now)
        (judged_standard (world_of scope.now) (place scope.now.source.now symbol) TheAbs (a ∷ [])) result }
{
    let Given {
        symbol: at,
        operand,
    } = x;
    if operand.of.is_number() {
        let tree = apply(alloc, Unary::Abs, form(scope, operand))?;
        Ok(function(TypeRef::Int, tree))
    } else {
        Err(scope.source.fault(31, at))
    }
}

/// ODD.
pub fn odd<'a>(
    scope: &Scope<'a>,
    alloc: Global,
    symbol: u32,
    x: Given,
) -> Result<Operand, CheckFault>
    ensures { (a : JudgedGiven) → IsGiven scope.now x a →
        Answers (Stands scope.now)
        (judged_standard (world_of scope.now) (place scope.now.source.now symbol) TheOdd (a ∷ [])) result }
{
    let Given {
        symbol: at,
        operand,
    } = x;
    if operand.of.is_number() {
        let tree = apply(alloc, Unary::Odd, form(scope, operand))?;
        Ok(function(TypeRef::Bool, tree))
    } else {
        Err(scope.source.fault(31, at))
    }
}

/// LEN.
pub fn len<'a>(scope: &Scope<'a>, symbol: u32, x: Given) -> Result<Operand, CheckFault>
    ensures { (a : JudgedGiven) → IsGiven scope.now x a →
        Answers (Stands scope.now)
        (judged_standard (world_of scope.now) (place scope.now.source.now symbol) TheLen (a ∷ [])) result }
{
    let Given {
        symbol: at,
        operand,
    } = x;
    if operand.usage.is_variable() && scope.types.element(operand.of).is_some() {
        Ok(value(TypeRef::Int, Expr::Length(designator(scope, operand))))
    } else {
        Err(scope.source.fault(31, at))
    }
}

/// ORD.
pub fn ord<'a>(scope: &Scope<'a>, symbol: u32, x: Given) -> Result<Operand, CheckFault>
    ensures { (a : JudgedGiven) → IsGiven scope.now x a →
        Answers (Stands scope.now)
        (judged_standard (world_of scope.now) (place scope.now.source.now symbol) TheOrd (a ∷ [])) result }
{
    let Given {
        symbol: at,
        operand,
    } = x;
    if operand.of.may_order() {
        Ok(function(TypeRef::Int, form(scope, operand)))
    } else {
        Err(scope.source.fault(31, at))
    }
}

/// CHR.
pub fn chr<'a>(
    scope: &Scope<'a>,
    alloc: Global,
    symbol: u32,
    x: Given,
) -> Result<Operand, CheckFault>
    ensures { (a : JudgedGiven) → IsGiven scope.now x a →
        Answers (Stands scope.now)
        (judged_standard (world_of scope.now) (place scope.now.source.now symbol) TheChr (a ∷ [])) result }
{
    let Given {
        symbol: at,
        operand,
    } = x;
    if operand.of.is_number() {
        let tree = as_byte(alloc, form(scope, operand))?;
        Ok(function(TypeRef::Char, tree))
    } else {
        Err(scope.source.fault(31, at))
    }
}

/// LSL, ASR and ROR.
pub fn shifted<'a>(
    scope: &Scope<'a>,
    alloc: Global,
    operator: Binary,
    x: Given,
    n: Given,
) -> Result<Operand, CheckFault>
    ensures { (a b : JudgedGiven) → IsGiven scope.now x a → IsGiven scope.now n b →
        Answers (Stands scope.now) (judged_shift operator a b) result }
{
    if !x.operand.of.is_number() {
        Err(scope.source.fault(31, x.symbol))
    } else if !n.operand.of.is_number() {
        Err(scope.source.fault(31, n.symbol))
    } else {
        let left = form(scope, x.operand);
        let right = form(scope, n.operand);
        let tree = linked(alloc, left, Link::Operate(operator, right))?;
        Ok(function(TypeRef::Int, tree))
    }
}
