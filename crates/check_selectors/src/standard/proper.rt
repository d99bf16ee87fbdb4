//! The proper standard procedures.

ghost use Rattle.std.specs.Prelude.{◌≡◌, [], ◌∷◌, ◌&&◌, ◌||◌};
ghost use Rattle.ob_judge.specs.Scopes.{place};
ghost use Rattle.ob_judge.specs.Scopes.{New as TheNew, Assert as TheAssert, OutChar as TheOutChar, OutInt as TheOutInt, OutString as TheOutString, OutLn as TheOutLn, InChar as TheInChar};
ghost use Rattle.ob_judge.specs.Calls.{Given as JudgedGiven, standard as judged_standard, changed as judged_change, set_changed as judged_set_change, number as judged_number, by_one, is_chars as tests_chars};
ghost use Rattle.ob_judge.specs.Operands.{Operand as Judgement, is_variable as asks_variable};
ghost use Rattle.ob_judge.specs.Operators.{is_text as tests_text};
ghost use Rattle.check_types.specs.steps.Answers.{Answers};
ghost use Rattle.check_types.specs.names.Worlds.{world_of};
ghost use Rattle.check_operands.specs.Operands.{Stands};
ghost use Rattle.check_operands.specs.calls.Given.{IsGiven};
ghost use Rattle.check_selectors.specs.standard.Made.{changed_by as change_of};

use crate::standard::asked::{assigned_to, written};
use crate::standard::made::{Change, proper};
use check_operands::calls::{Given, is_chars};
use check_operands::{Operand, checked, designator};
use check_types::TypeRef;
use check_types::names::Scope;
use check_types::steps::CheckFault;
use ob_types::{Checked, Expr, Stmt, TypeKind};
use std::alloc::Global;

/// INC and DEC by one.
pub fn changed_by_one<'a>(
    scope: &Scope<'a>,
    alloc: Global,
    change: Change,
    v: Given,
) -> Result<Operand, CheckFault>
    ensures { (a : JudgedGiven) → IsGiven scope.now v a →
        Answers (Stands scope.now) (judged_change (change_of change) a by_one) result }
{
    written(scope, &v)?;
    if v.operand.of.is_number() {
        let one = Checked {
            form: Expr::Literal(1),
            kind: TypeKind::Int,
        };
        let made = proper(alloc, change.of(designator(scope, v.operand), one))?;
        Ok(made)
    } else {
        Err(scope.source.fault(31, v.symbol))
    }
}

/// INC and DEC.
pub fn changed_by<'a>(
    scope: &Scope<'a>,
    alloc: Global,
    change: Change,
    v: Given,
    n: Given,
) -> Result<Operand, CheckFault>
    ensures { (a b : JudgedGiven) → IsGiven scope.now v a → IsGiven scope.now n b →
        Answers (Stands scope.now)
        (judged_change (change_of change) a (judged_number b)) result }
{
    written(scope, &v)?;
    if !v.operand.of.is_number() {
        Err(scope.source.fault(31, v.symbol))
    } else if !n.operand.of.is_number() {
        Err(scope.source.fault(31, n.symbol))
    } else {
        let variable = designator(scope, v.operand);
        let by = checked(scope, n.operand);
        let made = proper(alloc, change.of(variable, by))?;
        Ok(made)
    }
}

/// INCL and EXCL.
pub fn set_changed<'a>(
    scope: &Scope<'a>,
    alloc: Global,
    change: Change,
    v: Given,
    x: Given,
) -> Result<Operand, CheckFault>
    ensures { (a b : JudgedGiven) → IsGiven scope.now v a → IsGiven scope.now x b →
        Answers (Stands scope.now) (judged_set_change (change_of change) a b) result }
{
    written(scope, &v)?;
    if !v.operand.of.is_set() {
        Err(scope.source.fault(31, v.symbol))
    } else if !x.operand.of.is_number() {
        Err(scope.source.fault(31, x.symbol))
    } else {
        let variable = designator(scope, v.operand);
        let element = checked(scope, x.operand);
        let made = proper(alloc, change.of(variable, element))?;
        Ok(made)
    }
}

/// NEW.
pub fn new<'a>(
    scope: &Scope<'a>,
    alloc: Global,
    symbol: u32,
    v: Given,
) -> Result<Operand, CheckFault>
    ensures { (a : JudgedGiven) → IsGiven scope.now v a →
        Answers (Stands scope.now)
        (judged_standard (world_of scope.now) (place scope.now.source.now symbol) TheNew (a ∷ [])) result }
{
    written(scope, &v)?;
    match scope.types.target_of(v.operand.of) {
        None => Err(scope.source.fault(31, v.symbol)),
        Some(_) => {
            if v.operand.usage.is_narrowed() {
                Err(scope.source.fault(31, v.symbol))
            } else {
                let made = proper(alloc, Stmt::New(designator(scope, v.operand)))?;
                Ok(made)
            }
        }
    }
}

/// ASSERT.
pub fn assert<'a>(
    scope: &Scope<'a>,
    alloc: Global,
    symbol: u32,
    x: Given,
) -> Result<Operand, CheckFault>
    ensures { (a : JudgedGiven) → IsGiven scope.now x a →
        Answers (Stands scope.now)
        (judged_standard (world_of scope.now) (place scope.now.source.now symbol) TheAssert (a ∷ [])) result }
{
    let Given {
        symbol: at,
        operand,
    } = x;
    if operand.of.is_truth() {
        let made = proper(alloc, Stmt::Assert(checked(scope, operand)))?;
        Ok(made)
    } else {
        Err(scope.source.fault(31, at))
    }
}

/// Out.Char.
pub fn out_char<'a>(
    scope: &Scope<'a>,
    alloc: Global,
    symbol: u32,
    x: Given,
) -> Result<Operand, CheckFault>
    ensures { (a : JudgedGiven) → IsGiven scope.now x a →
        Answers (Stands scope.now)
        (judged_standard (world_of scope.now) (place scope.now.source.now symbol) TheOutChar (a ∷ [])) result }
{
    let value = assigned_to(scope, alloc, TypeRef::Char, x)?;
    let made = proper(alloc, Stmt::OutChar(value))?;
    Ok(made)
}

/// Out.Int.
pub fn out_int<'a>(
    scope: &Scope<'a>,
    alloc: Global,
    symbol: u32,
    x: Given,
    n: Given,
) -> Result<Operand, CheckFault>
    ensures { (a b : JudgedGiven) → IsGiven scope.now x a → IsGiven scope.now n b →
        Answers (Stands scope.now)
        (judged_standard (world_of scope.now) (place scope.now.source.now symbol) TheOutInt (a ∷ b ∷ [])) result }
{
    let value = assigned_to(scope, alloc, TypeRef::Int, x)?;
    let width = assigned_to(scope, alloc, TypeRef::Int, n)?;
    let made = proper(alloc, Stmt::OutInt(value, width))?;
    Ok(made)
}

// A string, or a variable that holds characters.
fn is_string<'a>(scope: &Scope<'a>, x: &Operand) -> bool
    ensures { (a : Judgement) → Stands scope.now x.now a →
        (tests_chars a.what || asks_variable a && tests_text a.shape) ≡ result }
{
    is_chars(scope, &x.what) || (x.usage.is_variable() && scope.types.is_text(x.of))
}

/// Out.String.
pub fn out_string<'a>(
    scope: &Scope<'a>,
    alloc: Global,
    symbol: u32,
    x: Given,
) -> Result<Operand, CheckFault>
    ensures { (a : JudgedGiven) → IsGiven scope.now x a →
        Answers (Stands scope.now)
        (judged_standard (world_of scope.now) (place scope.now.source.now symbol) TheOutString (a ∷ [])) result }
{
    let Given {
        symbol: at,
        operand,
    } = x;
    if is_string(scope, &operand) {
        let made = proper(alloc, Stmt::OutString(designator(scope, operand)))?;
        Ok(made)
    } else {
        Err(scope.source.fault(31, at))
    }
}

/// Out.Ln.
pub fn out_line<'a>(scope: &Scope<'a>, alloc: Global, symbol: u32) -> Result<Operand, CheckFault>
    ensures { Answers (Stands scope.now)
        (judged_standard (world_of scope.now) (place scope.now.source.now symbol) TheOutLn []) result }
{
    let made = proper(alloc, Stmt::OutLn)?;
    Ok(made)
}

/// In.Char.
pub fn in_char<'a>(
    scope: &Scope<'a>,
    alloc: Global,
    symbol: u32,
    v: Given,
) -> Result<Operand, CheckFault>
    ensures { (a : JudgedGiven) → IsGiven scope.now v a →
        Answers (Stands scope.now)
        (judged_standard (world_of scope.now) (place scope.now.source.now symbol) TheInChar (a ∷ [])) result }
{
    written(scope, &v)?;
    if v.operand.of.is_char_only() {
        let made = proper(alloc, Stmt::InChar(designator(scope, v.operand)))?;
        Ok(made)
    } else {
        Err(scope.source.fault(31, v.symbol))
    }
}
