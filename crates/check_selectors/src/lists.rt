//! Selectors whose expressions have been walked: indices, guards and calls.

ghost use Rattle.std.specs.Prelude.{◌≡◌, ℕ, List, Some};
ghost use Rattle.ob_judge.specs.Scopes.{place};
ghost use Rattle.ob_judge.specs.Operands.{Operand as Judgement};
ghost use Rattle.ob_judge.specs.Calls.{Given as JudgedGiven};
ghost use Rattle.ob_judge.specs.Parts.{element as judged_element, guarded as judged_guard, applied as judged_call, is_procedure as tests_procedure};
ghost use Rattle.check_types.specs.steps.Answers.{Answers};
ghost use Rattle.check_types.specs.TypeMeaning.{type_shape};
ghost use Rattle.check_types.specs.names.Worlds.{table_of, world_of};
ghost use Rattle.check_operands.specs.Operands.{Stands};
ghost use Rattle.check_operands.specs.calls.Given.{AreGiven};
ghost use Rattle.check_selectors.specs.parts.Parts.{IsPart};
ghost use Rattle.check_selectors.specs.Stages.{IsStage, IsBegun};
ghost use Rattle.check_selectors.specs.Behind.{guard_behind, call_behind, standard_behind};
ghost use Rattle.ob_types.specs.Table.{Table};
ghost use Rattle.check_types.specs.names.Meaning.{standard_of as standard_meant};

use crate::begun::{Begun, operand_of};
use crate::parts::{Part, element, guarded};
use crate::stage::Stage;
use crate::standard::standard;
use check_operands::Operand;
use check_operands::calls::{Given, called};
use check_types::TypeRef;
use check_types::names::{Scope, Standard};
use check_types::steps::CheckFault;
use std::alloc::Global;

/// An element, after the index was walked.
pub fn element_of<'a>(
    scope: &Scope<'a>,
    alloc: Global,
    symbol: u32,
    index_symbol: u32,
    x: Begun,
    i: Operand,
) -> Result<Part, CheckFault>
    ensures { (a b : Judgement) → IsBegun scope.now x a → Stands scope.now i b →
        Answers (IsPart scope.now)
        (judged_element (place scope.now.source.now symbol)
        (place scope.now.source.now index_symbol) a b)
        result }
{
    match x {
        Begun::Variable(part) => element(scope, alloc, symbol, index_symbol, part, i),
        Begun::Value(_) => Err(scope.source.fault(31, symbol)),
    }
}

// A guard by this type.
fn guard_of<'a>(
    scope: &Scope<'a>,
    alloc: Global,
    symbol: u32,
    x: Begun,
    t: TypeRef,
) -> Result<Part, CheckFault>
    ensures { (a : Judgement) → IsBegun scope.now x a →
        Answers (IsPart scope.now)
        (judged_guard scope.now.source.now (world_of scope.now) (place scope.now.source.now symbol) a
        (type_shape (table_of scope.now) t))
        result }
{
    match x {
        Begun::Variable(part) => guarded(scope, alloc, symbol, part, t),
        Begun::Value(_) => Err(scope.source.fault(31, symbol)),
    }
}

/// A guard by the type that a qualident names.
pub fn guarded_by<'a>(
    scope: &Scope<'a>,
    alloc: Global,
    symbol: u32,
    x: Begun,
    name: u32,
    member: Option<u32>,
) -> Result<Stage, CheckFault>
    ensures { (a : Judgement) → IsBegun scope.now x a →
        Answers (IsStage scope.now)
        (guard_behind scope.now.source.now (world_of scope.now) (place scope.now.source.now symbol) (name, member) a) result }
{
    let t = scope.type_named(31, name, member)?;
    let part = guard_of(scope, alloc, symbol, x, t)?;
    Ok(Stage::Partly(part))
}

/// Whether what stands before a list is a procedure.
pub fn is_procedure<'a>(scope: &Scope<'a>, x: &Begun) -> bool
    ensures { (a : Judgement) → IsBegun scope.now x.now a → tests_procedure a.shape ≡ result }
{
    match x {
        Begun::Variable(part) => is_procedure_type(part.of),
        Begun::Value(value) => is_procedure_type(value.of),
    }
}

// A procedure type.
fn is_procedure_type(of: TypeRef) -> bool
    ensures { (t : Table) → tests_procedure (type_shape t of) ≡ result }
{
    match of {
        TypeRef::Procedure(_) => true,
        _ => false,
    }
}

// A call, whose arguments have been walked.
fn applied<'a>(
    scope: &Scope<'a>,
    alloc: Global,
    symbol: u32,
    x: Operand,
    given: Vec<Given>,
) -> Result<Operand, CheckFault>
    ensures { (a : Judgement) (xs : List JudgedGiven) → Stands scope.now x a → AreGiven scope.now given.items xs →
        Answers (Stands scope.now)
        (judged_call scope.now.source.now (world_of scope.now) (place scope.now.source.now symbol) a a.shape xs) result }
{
    match x.of {
        TypeRef::Procedure(signature) => called(scope, alloc, symbol, x, signature, given),
        _ => Err(scope.source.fault(31, symbol)),
    }
}

/// The same, as the last selector.
pub fn called_last<'a>(
    scope: &Scope<'a>,
    alloc: Global,
    symbol: u32,
    x: Begun,
    given: Vec<Given>,
) -> Result<Stage, CheckFault>
    ensures { (a : Judgement) (xs : List JudgedGiven) → IsBegun scope.now x a → AreGiven scope.now given.items xs →
        Answers (IsStage scope.now)
        (call_behind scope.now.source.now (world_of scope.now) (place scope.now.source.now symbol) xs a) result }
{
    let procedure = operand_of(scope, alloc, x)?;
    let y = applied(scope, alloc, symbol, procedure, given)?;
    Ok(Stage::Ended(y))
}

/// A call of a standard procedure, whose arguments have been walked.
pub fn standard_last<'a>(
    scope: &Scope<'a>,
    alloc: Global,
    symbol: u32,
    s: Standard,
    given: Vec<Given>,
) -> Result<Stage, CheckFault>
    ensures { (xs : List JudgedGiven) → AreGiven scope.now given.items xs →
        Answers (IsStage scope.now)
        (standard_behind scope.now.source.now (world_of scope.now) (place scope.now.source.now symbol) (standard_meant s) xs)
        result }
{
    let x = standard(scope, alloc, symbol, s, given)?;
    Ok(Stage::Ended(x))
}
