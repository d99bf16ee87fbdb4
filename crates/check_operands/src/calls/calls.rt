//! Calls of procedures.

ghost use Rattle.std.specs.Prelude.{◌≡◌, List};
ghost use Rattle.ob_judge.specs.Image.{Arguments as JudgedArguments};
ghost use Rattle.ob_judge.specs.Scopes.{place};
ghost use Rattle.ob_judge.specs.Operands.{Operand as Judgement, What as JudgedWhat, value as value_of};
ghost use Rattle.ob_judge.specs.Image.{Result as ResultOf};
ghost use Rattle.ob_judge.specs.Judged.{Keeps};
ghost use Rattle.ob_judge.specs.Calls.{Given as JudgedGiven, all_bound as judged_arguments, call_of, called as judged_call};
ghost use Rattle.judged_tree.specs.TypeShapes.{shapes_of, formals_shape};
ghost use Rattle.judged_tree.specs.Plain.{plain_call};
ghost use Rattle.judged_tree.specs.Outline.{outlined_call};
ghost use Rattle.check_types.specs.steps.Answers.{Answers};
ghost use Rattle.check_types.specs.TypeMeaning.{type_shape, formals_of, result_of};
ghost use Rattle.check_types.specs.names.Worlds.{table_of, world_of};
ghost use Rattle.check_operands.specs.Operands.{texts_of, bases_of, what_image, outlined_what, Stands};
ghost use Rattle.check_operands.specs.calls.Given.{AreGiven, AreArguments, code_in};

use crate::calls::arguments::{Given, bound};
use crate::operators::value;
use crate::trees::call;
use crate::{Operand, What, designator};
use check_types::TypeRef;
use check_types::names::Scope;
use check_types::steps::CheckFault;
use ob_types::{Argument, Call, Formal};
use std::alloc::Global;

// Arguments for their parameters, one after the other.
fn all_bound<'a>(
    scope: &Scope<'a>,
    alloc: Global,
    formals: &[Formal],
    given: Vec<Given>,
) -> Result<Vec<Argument>, CheckFault>
    ensures { (xs : List JudgedGiven) → AreGiven scope.now given.items xs →
        Answers (AreArguments scope.now)
        (judged_arguments (world_of scope.now) (formals_shape (shapes_of (table_of scope.now)) formals.now) xs)
        result }
{
    let mut rest = given.into_iter();
    let mut arguments = Vec::new(alloc);
    for formal in formals {
        if let Some(x) = rest.next() {
            let to = scope.types.entry(formal.type_number);
            let argument = bound(scope, alloc, formal.variable, to, x)?;
            arguments.push(argument)?;
        }
    }
    Ok(arguments)
}

// The number of a declared procedure.
fn code_number<'a>(scope: &Scope<'a>, what: &What) -> Option<u32>
    ensures { (w : JudgedWhat) → what_image (table_of scope.now) (texts_of scope.now) what.now ≡ outlined_what (bases_of scope.now) w →
        code_in w ≡ result }
{
    match what {
        What::Code { number, .. } => Some(*number),
        _ => None,
    }
}

// A call of a declared procedure, or of a procedure variable.
fn call_by<'a>(scope: &Scope<'a>, x: Operand, arguments: Vec<Argument>) -> Call
    ensures { (a : Judgement) (bs : JudgedArguments) → Stands scope.now x a → AreArguments scope.now arguments bs →
        plain_call (table_of scope.now) (texts_of scope.now) result
        ≡ outlined_call (bases_of scope.now) (call_of a a.what bs) }
{
    match code_number(scope, &x.what) {
        Some(number) => Call::Direct(number, arguments),
        None => Call::Indirect(designator(scope, x), arguments),
    }
}

// The type of a procedure type's result.
fn result_type<'a>(scope: &Scope<'a>, signature: u32) -> TypeRef
    ensures { type_shape (table_of scope.now) result ≡ result_of (table_of scope.now) signature }
{
    match scope.types.result(signature) {
        Some(number) => scope.types.entry(number),
        None => TypeRef::Nil,
    }
}

// A call whose arguments are bound.
fn result_of_call<'a>(
    scope: &Scope<'a>,
    alloc: Global,
    x: Operand,
    signature: u32,
    arguments: Vec<Argument>,
) -> Result<Operand, CheckFault>
    ensures { (a : Judgement) (bs : JudgedArguments) → Stands scope.now x a → AreArguments scope.now arguments bs →
        Answers (Stands scope.now)
        (Keeps (value_of (result_of (table_of scope.now) signature) (ResultOf (call_of a a.what bs))))
        result }
{
    let tree = call(alloc, call_by(scope, x, arguments))?;
    Ok(value(result_type(scope, signature), tree))
}

/// A call of a procedure of this signature: 40 unless there are as many arguments as parameters.
pub fn called<'a>(
    scope: &Scope<'a>,
    alloc: Global,
    symbol: u32,
    x: Operand,
    signature: u32,
    given: Vec<Given>,
) -> Result<Operand, CheckFault>
    ensures { (a : Judgement) (xs : List JudgedGiven) → Stands scope.now x a → AreGiven scope.now given.items xs →
        Answers (Stands scope.now)
        (judged_call (world_of scope.now) (place scope.now.source.now symbol) a
        (formals_of (table_of scope.now) signature) (result_of (table_of scope.now) signature) xs)
        result }
{
    let formals = scope.types.formals(signature);
    if formals.len() == given.len() {
        let arguments = all_bound(scope, alloc, formals, given)?;
        result_of_call(scope, alloc, x, signature, arguments)
    } else {
        Err(scope.source.fault(40, symbol))
    }
}
