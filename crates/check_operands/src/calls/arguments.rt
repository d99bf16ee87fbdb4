//! Arguments.

ghost use Rattle.std.specs.Prelude.{◌≡◌, IfOk, true, false};
ghost use Rattle.ob_judge.specs.Operands.{Operand as Judgement, What as JudgedWhat, is_local_code as local_code};
ghost use Rattle.ob_judge.specs.Calls.{Given as JudgedGiven, may_assign as judged_assign, is_chars as tests_chars, is_open_text as tests_open_text, may_pass as judged_pass, as_reference as reference_from, as_passed as passed_from, bound as judged_bound};
ghost use Rattle.check_types.specs.steps.Answers.{Answers};
ghost use Rattle.check_types.specs.TypeMeaning.{type_shape};
ghost use Rattle.check_types.specs.Known.{known_of};
ghost use Rattle.check_types.specs.names.Worlds.{table_of, world_of};
ghost use Rattle.check_operands.specs.Operands.{texts_of, bases_of, what_image, outlined_what, Stands};
ghost use Rattle.check_operands.specs.calls.Given.{IsGiven, IsArgument, IsStored};

use crate::trees::as_byte;
use crate::{Operand, What, checked, designator, form};
use check_types::TypeRef;
use check_types::names::Scope;
use check_types::steps::CheckFault;
use ob_types::{Argument, Checked, TypeKind};
use std::alloc::{AllocError, Global};

/// An argument that has been walked, and the symbol that it begins with.
#[derive(Drop)]
pub struct Given {
    pub symbol: u32,
    pub operand: Operand,
}

/// An operand's value as it is stored in a variable of this type.
pub fn stored<'a>(
    scope: &Scope<'a>,
    alloc: Global,
    to: TypeRef,
    x: Operand,
) -> Result<Checked, AllocError>
    ensures { IfOk result (IsStored scope.now to x) }
{
    match to {
        TypeRef::Byte => {
            let tree = as_byte(alloc, form(scope, x))?;
            Ok(Checked {
                form: tree,
                kind: TypeKind::Byte,
            })
        }
        _ => Ok(checked(scope, x)),
    }
}

// A procedure that is local to another.
fn is_local_code<'a>(scope: &Scope<'a>, what: &What) -> bool
    ensures { (w : JudgedWhat) → what_image (table_of scope.now) (texts_of scope.now) what.now ≡ outlined_what (bases_of scope.now) w → local_code w ≡ result }
{
    match what {
        What::Code { is_local, .. } => *is_local,
        _ => false,
    }
}

/// A string.
pub fn is_chars<'a>(scope: &Scope<'a>, what: &What) -> bool
    ensures { (w : JudgedWhat) → what_image (table_of scope.now) (texts_of scope.now) what.now ≡ outlined_what (bases_of scope.now) w → tests_chars w ≡ result }
{
    match what {
        What::Chars(_) => true,
        _ => false,
    }
}

/// Whether an operand may be assigned to this type.
pub fn may_assign<'a>(scope: &Scope<'a>, to: TypeRef, x: &Operand) -> bool
    ensures { (a : Judgement) → Stands scope.now x.now a → judged_assign (known_of scope.now.types.now) (type_shape (table_of scope.now) to) a ≡ result }
{
    scope.types.assignable(to, x.of) && !is_local_code(scope, &x.what)
}

// An argument for a VAR parameter of this type.
fn reference<'a>(scope: &Scope<'a>, to: TypeRef, x: Operand) -> Argument
    ensures { (a : Judgement) → Stands scope.now x a → IsArgument scope.now result (reference_from (type_shape (table_of scope.now) to) a) }
{
    match to {
        TypeRef::Open(_) => Argument::ByOpen(designator(scope, x)),
        TypeRef::Record(_) => Argument::ByRecord(designator(scope, x)),
        _ => Argument::ByPlace(designator(scope, x)),
    }
}

// And for a value parameter.
fn passed<'a>(
    scope: &Scope<'a>,
    alloc: Global,
    to: TypeRef,
    x: Operand,
) -> Result<Argument, AllocError>
    ensures { IfOk result (λ e. (a : Judgement) → Stands scope.now x a → IsArgument scope.now e (passed_from (type_shape (table_of scope.now) to) a)) }
{
    match to {
        TypeRef::Open(_) => Ok(Argument::ByOpen(designator(scope, x))),
        TypeRef::Record(_) => Ok(Argument::ByPlace(designator(scope, x))),
        TypeRef::Array { .. } => Ok(Argument::ByPlace(designator(scope, x))),
        _ => {
            let value = stored(scope, alloc, to, x)?;
            Ok(Argument::ByValue(value.form))
        }
    }
}

// A string, for an open array of CHAR.
fn is_open_text<'a>(scope: &Scope<'a>, to: TypeRef, x: &Operand) -> bool
    ensures { (a : Judgement) → Stands scope.now x.now a → tests_open_text (type_shape (table_of scope.now) to) a.what ≡ result }
{
    match to {
        TypeRef::Open(element) => {
            scope.types.entry(element).is_char_only() && is_chars(scope, &x.what)
        }
        _ => false,
    }
}

// Whether an operand may be the argument of a value parameter of this type.
fn may_pass<'a>(scope: &Scope<'a>, to: TypeRef, x: &Operand) -> bool
    ensures { (a : Judgement) → Stands scope.now x.now a → judged_pass (known_of scope.now.types.now) (type_shape (table_of scope.now) to) a ≡ result }
{
    is_open_text(scope, to, x)
        || if to.is_scalar() {
            may_assign(scope, to, x)
        } else {
            x.usage.is_variable() && scope.types.may_name(to, x.of)
        }
}

// For a VAR parameter: 40 and 33 unless it is a variable that may be written, 31 unless its type may be named so.
fn bound_by_name<'a>(scope: &Scope<'a>, to: TypeRef, x: Given) -> Result<Argument, CheckFault>
    ensures { (a : JudgedGiven) → IsGiven scope.now x a → Answers (IsArgument scope.now) (judged_bound (world_of scope.now) true (type_shape (table_of scope.now) to) a) result }
{
    let Given { symbol, operand } = x;
    if !operand.usage.is_variable() {
        Err(scope.source.fault(40, symbol))
    } else if operand.usage.is_read_only() {
        Err(scope.source.fault(33, symbol))
    } else if operand.usage.is_narrowed() || !scope.types.may_name(to, operand.of) {
        Err(scope.source.fault(31, symbol))
    } else {
        Ok(reference(scope, to, operand))
    }
}

// For a value parameter: 31 unless it may be passed.
fn bound_by_value<'a>(
    scope: &Scope<'a>,
    alloc: Global,
    to: TypeRef,
    x: Given,
) -> Result<Argument, CheckFault>
    ensures { (a : JudgedGiven) → IsGiven scope.now x a → Answers (IsArgument scope.now) (judged_bound (world_of scope.now) false (type_shape (table_of scope.now) to) a) result }
{
    let Given { symbol, operand } = x;
    if may_pass(scope, to, &operand) {
        let argument = passed(scope, alloc, to, operand)?;
        Ok(argument)
    } else {
        Err(scope.source.fault(31, symbol))
    }
}

/// An argument for its parameter.
pub fn bound<'a>(
    scope: &Scope<'a>,
    alloc: Global,
    is_var: bool,
    to: TypeRef,
    x: Given,
) -> Result<Argument, CheckFault>
    ensures { (a : JudgedGiven) → IsGiven scope.now x a → Answers (IsArgument scope.now) (judged_bound (world_of scope.now) is_var (type_shape (table_of scope.now) to) a) result }
{
    if is_var {
        bound_by_name(scope, to, x)
    } else {
        bound_by_value(scope, alloc, to, x)
    }
}
