//! Guards and type tests.

ghost use Rattle.std.specs.Prelude.{◌≡◌};
ghost use Rattle.ob_judge.specs.Judged.{Keeps};
ghost use Rattle.ob_judge.specs.Shapes.{Boolean, Record, Pointer};
ghost use Rattle.ob_judge.specs.Image.{IsParameter};
ghost use Rattle.ob_judge.specs.Scopes.{place};
ghost use Rattle.ob_judge.specs.Operands.{Operand as Judgement, value as value_of, designator_of};
ghost use Rattle.ob_judge.specs.Parts.{tested_tag as judged_tag, guarded as judged_guarded, test_of as judged_test, tested as judged_tested};
ghost use Rattle.check_types.specs.steps.Answers.{Answers};
ghost use Rattle.check_types.specs.TypeMeaning.{type_shape};
ghost use Rattle.check_types.specs.names.Worlds.{table_of, world_of};
ghost use Rattle.check_operands.specs.Operands.{use_of, Stands, Judges};
ghost use Rattle.check_selectors.specs.parts.Parts.{IsPart, IsNamedAt, IsGuardedForm, JudgesPart, guard_in};

use crate::parts::part::{Part, Reach, place_of};
use check_operands::operators::value;
use check_operands::trees::{Place, is_pointer};
use check_operands::{Operand, Use, designator, form};
use check_types::TypeRef;
use check_types::names::Scope;
use check_types::steps::CheckFault;
use items::Items;
use ob_types::Expr;
use std::alloc::Global;

// The record type that a guard or a test asks for, if it may: the type extends that of a pointer, or of a VAR record
// parameter.
fn tested_tag<'a>(scope: &Scope<'a>, of: TypeRef, usage: Use, t: TypeRef) -> Option<u32>
    ensures { (a : Judgement) → type_shape (table_of scope.now) of ≡ a.shape → use_of usage ≡ a.use_
        → judged_tag scope.now.source.now (world_of scope.now) a (type_shape (table_of scope.now) t) ≡ result }
{
    match t {
        TypeRef::Pointer(_) => {
            if of.is_pointer() && scope.types.extends(t, of) {
                scope.types.target_of(t)
            } else {
                None
            }
        }
        TypeRef::Record(r) => {
            if usage.is_tagged() && scope.types.extends(t, of) {
                Some(r)
            } else {
                None
            }
        }
        _ => None,
    }
}

// The first guard of a pointer that is there.
fn first_guard<'a>(
    scope: &Scope<'a>,
    alloc: Global,
    place: Place,
    own: TypeRef,
    pointer: u32,
    r: u32,
) -> Result<Part, CheckFault>
    ensures { (a : Judgement) → type_shape (table_of scope.now) own ≡ a.shape → IsNamedAt scope.now place a.what
        → Answers (IsPart scope.now) (guard_in scope.now (Pointer pointer) r a) result }
{
    further_guard(scope, place, own, Items::new(alloc), pointer, r)
}

// One guard more.
fn further_guard<'a>(
    scope: &Scope<'a>,
    place: Place,
    own: TypeRef,
    mut tags: Items<u32>,
    pointer: u32,
    r: u32,
) -> Result<Part, CheckFault>
    ensures { (a : Judgement) → IsGuardedForm scope.now place own tags a → Answers (IsPart scope.now) (guard_in scope.now (Pointer pointer) r a) result }
{
    tags.push(r)?;
    Ok(Part {
        of: TypeRef::Pointer(pointer),
        reach: Reach::Guarded { place, own, tags },
        usage: Use::Value,
    })
}

// A guard of a pointer.
fn pointer_guard<'a>(
    scope: &Scope<'a>,
    alloc: Global,
    x: Part,
    pointer: u32,
    r: u32,
) -> Result<Part, CheckFault>
    ensures { JudgesPart scope.now x (guard_in scope.now (Pointer pointer) r) result }
{
    let Part { of, reach, .. } = x;
    match reach {
        Reach::Named(place) => first_guard(scope, alloc, place, of, pointer, r),
        Reach::Guarded { place, own, tags } => further_guard(scope, place, own, tags, pointer, r),
    }
}

// A guard of a VAR record parameter.
fn record_guard<'a>(
    scope: &Scope<'a>,
    alloc: Global,
    x: Part,
    t: u32,
    r: u32,
) -> Result<Part, CheckFault>
    ensures { JudgesPart scope.now x (guard_in scope.now (Record t) r) result }
{
    let Part { reach, .. } = x;
    let at = place_of(scope, reach).narrow(alloc, r)?;
    Ok(Part {
        of: TypeRef::Record(t),
        reach: Reach::Named(at),
        usage: Use::Variable {
            read_only: false,
            tagged: true,
            narrowed: false,
        },
    })
}

/// A guard: 31 unless it may stand there.
pub fn guarded<'a>(
    scope: &Scope<'a>,
    alloc: Global,
    symbol: u32,
    x: Part,
    t: TypeRef,
) -> Result<Part, CheckFault>
    ensures { JudgesPart scope.now x (λ a. judged_guarded scope.now.source.now (world_of scope.now)
        (place scope.now.source.now symbol) a (type_shape (table_of scope.now) t)) result }
{
    match tested_tag(scope, x.of, x.usage, t) {
        None => Err(scope.source.fault(31, symbol)),
        Some(r) => match t {
            TypeRef::Pointer(pointer) => pointer_guard(scope, alloc, x, pointer, r),
            TypeRef::Record(record_type) => record_guard(scope, alloc, x, record_type, r),
            _ => Err(scope.source.fault(31, symbol)),
        },
    }
}

// A test of a pointer.
fn pointer_test<'a>(
    scope: &Scope<'a>,
    alloc: Global,
    x: Operand,
    pointer: u32,
    r: u32,
) -> Result<Operand, CheckFault>
    ensures { Judges scope.now x (λ a. Keeps (value_of Boolean (judged_test a (Pointer pointer) r))) result }
{
    let tree = is_pointer(alloc, form(scope, x), r)?;
    Ok(value(TypeRef::Bool, tree))
}

// A test of a VAR record parameter.
fn record_test<'a>(scope: &Scope<'a>, x: Operand, r: u32) -> Operand
    ensures { (a : Judgement) → Stands scope.now x a → Stands scope.now result (value_of Boolean (IsParameter (designator_of a) r)) }
{
    value(TypeRef::Bool, Expr::IsParameter(designator(scope, x), r))
}

/// A type test: 31 unless it may stand there.
pub fn tested<'a>(
    scope: &Scope<'a>,
    alloc: Global,
    symbol: u32,
    x: Operand,
    t: TypeRef,
) -> Result<Operand, CheckFault>
    ensures { Judges scope.now x (λ a. judged_tested scope.now.source.now (world_of scope.now) (place scope.now.source.now symbol) a (type_shape (table_of scope.now) t)) result }
{
    match tested_tag(scope, x.of, x.usage, t) {
        None => Err(scope.source.fault(31, symbol)),
        Some(r) => match t {
            TypeRef::Pointer(pointer) => pointer_test(scope, alloc, x, pointer, r),
            TypeRef::Record(_) => Ok(record_test(scope, x, r)),
            _ => Err(scope.source.fault(31, symbol)),
        },
    }
}
