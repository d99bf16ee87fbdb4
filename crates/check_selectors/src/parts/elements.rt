//! Elements, fields, and what pointers point to.

ghost use Rattle.std.specs.Prelude.{Option};
ghost use Rattle.ob_judge.specs.Judged.{Keeps};
ghost use Rattle.ob_judge.specs.Shapes.{Record};
ghost use Rattle.ob_judge.specs.Scopes.{place};
ghost use Rattle.ob_judge.specs.Parts.{followed as followed_from, element as judged_element, target as judged_target};
ghost use Rattle.check_types.specs.names.Worlds.{world_of};
ghost use Rattle.check_selectors.specs.parts.Parts.{JudgesPart, JudgesElement, element_in};

use crate::parts::part::{Part, Reach, place_of};
use check_operands::{Operand, Use, form};
use check_types::TypeRef;
use check_types::names::Scope;
use check_types::steps::CheckFault;
use items::Items;
use std::alloc::Global;

// An element, by the array's length where its type has one.
fn indexed<'a>(
    scope: &Scope<'a>,
    alloc: Global,
    length: Option<u32>,
    element: u32,
    x: Part,
    i: Operand,
) -> Result<Part, CheckFault>
    ensures { JudgesElement scope.now x i (element_in scope.now length element) result }
{
    let read_only = x.usage.is_read_only();
    let Part { reach, .. } = x;
    let array = place_of(scope, reach);
    let index = form(scope, i);
    let at = array.index(alloc, length, element, index)?;
    Ok(Part {
        of: scope.types.entry(element),
        reach: Reach::Named(at),
        usage: Use::Variable {
            read_only,
            tagged: false,
            narrowed: false,
        },
    })
}

/// An element, after the index was walked: 31 at the designator, or at an index that is no number.
pub fn element<'a>(
    scope: &Scope<'a>,
    alloc: Global,
    symbol: u32,
    index_symbol: u32,
    x: Part,
    i: Operand,
) -> Result<Part, CheckFault>
    ensures { JudgesElement scope.now x i (judged_element
        (place scope.now.source.now symbol) (place scope.now.source.now index_symbol)) result }
{
    match x.of {
        TypeRef::Array { length, element } => {
            if i.of.is_number() {
                indexed(scope, alloc, Some(length), element, x, i)
            } else {
                Err(scope.source.fault(31, index_symbol))
            }
        }
        TypeRef::Open(element) => {
            if i.of.is_number() {
                indexed(scope, alloc, None, element, x, i)
            } else {
                Err(scope.source.fault(31, index_symbol))
            }
        }
        _ => Err(scope.source.fault(31, symbol)),
    }
}

/// What a pointer points to.
pub fn followed<'a>(
    alloc: Global,
    scope: &Scope<'a>,
    record_type: u32,
    x: Part,
) -> Result<Part, CheckFault>
    ensures { JudgesPart scope.now x (λ a. Keeps (followed_from a record_type)) result }
{
    let Part { reach, .. } = x;
    let at = match reach {
        Reach::Named(place) => place.dereference(alloc, Items::new(alloc))?,
        Reach::Guarded { place, tags, .. } => place.dereference(alloc, tags)?,
    };
    Ok(Part {
        of: TypeRef::Record(record_type),
        reach: Reach::Named(at),
        usage: Use::Variable {
            read_only: false,
            tagged: false,
            narrowed: false,
        },
    })
}

/// `^`: 31 unless a pointer stands before it.
pub fn target<'a>(
    scope: &Scope<'a>,
    alloc: Global,
    symbol: u32,
    x: Part,
) -> Result<Part, CheckFault>
    ensures { JudgesPart scope.now x (judged_target scope.now.source.now (world_of scope.now) (place scope.now.source.now symbol)) result }
{
    match scope.types.target_of(x.of) {
        None => Err(scope.source.fault(31, symbol)),
        Some(record_type) => followed(alloc, scope, record_type, x),
    }
}
