//! Fields.

ghost use Rattle.std.specs.Prelude.{◌≡◌, Option, option_map, slice_get};
ghost use Rattle.ob_judge.specs.Scopes.{place};
ghost use Rattle.ob_judge.specs.Parts.{field as judged_field, fields_of as fields_from, followed as followed_from};
ghost use Rattle.check_types.specs.Known.{known_of, field_of};
ghost use Rattle.check_types.specs.names.Worlds.{table_of, world_of};
ghost use Rattle.check_selectors.specs.parts.Parts.{JudgesPart};
ghost use Rattle.check_selectors.specs.parts.Judged.{field_in as judged_field_in, field_known as judged_field_known};

use crate::parts::elements::followed;
use crate::parts::part::{Part, Reach, place_of};
use check_operands::Use;
use check_types::names::Scope;
use check_types::steps::CheckFault;
use check_types::{FieldEntry, TypeRef};
use std::alloc::Global;

// A field of a record type by its name.
fn find<'a>(scope: &Scope<'a>, record_type: u32, name: &[u8]) -> Option<FieldEntry>
    ensures { option_map (field_of (table_of scope.now)) result ≡ fields_from
        (slice_get (known_of scope.now.types.now).records record_type) name.now }
{
    match scope.types.layouts.get(record_type as usize) {
        Some(layout) => layout.fields.get(name),
        None => None,
    }
}

// A field that is known.
fn known<'a>(
    scope: &Scope<'a>,
    alloc: Global,
    x: Part,
    found: FieldEntry,
) -> Result<Part, CheckFault>
    ensures { JudgesPart scope.now x (λ a. judged_field_known scope.now.source.now (world_of scope.now) a (field_of (table_of scope.now) found)) result }
{
    let read_only = x.usage.is_read_only();
    let Part { reach, .. } = x;
    let at = place_of(scope, reach).field(alloc, found.adder, found.number)?;
    Ok(Part {
        of: found.of,
        reach: Reach::Named(at),
        usage: Use::Variable {
            read_only,
            tagged: false,
            narrowed: false,
        },
    })
}

// A field of a record of this type: 30 where it has none of this name, 34 where it isn't seen here.
fn field_in<'a>(
    scope: &Scope<'a>,
    alloc: Global,
    i: u32,
    record_type: u32,
    x: Part,
) -> Result<Part, CheckFault>
    ensures { JudgesPart scope.now x (judged_field_in scope.now.source.now (world_of scope.now) i record_type) result }
{
    match find(scope, record_type, scope.source.spelled(i)) {
        None => Err(scope.source.fault(30, i)),
        Some(found) => {
            if found.exported || found.owner == scope.module_number {
                known(scope, alloc, x, found)
            } else {
                Err(scope.source.fault(34, i))
            }
        }
    }
}

// Of what a pointer points to.
fn field_behind<'a>(
    scope: &Scope<'a>,
    alloc: Global,
    i: u32,
    record_type: u32,
    x: Part,
) -> Result<Part, CheckFault>
    ensures { JudgesPart scope.now x (λ a. judged_field_in scope.now.source.now (world_of scope.now) i record_type
        (followed_from a record_type)) result }
{
    let target = followed(alloc, scope, record_type, x)?;
    field_in(scope, alloc, i, record_type, target)
}

/// A field: 31 unless a record or a pointer to one stands before it.
pub fn field<'a>(
    scope: &Scope<'a>,
    alloc: Global,
    symbol: u32,
    i: u32,
    x: Part,
) -> Result<Part, CheckFault>
    ensures { JudgesPart scope.now x (judged_field scope.now.source.now (world_of scope.now) (place scope.now.source.now symbol) i) result }
{
    match x.of {
        TypeRef::Record(record_type) => field_in(scope, alloc, i, record_type, x),
        TypeRef::Pointer(pointer) => match scope.types.base_of(pointer) {
            None => Err(scope.source.fault(31, symbol)),
            Some(record_type) => field_behind(scope, alloc, i, record_type, x),
        },
        _ => Err(scope.source.fault(31, symbol)),
    }
}
