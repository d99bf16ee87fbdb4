//! Numbers of types and strings.

ghost use Rattle.std.specs.Prelude.{◌≡◌, IfOk, is_some, slice_get};
ghost use Rattle.ob_types.specs.Table.{Table};
ghost use Rattle.judged_tree.specs.TypeShapes.{shape_of, shape_of_kind};
ghost use Rattle.check_operands.specs.Operands.{texts_of};
ghost use Rattle.check_procedures.specs.numbers.Numbering.{LastsIn, KeepsMeaning, numbering_of};
ghost use Rattle.check_procedures.specs.numbers.Readings.{bases};

use check_operands::characters_of;
use check_types::TypeTable;
use check_types::names::Scope;
use items::Items;
use ob_types::{Base, Characters, TypeKind};
use outside::Memory;
use std::alloc::Global;

// The number of what a procedure without a result gives, in every table.
const NOTHING: u32 = 5;

// A number that no string and no procedure type has: each is counted by fewer.
const MISSING: u32 = u32::MAX;

/// A type's number that is in the table and means the same.
pub fn type_number(types: &TypeTable, number: u32) -> u32
    ensures { (v : Table) → LastsIn types.now v → shape_of v result ≡ shape_of types.now.types number }
{
    if (number as usize) < types.entries.len() {
        number
    } else {
        NOTHING
    }
}

// A procedure type that is in the table, or is in none.
fn signature_kind(types: &TypeTable, signature: u32) -> TypeKind
    ensures { (v : Table) → LastsIn types.now v → shape_of_kind v result ≡ shape_of_kind types.now.types (TypeKind.Procedure signature) }
{
    if (signature as usize) < types.types.signatures().len() {
        TypeKind::Procedure(signature)
    } else {
        TypeKind::Procedure(MISSING)
    }
}

/// What a type is, by numbers that are in the table.
pub fn type_kind(types: &TypeTable, kind: TypeKind) -> TypeKind
    ensures { (v : Table) → LastsIn types.now v → shape_of_kind v result ≡ shape_of_kind types.now.types kind }
{
    match kind {
        TypeKind::Array { length, element } => TypeKind::Array {
            length,
            element: type_number(types, element),
        },
        TypeKind::Procedure(signature) => signature_kind(types, signature),
        TypeKind::Int => TypeKind::Int,
        TypeKind::Bool => TypeKind::Bool,
        TypeKind::Char => TypeKind::Char,
        TypeKind::Byte => TypeKind::Byte,
        TypeKind::Set => TypeKind::Set,
        TypeKind::Nil => TypeKind::Nil,
        TypeKind::Text(count) => TypeKind::Text(count),
        TypeKind::Record(record) => TypeKind::Record(record),
        TypeKind::Pointer(record) => TypeKind::Pointer(record),
        TypeKind::Nothing => TypeKind::Nothing,
    }
}

// Whether a number is that of a string.
fn is_text<'a>(scope: &Scope<'a>, number: u32) -> bool
    ensures { result ≡ is_some (slice_get (texts_of scope.now) number) }
{
    let before = scope.source.count();
    (number as usize).saturating_sub(before) <= scope.strings.len()
}

// A use of a string, by its place among all uses so far.
fn text_use<'a>(
    scope: &Scope<'a>,
    alloc: Global,
    uses: &mut Items<Characters>,
    number: u32,
) -> Result<Base, Memory>
    ensures { IfOk result (λ base. KeepsMeaning bases (numbering_of scope.now)
        (record { tree = Base.Text number; made = base; before = uses.old; after = uses.new })) }
{
    if !is_text(scope, number) {
        return Ok(Base::Text(MISSING));
    }
    let place = uses.len();
    if place >= MISSING as usize {
        return Err(Memory);
    }
    uses.push(characters_of(scope, alloc, number)?)?;
    Ok(Base::Text(place as u32))
}

/// Where a designator begins.
pub fn renumbered_base<'a>(
    scope: &Scope<'a>,
    alloc: Global,
    uses: &mut Items<Characters>,
    base: Base,
) -> Result<Base, Memory>
    ensures { IfOk result (λ made. KeepsMeaning bases (numbering_of scope.now)
        (record { tree = base; made = made; before = uses.old; after = uses.new })) }
{
    match base {
        Base::Text(number) => {
            let made = text_use(scope, alloc, uses, number)?;
            Ok(made)
        }
        Base::Done => Ok(Base::Done),
        Base::Global { module, variable } => Ok(Base::Global { module, variable }),
        Base::Local(number) => Ok(Base::Local(number)),
        Base::Parameter(number) => Ok(Base::Parameter(number)),
    }
}
