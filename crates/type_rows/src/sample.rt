//! The table, and the calls on it.

ghost use Rattle.std.specs.Prelude.{◌≡◌, ◌<◌, ◌++◌, take, drop, map, length, Option, Some, None, IfOk, OnOk};
ghost use Rattle.ob_types.specs.Layout.{cells as cells_of};
ghost use Rattle.ob_types.specs.Trees.{bytes as bytes_of, align as align_of};
ghost use Rattle.ob_types.specs.Assignable.{same, extends as extends_type, assignable};
ghost use Rattle.type_rows.specs.Sample.{basic, structured, field, formal, sample};

use items::Items;
use ob_types::{Extent, Field, Formal, Mode, RecordType, Signature, TypeKind, Types};
use outside::Memory;
use std::alloc::Global;

fn push_kinds(types: &mut Types, kinds: &[TypeKind]) -> Result<(), Memory>
    ensures { OnOk result (types.new ≡ record types.old { kinds = types.old.kinds ++ kinds.now }) }
{
    for kind in kinds {
        types.push_kind(*kind)?;
    }
    Ok(())
}

/// A record type with fields of these types.
fn record_type(
    alloc: Global,
    base: Option<u32>,
    level: u32,
    fields: &[u32],
    cells: u32,
    extent: Extent,
) -> Result<RecordType, Memory>
    ensures { IfOk result (λ r. r ≡ record { «module» = 0; base = base; level = level; fields = map field fields.now; cells = cells; extent = extent }) }
{
    let mut found = Vec::new(alloc);
    for type_number in fields {
        found.push(Field {
            name: Items::new(alloc),
            exported: false,
            type_number: *type_number,
        })?;
    }
    Ok(RecordType {
        module: 0,
        base,
        level,
        fields: Items::from_vec(found),
        cells,
        extent,
    })
}

/// A procedure type with one parameter, an INTEGER.
fn signature(alloc: Global, variable: bool) -> Result<Signature, Memory>
    ensures { IfOk result (λ s. s ≡ record { formals = formal variable; result = 6 }) }
{
    let mut formals = Items::new(alloc);
    formals.push(Formal {
        mode: if variable { Mode::Place } else { Mode::Value },
        variable,
        type_number: 0,
    })?;
    Ok(Signature { formals, result: 6 })
}

fn extent(bytes: u32, wide: bool) -> Extent
    ensures { result ≡ record { bytes = bytes; wide = wide } }
{
    Extent { bytes, wide }
}

fn push_records(types: &mut Types, alloc: Global) -> Result<(), Memory>
    ensures { OnOk result (types.new ≡ record types.old { records = types.old.records ++ take 3 sample.records }) }
{
    types.push_record(record_type(alloc, None, 0, &[0, 7], 4, extent(32, true))?)?;
    types.push_record(record_type(alloc, Some(0), 1, &[2], 5, extent(40, true))?)?;
    types.push_record(record_type(alloc, Some(1), 2, &[], 5, extent(40, true))?)?;
    Ok(())
}

fn push_packed_records(types: &mut Types, alloc: Global) -> Result<(), Memory>
    ensures { OnOk result (types.new ≡ record types.old { records = types.old.records ++ drop 3 sample.records }) }
{
    types.push_record(record_type(alloc, None, 0, &[2, 0, 2], 3, extent(24, true))?)?;
    types.push_record(record_type(alloc, None, 0, &[1, 2], 2, extent(2, false))?)?;
    types.push_record(record_type(alloc, Some(3), 1, &[2], 4, extent(32, true))?)?;
    types.push_record(record_type(alloc, None, 0, &[2, 2, 2], 3, extent(3, false))?)?;
    Ok(())
}

/// The table.
pub fn sample_types(alloc: Global) -> Result<Types, Memory>
    ensures { IfOk result (λ types. types ≡ sample) }
{
    let mut types = Types::new(alloc);
    push_basic(&mut types)?;
    push_structured(&mut types)?;
    push_records(&mut types, alloc)?;
    push_packed_records(&mut types, alloc)?;
    types.push_signature(signature(alloc, false)?)?;
    types.push_signature(signature(alloc, true)?)?;
    Ok(types)
}

fn push_basic(types: &mut Types) -> Result<(), Memory>
    ensures { OnOk result (types.new ≡ record types.old { kinds = types.old.kinds ++ basic }) }
{
    push_kinds(
        types,
        &[
            TypeKind::Int,
            TypeKind::Bool,
            TypeKind::Char,
            TypeKind::Byte,
            TypeKind::Set,
            TypeKind::Nil,
            TypeKind::Nothing,
        ],
    )
}

fn array(length: u32, element: u32) -> TypeKind
    ensures { result ≡ TypeKind.Array (Some length) element }
{
    TypeKind::Array {
        length: Some(length),
        element,
    }
}

fn open_array(element: u32) -> TypeKind
    ensures { result ≡ TypeKind.Array None element }
{
    TypeKind::Array {
        length: None,
        element,
    }
}

fn push_structured(types: &mut Types) -> Result<(), Memory>
    ensures { OnOk result (types.new ≡ record types.old { kinds = types.old.kinds ++ structured }) }
{
    push_kinds(
        types,
        &[
            array(3, 0),
            open_array(0),
            array(4, 2),
            open_array(2),
            array(2, 7),
            TypeKind::Record(0),
            TypeKind::Record(1),
            TypeKind::Record(2),
            TypeKind::Pointer(0),
            TypeKind::Pointer(1),
            TypeKind::Pointer(2),
            TypeKind::Pointer(0),
            TypeKind::Procedure(0),
            TypeKind::Procedure(1),
            TypeKind::Text(1),
            TypeKind::Text(3),
            TypeKind::Text(4),
            array(9, 2),
            TypeKind::Record(3),
            TypeKind::Record(4),
            array(3, 26),
            TypeKind::Record(5),
            TypeKind::Record(6),
            array(5, 29),
            array(2, 30),
        ],
    )
}

/// Of the table: the cells of a type.
pub fn cells(types: &Types, t: u32) -> u64
    requires table { types.now ≡ sample }
    requires known { t < 32 }
    ensures { result ≡ cells_of sample t }
{
    types.cells(t)
}

/// The bytes of a type.
pub fn bytes(types: &Types, t: u32) -> u64
    requires table { types.now ≡ sample }
    requires known { t < 32 }
    ensures { result ≡ bytes_of sample t }
{
    types.bytes(t)
}

/// Of what its beginning is a multiple.
pub fn align(types: &Types, t: u32) -> u64
    requires table { types.now ≡ sample }
    requires known { t < 32 }
    ensures { result ≡ align_of sample t }
{
    types.align(t)
}

/// Whether two types are the same.
pub fn is_same(types: &Types, a: u32, b: u32) -> bool
    requires { types.now ≡ sample }
    ensures { result ≡ same sample a b }
{
    types.same(a, b)
}

/// Whether type a is b or an extension of it.
pub fn extends(types: &Types, a: u32, b: u32) -> bool
    requires { types.now ≡ sample }
    ensures { result ≡ extends_type sample a b }
{
    types.extends(a, b)
}

/// Whether a value of one type may be assigned to a variable of another.
pub fn is_assignable(types: &Types, to: u32, from: u32) -> bool
    requires { types.now ≡ sample }
    ensures { result ≡ assignable sample to from }
{
    types.assignable(to, from)
}
