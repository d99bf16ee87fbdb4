//! One more entry of a table.

ghost use Rattle.std.specs.Prelude.{◌≡◌, ◌<◌, ◌-◌, ℕ, true, [], ◌∷◌, ◌++◌, Some, None, length, take, slice_get, slice_set, OnOk, OnErr};
ghost use Rattle.check_types.specs.TypeMeaning.{kind_of_type};
ghost use Rattle.table_builder.specs.Growing.{with_kind, with_record_type, with_procedure_type};
ghost use Rattle.table_builder.specs.Sound.{IsSound, IsNext, IsNewSignature};

use check_types::{Layout, TypeRef, TypeTable};
use ob_types::{RecordType, Signature, TypeKind, Types};
use outside::Memory;

// One more type, at the next number.
pub fn push_entry(table: &mut TypeTable, of: TypeRef) -> Result<(), Memory>
    requires sound { IsSound table.old.types table.old.entries.items table.old.bases.items }
    requires next { IsNext table.old.types.signatures table.old.entries.items of }
    ensures entries { OnOk result (table.new.entries.items ≡ table.old.entries.items ++ of ∷ []) }
    ensures types { OnOk result (table.new.types ≡ with_kind table.old.types (kind_of_type table.old.bases.items of)) }
    ensures sound { OnOk result (IsSound table.new.types table.new.entries.items table.new.bases.items) }
    ensures same_entries { OnErr result (table.new.entries.items ≡ table.old.entries.items) }
    ensures same_types { OnErr result (table.new.types ≡ table.old.types) }
    ensures layouts { table.new.layouts ≡ table.old.layouts }
    ensures bases { table.new.bases ≡ table.old.bases }
{
    let kind = table.kind_of(of);
    table.entries.push(of)?;
    match table.types.push_kind(kind) {
        Ok(()) => Ok(()),
        Err(memory) => {
            table.entries.pop();
            Err(memory)
        }
    }
}

// The last record type goes.
fn drop_record(types: &mut Types)
    ensures { types.new ≡ record types.old { records = take (length types.old.records - 1) types.old.records } }
{
    let kinds = types.kinds().len();
    let records = types.records().len();
    let signatures = types.signatures().len();
    types.truncate(kinds, records.saturating_sub(1), signatures);
}

// The last procedure type goes.
fn drop_signature(types: &mut Types)
    ensures { types.new ≡ record types.old { signatures = take (length types.old.signatures - 1) types.old.signatures } }
{
    let kinds = types.kinds().len();
    let records = types.records().len();
    let signatures = types.signatures().len();
    types.truncate(kinds, records, signatures.saturating_sub(1));
}

// One more record type in the program's table, and its entry; or neither.
fn push_declared(table: &mut TypeTable, declared: RecordType, r: u32) -> Result<(), Memory>
    requires sound { IsSound table.old.types table.old.entries.items table.old.bases.items }
    requires next { IsNext table.old.types.signatures table.old.entries.items (TypeRef.Record r) }
    ensures entries { OnOk result (table.new.entries.items ≡ table.old.entries.items ++ TypeRef.Record r ∷ []) }
    ensures types { OnOk result (table.new.types ≡ with_record_type table.old.types r declared) }
    ensures sound { OnOk result (IsSound table.new.types table.new.entries.items table.new.bases.items) }
    ensures same_entries { OnErr result (table.new.entries.items ≡ table.old.entries.items) }
    ensures same_types { OnErr result (table.new.types ≡ table.old.types) }
    ensures layouts { table.new.layouts ≡ table.old.layouts }
    ensures bases { table.new.bases ≡ table.old.bases }
{
    table.types.push_record(declared)?;
    match push_entry(table, TypeRef::Record(r)) {
        Ok(()) => Ok(()),
        Err(memory) => {
            drop_record(&mut table.types);
            Err(memory)
        }
    }
}

/// One more record type: what is known of it, what the program has, and its entry; or nothing.
pub fn push_record(
    table: &mut TypeTable,
    layout: Layout,
    declared: RecordType,
    r: u32,
) -> Result<(), Memory>
    requires sound { IsSound table.old.types table.old.entries.items table.old.bases.items }
    requires next { IsNext table.old.types.signatures table.old.entries.items (TypeRef.Record r) }
    ensures entries { OnOk result (table.new.entries.items ≡ table.old.entries.items ++ TypeRef.Record r ∷ []) }
    ensures types { OnOk result (table.new.types ≡ with_record_type table.old.types r declared) }
    ensures layouts { OnOk result (table.new.layouts.items ≡ table.old.layouts.items ++ layout ∷ []) }
    ensures sound { OnOk result (IsSound table.new.types table.new.entries.items table.new.bases.items) }
    ensures same_entries { OnErr result (table.new.entries.items ≡ table.old.entries.items) }
    ensures same_types { OnErr result (table.new.types ≡ table.old.types) }
    ensures same_layouts { OnErr result (table.new.layouts.items ≡ table.old.layouts.items) }
    ensures bases { table.new.bases ≡ table.old.bases }
{
    table.layouts.push(layout)?;
    match push_declared(table, declared, r) {
        Ok(()) => Ok(()),
        Err(memory) => {
            table.layouts.pop();
            Err(memory)
        }
    }
}

/// One more pointer type, whose base isn't known yet; or none.
pub fn push_pointer(table: &mut TypeTable, p: u32) -> Result<(), Memory>
    requires sound { IsSound table.old.types table.old.entries.items table.old.bases.items }
    requires next { IsNext table.old.types.signatures table.old.entries.items (TypeRef.Pointer p) }
    requires number { p ≡ length table.old.bases.items }
    ensures entries { OnOk result (table.new.entries.items ≡ table.old.entries.items ++ TypeRef.Pointer p ∷ []) }
    ensures types { OnOk result (table.new.types ≡ with_kind table.old.types (TypeKind.Pointer 0)) }
    ensures bases { OnOk result (table.new.bases.items ≡ table.old.bases.items ++ None ∷ []) }
    ensures sound { OnOk result (IsSound table.new.types table.new.entries.items table.new.bases.items) }
    ensures same_entries { OnErr result (table.new.entries.items ≡ table.old.entries.items) }
    ensures same_types { OnErr result (table.new.types ≡ table.old.types) }
    ensures same_bases { OnErr result (table.new.bases.items ≡ table.old.bases.items) }
    ensures layouts { table.new.layouts ≡ table.old.layouts }
{
    table.bases.push(None)?;
    match push_entry(table, TypeRef::Pointer(p)) {
        Ok(()) => Ok(()),
        Err(memory) => {
            table.bases.pop();
            Err(memory)
        }
    }
}

/// One more procedure type: its signature and its entry; or neither.
pub fn push_procedure(table: &mut TypeTable, signature: Signature, g: u32) -> Result<(), Memory>
    requires sound { IsSound table.old.types table.old.entries.items table.old.bases.items }
    requires new { IsNewSignature table.old.types.signatures signature }
    requires next { IsNext (table.old.types.signatures ++ signature ∷ []) table.old.entries.items (TypeRef.Procedure g) }
    ensures entries { OnOk result (table.new.entries.items ≡ table.old.entries.items ++ TypeRef.Procedure g ∷ []) }
    ensures types { OnOk result (table.new.types ≡ with_procedure_type table.old.types g signature) }
    ensures sound { OnOk result (IsSound table.new.types table.new.entries.items table.new.bases.items) }
    ensures same_entries { OnErr result (table.new.entries.items ≡ table.old.entries.items) }
    ensures same_types { OnErr result (table.new.types ≡ table.old.types) }
    ensures layouts { table.new.layouts ≡ table.old.layouts }
    ensures bases { table.new.bases ≡ table.old.bases }
{
    table.types.push_signature(signature)?;
    match push_entry(table, TypeRef::Procedure(g)) {
        Ok(()) => Ok(()),
        Err(memory) => {
            drop_signature(&mut table.types);
            Err(memory)
        }
    }
}

/// What a pointer type points to, whose number is n.
pub fn set_target(table: &mut TypeTable, n: u32, p: u32, r: u32)
    requires sound { IsSound table.old.types table.old.entries.items table.old.bases.items }
    requires entry { slice_get table.old.entries.items n ≡ Some (TypeRef.Pointer p) }
    requires there { p < length table.old.bases.items }
    ensures types { table.new.types ≡ record table.old.types { kinds = slice_set table.old.types.kinds n (TypeKind.Pointer r) } }
    ensures bases { table.new.bases.items ≡ slice_set table.old.bases.items p (Some r) }
    ensures sound { IsSound table.new.types table.new.entries.items table.new.bases.items }
    ensures entries { table.new.entries ≡ table.old.entries }
    ensures layouts { table.new.layouts ≡ table.old.layouts }
{
    table.bases[p as usize] = Some(r);
    table.types.set_kind(n as usize, TypeKind::Pointer(r));
}

/// What is known of a record type, and what the program has.
pub fn set_layout(table: &mut TypeTable, r: u32, layout: Layout, declared: RecordType)
    requires sound { IsSound table.old.types table.old.entries.items table.old.bases.items }
    requires layout { r < length table.old.layouts.items }
    requires declared { r < length table.old.types.records }
    ensures types { table.new.types ≡ record table.old.types { records = slice_set table.old.types.records r declared } }
    ensures layouts { table.new.layouts.items ≡ slice_set table.old.layouts.items r layout }
    ensures sound { IsSound table.new.types table.new.entries.items table.new.bases.items }
    ensures entries { table.new.entries ≡ table.old.entries }
    ensures bases { table.new.bases ≡ table.old.bases }
{
    table.layouts[r as usize] = layout;
    table.types.set_record(r as usize, declared);
}
