//! A table with the basic types alone.

ghost use Rattle.std.specs.Prelude.{◌≡◌, [], OnOk};
ghost use Rattle.table_builder.specs.Index.{basic_types};
ghost use Rattle.table_builder.specs.Sound.{IsSound};

use crate::entries::push_entry;
use check_types::{TypeRef, TypeTable};
use ob_types::Types;
use outside::Memory;
use std::alloc::Global;

// No types.
pub fn empty_table(alloc: Global) -> TypeTable
    ensures types { result.types ≡ record { kinds = []; records = []; signatures = [] } }
    ensures entries { result.entries.items ≡ [] }
    ensures layouts { result.layouts.items ≡ [] }
    ensures bases { result.bases.items ≡ [] }
{
    TypeTable {
        types: Types::new(alloc),
        entries: Vec::new(alloc),
        layouts: Vec::new(alloc),
        bases: Vec::new(alloc),
    }
}

// These types, one after the other.
fn push_all(table: &mut TypeTable, types: &[TypeRef]) -> Result<(), Memory>
    requires sound { IsSound table.old.types table.old.entries.items table.old.bases.items }
    requires none { table.old.entries.items ≡ [] }
    requires basic { types.now ≡ basic_types }
    ensures entries { OnOk result (table.new.entries.items ≡ types.now) }
    ensures sound { OnOk result (IsSound table.new.types table.new.entries.items table.new.bases.items) }
    ensures records { OnOk result (table.new.types.records ≡ table.old.types.records) }
    ensures signatures { OnOk result (table.new.types.signatures ≡ table.old.types.signatures) }
    ensures layouts { table.new.layouts ≡ table.old.layouts }
    ensures bases { table.new.bases ≡ table.old.bases }
{
    for of in types {
        push_entry(table, *of)?;
    }
    Ok(())
}

/// The basic types, one after the other.
pub fn push_basics(table: &mut TypeTable) -> Result<(), Memory>
    requires sound { IsSound table.old.types table.old.entries.items table.old.bases.items }
    requires none { table.old.entries.items ≡ [] }
    ensures entries { OnOk result (table.new.entries.items ≡ basic_types) }
    ensures sound { OnOk result (IsSound table.new.types table.new.entries.items table.new.bases.items) }
    ensures records { OnOk result (table.new.types.records ≡ table.old.types.records) }
    ensures signatures { OnOk result (table.new.types.signatures ≡ table.old.types.signatures) }
    ensures layouts { table.new.layouts ≡ table.old.layouts }
    ensures bases { table.new.bases ≡ table.old.bases }
{
    push_all(
        table,
        &[
            TypeRef::Int,
            TypeRef::Bool,
            TypeRef::Char,
            TypeRef::Byte,
            TypeRef::Set,
            TypeRef::Nothing,
        ],
    )
}
