//! What is known of types.

ghost use Rattle.std.specs.Prelude.{◌≡◌, []};
ghost use Rattle.check_types.specs.TableFacts.{IsMeant, IsApart};

use crate::fields::Fields;
use crate::types::TypeRef;
use items::Items;
use ob_types::{Extent, Types};
use std::alloc::Global;

/// A field that a record type adds.
#[derive(Drop)]
pub struct Added {
    pub name: Items<u8>,
    pub exported: bool,
    pub of: TypeRef,
}

/// A record type: the module that declares it, itself and its bases by their numbers, the fields that it adds, all its
/// fields by their names, and what it takes in cells and in bytes.
#[derive(Drop)]
pub struct Layout {
    pub module_number: u32,
    pub line: Vec<u32>,
    pub added: Vec<Added>,
    pub fields: Fields,
    pub cells: u64,
    pub extent: Extent,
}

/// The types by number, as the program has them and as the checker works with them; the record types by number, and of
/// each pointer type the record type that it points to, once this is known.
#[derive(Drop)]
pub struct TypeTable {
    pub types: Types,
    pub entries: Vec<TypeRef>,
    pub layouts: Vec<Layout>,
    pub bases: Vec<Option<u32>>,
    pub ghost meant: { IsMeant types entries.items },
    pub ghost apart: { IsApart types },
}

impl TypeTable {
    /// No types; takes no memory.
    pub fn new(alloc: Global) -> TypeTable
        ensures { result.entries.items ≡ [] }
    {
        TypeTable {
            types: Types::new(alloc),
            entries: Vec::new(alloc),
            layouts: Vec::new(alloc),
            bases: Vec::new(alloc),
        }
    }
}
