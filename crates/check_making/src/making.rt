//! The state between declarations.

use check_types::TypeRef;
use check_types::names::{Declared, KnownModule, Level};
use check_types::steps::Source;
use items::Items;
use ob_types::Characters;
use std::alloc::Global;
use std::collections::BTreeMap;
use table_builder::TableBuilder;

/// Where declarations stand: the module's text and its number, the bytes of all modules' texts by their numbers, the modules
/// before, and how many scopes at least are open round the innermost.
#[derive(Drop)]
pub struct Surroundings<'a> {
    pub alloc: Global,
    pub source: &'a Source<'a>,
    pub texts: &'a [Items<u8>],
    pub modules: &'a [KnownModule],
    pub module_number: u32,
    pub depth: usize,
}

/// A pointer type whose base is named, and declared later: its number and the symbol of the name.
#[derive(Clone, Copy)]
pub struct Forward {
    pub pointer: u32,
    pub name: u32,
}

/// Where a string stands: the number of its module, and the bytes of that module's text between which its characters are.
#[derive(Clone, Copy)]
pub struct TextPlace {
    pub module: u32,
    pub from: u32,
    pub to: u32,
}

/// A name that the module declares, and what it stands for.
#[derive(Drop)]
pub struct Offered {
    pub name: Items<u8>,
    pub declared: Declared,
}

/// What declarations have made so far: the types, the strings of constants with the place of each, the open scopes with the innermost last, the
/// procedure that is open, whether this is a TYPE part and which of its pointer types have no base yet, the names that
/// stand in the innermost scope with their symbols, how many scalar value parameters it has, and its variables; the names
/// of the module; and whether In was imported.
#[derive(Drop)]
pub struct Declaring {
    pub imports_in: bool,
    pub types: TableBuilder,
    pub strings: Vec<Characters>,
    pub places: Vec<TextPlace>,
    pub levels: Vec<Level>,
    pub procedure: Option<u32>,
    pub is_type_part: bool,
    pub forward: Vec<Forward>,
    pub standing: BTreeMap<Vec<u8>, u32>,
    pub values: u32,
    pub variables: Vec<TypeRef>,
    pub objects: Vec<Offered>,
}
