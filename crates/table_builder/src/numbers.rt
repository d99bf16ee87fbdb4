//! Which number a type has.

ghost use Rattle.std.specs.Prelude.{◌≡◌, List, ℕ, [], ◌∷◌, ◌++◌, Some, None, OnOk, OnErr, cond};
ghost use Rattle.std.specs.Str.{bytes_eq};
ghost use Rattle.check_types.specs.steps.Maps.{at_bytes};
ghost use Rattle.table_builder.specs.Index.{number_in, array_parts, open_parts};
ghost use Rattle.table_builder.specs.Contents.{notes_of, IsNotedIn};

use check_types::TypeRef;
use outside::Memory;
use std::alloc::Global;
use std::collections::BTreeMap;

/// The numbers of types by what they are: of record, pointer and procedure types by their own numbers, of arrays by
/// their element type and their length, where they have one. The basic types come first.
#[derive(Drop)]
pub struct TypeNumbers {
    pub records: Vec<u32>,
    pub pointers: Vec<u32>,
    pub procedures: Vec<u32>,
    pub arrays: BTreeMap<Vec<u32>, u32>,
    pub signatures: BTreeMap<Vec<u32>, u32>,
}

// A number among these.
fn at(numbers: &[u32], i: u32) -> Option<u32>
    ensures { result ≡ Rattle.std.specs.Prelude.slice_get numbers.now i }
{
    match numbers.get(i as usize) {
        Some(n) => Some(*n),
        None => None,
    }
}

/// Notes a number, where none is noted.
pub fn note(
    map: &mut BTreeMap<Vec<u32>, u32>,
    alloc: Global,
    parts: &[u32],
    n: u32,
) -> Result<(), Memory>
    ensures ok { OnOk result (IsNotedIn map.old map.new parts.now n) }
    ensures err { OnErr result ((q : List ℕ) → at_bytes map.new q ≡ at_bytes map.old q) }
{
    let key = Vec::from_slice(alloc, parts)?;
    map.insert(key, n)?;
    Ok(())
}

/// Takes such a number away again.
pub fn forget(map: &mut BTreeMap<Vec<u32>, u32>, parts: &[u32])
    ensures { (q : List ℕ) → at_bytes map.new q ≡ cond (bytes_eq parts.now q) None (at_bytes map.old q) }
{
    map.remove(parts);
}

impl TypeNumbers {
    /// Nothing is noted.
    pub fn new(alloc: Global) -> TypeNumbers
        ensures { notes_of result ≡ record { records = []; pointers = []; procedures = []; arrays = λ q. None; signatures = λ q. None } }
    {
        TypeNumbers {
            records: Vec::new(alloc),
            pointers: Vec::new(alloc),
            procedures: Vec::new(alloc),
            arrays: BTreeMap::new(alloc),
            signatures: BTreeMap::new(alloc),
        }
    }

    // The number of an array by its parts.
    fn array(&self, parts: &[u32]) -> Option<u32>
        ensures { result ≡ at_bytes self.now.arrays parts.now }
    {
        self.arrays.get(parts).copied()
    }

    /// The number of a procedure type among these, by its parts.
    pub fn signature(&self, parts: &[u32]) -> Option<u32>
        ensures { result ≡ at_bytes self.now.signatures parts.now }
    {
        self.signatures.get(parts).copied()
    }

    /// The number of a type, if it has one.
    pub fn find(&self, of: TypeRef) -> Option<u32>
        ensures { result ≡ number_in (notes_of self.now) of }
    {
        match of {
            TypeRef::Int => Some(0),
            TypeRef::Bool => Some(1),
            TypeRef::Char => Some(2),
            TypeRef::Byte => Some(3),
            TypeRef::Set => Some(4),
            TypeRef::Nothing => Some(5),
            TypeRef::Nil => None,
            TypeRef::Text(_) => None,
            TypeRef::Array { length, element } => self.array(&[element, length]),
            TypeRef::Open(element) => self.array(&[element]),
            TypeRef::Record(r) => at(&self.records, r),
            TypeRef::Pointer(p) => at(&self.pointers, p),
            TypeRef::Procedure(g) => at(&self.procedures, g),
        }
    }

    /// Notes the number g of a procedure type by its parts, and the number n of the type.
    pub fn note_procedure(
        &mut self,
        alloc: Global,
        parts: &[u32],
        g: u32,
        n: u32,
    ) -> Result<(), Memory>
        ensures procedures { OnOk result (self.new.procedures.items ≡ self.old.procedures.items ++ n ∷ []) }
        ensures signatures { OnOk result (IsNotedIn self.old.signatures self.new.signatures parts.now g) }
        ensures others { self.new ≡ record self.old { procedures = self.new.procedures; signatures = self.new.signatures } }
        ensures same_procedures { OnErr result (self.new.procedures.items ≡ self.old.procedures.items) }
        ensures same_signatures { OnErr result ((q : List ℕ) → at_bytes self.new.signatures q ≡ at_bytes self.old.signatures q) }
    {
        self.procedures.push(n)?;
        match note(&mut self.signatures, alloc, parts, g) {
            Ok(()) => Ok(()),
            Err(memory) => {
                self.procedures.pop();
                Err(memory)
            }
        }
    }
}
