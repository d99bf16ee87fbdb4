//! A table of types while declarations are judged.

ghost use Rattle.std.specs.Prelude.{◌≡◌, ◌<◌, ◌∷◌, ◌++◌, [], ℕ, Some, None, slice_get, slice_set, length, IfOk, OnOk, OnErr};
ghost use Rattle.ob_judge.specs.Shapes.{Array, Open};
ghost use Rattle.judged_tree.specs.TypeShapes.{shape_of};
ghost use Rattle.judged_tree.specs.Tables.{are_before, is_before, IsFromTheFront, HasEachOnce};
ghost use Rattle.check_types.specs.steps.Maps.{at_bytes};
ghost use Rattle.check_types.specs.TypeMeaning.{type_shape};
ghost use Rattle.check_types.specs.Known.{known_of, layout_of};
ghost use Rattle.table_builder.specs.Entries.{IsNumbered, IsElement, HasWholeElements};
ghost use Rattle.table_builder.specs.Growing.{AddsOnly, Grows, with_blank_record, with_blank_pointer, with_layout, with_base, procedure_shape};
ghost use Rattle.table_builder.specs.Index.{IsArray, basic_types, signature_parts as parts_of};
ghost use Rattle.table_builder.specs.Builder.{IsBuilt};
ghost use Rattle.table_builder.specs.Contents.{IsReady};

use crate::blanks::{blank_layout, blank_record};
use crate::elements::{Elements, basic_elements, note_elements};
use crate::entries::{
    push_entry, push_pointer, push_procedure, push_record, set_layout, set_target,
};
use crate::numbers::{TypeNumbers, forget, note};
use crate::parts::signature_parts;
use crate::start::{empty_table, push_basics};
use check_types::{Layout, TypeRef, TypeTable};
use items::Items;
use ob_types::{Formal, Signature};
use outside::Memory;
use std::alloc::Global;

/// A table of types that grows, which number each type has, and, by its number, how many elements it has that are no
/// arrays. Each type gets one number, the basic types come first, and a type that has a number stays what it is. `IsBuilt`
/// says that all agree: each call asks for it, and leaves it so.
#[derive(Drop)]
pub struct TableBuilder {
    pub alloc: Global,
    pub table: TypeTable,
    pub numbers: TypeNumbers,
    pub elements: Vec<Elements>,
}

// The number behind these; without one there is no memory for another.
fn next_number<T>(items: &[T]) -> Result<u32, Memory>
    ensures { IfOk result (λ n. n ≡ length items.now) }
{
    match u32::try_from(items.len()) {
        Ok(n) => Ok(n),
        Err(_) => Err(Memory),
    }
}

impl TableBuilder {
    /// A table with the basic types alone.
    pub fn new(alloc: Global) -> Result<TableBuilder, Memory>
        ensures built { IfOk result (λ b. IsBuilt b) }
        ensures entries { IfOk result (λ b. b.table.entries.items ≡ basic_types) }
        ensures known { IfOk result (λ b. known_of b.table ≡ record { records = []; bases = [] }) }
        ensures signatures { IfOk result (λ b. b.table.types.signatures ≡ []) }
    {
        let mut table = empty_table(alloc);
        push_basics(&mut table)?;
        let elements = basic_elements(alloc)?;
        Ok(TableBuilder {
            alloc,
            table,
            numbers: TypeNumbers::new(alloc),
            elements,
        })
    }

    /// The table as it is.
    pub fn table(&self) -> &TypeTable
        requires { IsBuilt self.now }
        ensures table { result.now ≡ self.now.table }
        ensures front { IsFromTheFront self.now.table.types }
        ensures once { HasEachOnce self.now.table.types }
    {
        &self.table
    }

    /// The number of a type that has one.
    pub fn number(&self, of: TypeRef) -> u32
        requires built { IsBuilt self.now }
        requires numbered { IsNumbered self.now.table.entries.items of }
        ensures entry { slice_get self.now.table.entries.items result ≡ Some of }
        ensures shape { shape_of self.now.table.types result ≡ type_shape self.now.table.types of }
    {
        match self.numbers.find(of) {
            Some(n) => n,
            None => unreachable!(),
        }
    }

    // An array type with these parts.
    fn add_array(&mut self, of: TypeRef, parts: &[u32]) -> Result<(), Memory>
        requires built { IsBuilt self.old }
        requires array { IsArray (length self.old.table.entries.items) of parts.now }
        requires elements { HasWholeElements self.old.table.entries.items of }
        ensures built { IsBuilt self.new }
        ensures grows { Grows self.old.table self.new.table }
        ensures known { known_of self.new.table ≡ known_of self.old.table }
        ensures numbered { OnOk result (IsNumbered self.new.table.entries.items of) }
        ensures entries { OnOk result (AddsOnly of self.old.table.entries.items self.new.table.entries.items) }
        ensures signatures { self.new.table.types.signatures ≡ self.old.table.types.signatures }
    {
        if self.numbers.find(of).is_some() {
            return Ok(());
        }
        let n = next_number(&self.table.entries)?;
        note_elements(&mut self.elements, of, n)?;
        note(&mut self.numbers.arrays, self.alloc, parts, n)?;
        match push_entry(&mut self.table, of) {
            Ok(()) => Ok(()),
            Err(memory) => {
                forget(&mut self.numbers.arrays, parts);
                Err(memory)
            }
        }
    }

    /// The array type of so many elements of a type.
    pub fn array(&mut self, length: u32, element: TypeRef) -> Result<TypeRef, Memory>
        requires built { IsBuilt self.old }
        requires element { IsElement self.old.table.entries.items element }
        ensures built { IsBuilt self.new }
        ensures grows { Grows self.old.table self.new.table }
        ensures known { known_of self.new.table ≡ known_of self.old.table }
        ensures element { IfOk result (λ k. IsElement self.new.table.entries.items k) }
        ensures shape { IfOk result (λ k. type_shape self.new.table.types k ≡ Array length (type_shape self.old.table.types element)) }
        ensures entries { IfOk result (λ k. AddsOnly k self.old.table.entries.items self.new.table.entries.items) }
        ensures signatures { self.new.table.types.signatures ≡ self.old.table.types.signatures }
    {
        let number = self.number(element);
        let of = TypeRef::Array {
            length,
            element: number,
        };
        self.add_array(of, &[number, length])?;
        Ok(of)
    }

    /// The open array type of elements of a type.
    pub fn open_array(&mut self, element: TypeRef) -> Result<TypeRef, Memory>
        requires built { IsBuilt self.old }
        requires element { IsElement self.old.table.entries.items element }
        ensures built { IsBuilt self.new }
        ensures grows { Grows self.old.table self.new.table }
        ensures known { known_of self.new.table ≡ known_of self.old.table }
        ensures numbered { IfOk result (λ k. IsNumbered self.new.table.entries.items k) }
        ensures shape { IfOk result (λ k. type_shape self.new.table.types k ≡ Open (type_shape self.old.table.types element)) }
        ensures entries { IfOk result (λ k. AddsOnly k self.old.table.entries.items self.new.table.entries.items) }
        ensures signatures { self.new.table.types.signatures ≡ self.old.table.types.signatures }
    {
        let number = self.number(element);
        let of = TypeRef::Open(number);
        self.add_array(of, &[number])?;
        Ok(of)
    }

    /// A record type at the next number, of which nothing is known yet.
    pub fn new_record(&mut self) -> Result<u32, Memory>
        requires built { IsBuilt self.old }
        ensures built { IsBuilt self.new }
        ensures grows { Grows self.old.table self.new.table }
        ensures number { IfOk result (λ r. r ≡ length (known_of self.old.table).records) }
        ensures known { OnOk result (known_of self.new.table ≡ with_blank_record (known_of self.old.table)) }
        ensures element { IfOk result (λ r. IsElement self.new.table.entries.items (TypeRef.Record r)) }
        ensures same { OnErr result (known_of self.new.table ≡ known_of self.old.table) }
        ensures entries { IfOk result (λ r. self.new.table.entries.items ≡ self.old.table.entries.items ++ TypeRef.Record r ∷ []) }
        ensures signatures { self.new.table.types.signatures ≡ self.old.table.types.signatures }
    {
        let r = next_number(&self.table.layouts)?;
        let n = next_number(&self.table.entries)?;
        note_elements(&mut self.elements, TypeRef::Record(r), n)?;
        self.numbers.records.push(n)?;
        let layout = blank_layout(self.alloc);
        let declared = blank_record(self.alloc);
        match push_record(&mut self.table, layout, declared, r) {
            Ok(()) => Ok(r),
            Err(memory) => {
                self.numbers.records.pop();
                Err(memory)
            }
        }
    }

    /// A pointer type at the next number, of which it isn't known yet what it points to.
    pub fn new_pointer(&mut self) -> Result<u32, Memory>
        requires built { IsBuilt self.old }
        ensures built { IsBuilt self.new }
        ensures grows { Grows self.old.table self.new.table }
        ensures number { IfOk result (λ p. p ≡ length (known_of self.old.table).bases) }
        ensures known { OnOk result (known_of self.new.table ≡ with_blank_pointer (known_of self.old.table)) }
        ensures element { IfOk result (λ p. IsElement self.new.table.entries.items (TypeRef.Pointer p)) }
        ensures same { OnErr result (known_of self.new.table ≡ known_of self.old.table) }
        ensures entries { IfOk result (λ p. self.new.table.entries.items ≡ self.old.table.entries.items ++ TypeRef.Pointer p ∷ []) }
        ensures signatures { self.new.table.types.signatures ≡ self.old.table.types.signatures }
    {
        let p = next_number(&self.table.bases)?;
        let n = next_number(&self.table.entries)?;
        note_elements(&mut self.elements, TypeRef::Pointer(p), n)?;
        self.numbers.pointers.push(n)?;
        match push_pointer(&mut self.table, p) {
            Ok(()) => Ok(p),
            Err(memory) => {
                self.numbers.pointers.pop();
                Err(memory)
            }
        }
    }

    /// What a pointer type points to.
    pub fn set_base(&mut self, pointer: u32, r: u32)
        requires built { IsBuilt self.old }
        requires pointer { pointer < length self.old.table.bases.items }
        ensures built { IsBuilt self.new }
        ensures grows { Grows self.old.table self.new.table }
        ensures known { known_of self.new.table ≡ with_base pointer r (known_of self.old.table) }
        ensures entries { self.new.table.entries.items ≡ self.old.table.entries.items }
        ensures signatures { self.new.table.types.signatures ≡ self.old.table.types.signatures }
    {
        let n = self.number(TypeRef::Pointer(pointer));
        set_target(&mut self.table, n, pointer, r);
    }

    /// The procedure type with these parameters and this result, each type by its number.
    pub fn procedure(&mut self, formals: Items<Formal>, result_type: u32) -> Result<TypeRef, Memory>
        requires built { IsBuilt self.old }
        requires formals { are_before (length self.old.table.entries.items) formals }
        requires outcome { result_type < length self.old.table.entries.items }
        ensures built { IsBuilt self.new }
        ensures grows { Grows self.old.table self.new.table }
        ensures known { known_of self.new.table ≡ known_of self.old.table }
        ensures element { IfOk result (λ k. IsElement self.new.table.entries.items k) }
        ensures shape { IfOk result (λ k. type_shape self.new.table.types k ≡ procedure_shape self.old.table.types formals result_type) }
        ensures entries { IfOk result (λ k. AddsOnly k self.old.table.entries.items self.new.table.entries.items) }
        ensures signatures { OnOk result
            (AddsOnly (record { formals = formals; result = result_type }) self.old.table.types.signatures self.new.table.types.signatures) }
    {
        let parts = signature_parts(self.alloc, formals.as_slice(), result_type)?;
        if let Some(g) = self.numbers.signature(&parts) {
            return Ok(TypeRef::Procedure(g));
        }
        let signature = Signature {
            formals,
            result: result_type,
        };
        self.add_procedure(signature, &parts)
    }

    // A procedure type with these parts, that isn't there yet.
    fn add_procedure(&mut self, signature: Signature, parts: &[u32]) -> Result<TypeRef, Memory>
        requires built { IsBuilt self.old }
        requires before { is_before (length self.old.table.entries.items) (Some signature) }
        requires parts { parts.now ≡ parts_of signature.formals signature.result }
        requires new { at_bytes self.old.numbers.signatures parts.now ≡ None }
        ensures built { IsBuilt self.new }
        ensures grows { Grows self.old.table self.new.table }
        ensures known { known_of self.new.table ≡ known_of self.old.table }
        ensures element { IfOk result (λ k. IsElement self.new.table.entries.items k) }
        ensures shape { IfOk result (λ k. type_shape self.new.table.types k ≡ procedure_shape self.old.table.types signature.formals signature.result) }
        ensures entries { IfOk result (λ k. AddsOnly k self.old.table.entries.items self.new.table.entries.items) }
        ensures signatures { OnOk result (AddsOnly signature self.old.table.types.signatures self.new.table.types.signatures) }
    {
        let g = next_number(self.table.types.signatures())?;
        let n = next_number(&self.table.entries)?;
        note_elements(&mut self.elements, TypeRef::Procedure(g), n)?;
        self.numbers.note_procedure(self.alloc, parts, g, n)?;
        match push_procedure(&mut self.table, signature, g) {
            Ok(()) => Ok(TypeRef::Procedure(g)),
            Err(memory) => {
                self.numbers.procedures.truncate(g as usize);
                forget(&mut self.numbers.signatures, parts);
                Err(memory)
            }
        }
    }

    /// What is known of a record type, once its fields are.
    pub fn set_record(&mut self, r: u32, layout: Layout) -> Result<(), Memory>
        requires built { IsBuilt self.old }
        requires ready { IsReady self.old.table.entries.items layout }
        requires there { r < length self.old.table.layouts.items }
        ensures built { IsBuilt self.new }
        ensures grows { Grows self.old.table self.new.table }
        ensures known { OnOk result (known_of self.new.table ≡ with_layout r (layout_of self.old.table.types layout) (known_of self.old.table)) }
        ensures same { OnErr result (known_of self.new.table ≡ known_of self.old.table) }
        ensures entries { self.new.table.entries.items ≡ self.old.table.entries.items }
        ensures signatures { self.new.table.types.signatures ≡ self.old.table.types.signatures }
    {
        let declared = self.declared(&layout)?;
        set_layout(&mut self.table, r, layout, declared);
        Ok(())
    }
}
