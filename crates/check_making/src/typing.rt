//! Types that declarations make.

ghost use Rattle.std.specs.Prelude.{◌≡◌, ◌<◌, length, Ok, Some, OnOk, IfOk, IfErr, slice_get};
ghost use Rattle.ob_judge.specs.Making.{Making, no_layout};
ghost use Rattle.ob_judge.specs.Making.{new_record as judged_record, new_pointer as judged_pointer, set_base as judged_base, set_record as judged_layout};
ghost use Rattle.ob_judge.specs.Shapes.{Array};
ghost use Rattle.check_types.specs.Known.{known_of, layout_of};
ghost use Rattle.table_builder.specs.Entries.{IsElement};
ghost use Rattle.table_builder.specs.Contents.{IsReady};
ghost use Rattle.table_builder.specs.Growing.{Grows};
ghost use Rattle.legal_tables.specs.Promised.{HasLegalTypes, IsLegalArray};
ghost use Rattle.check_making.specs.Making.{table_of, shape_in, Makes, IsSettled, IsTypeOf};
ghost use Rattle.check_making.specs.Parts.{Judges, JudgesAs, IsRecord, IsPointer};

use crate::making::{Declaring, Surroundings};
use check_types::steps::CheckFault;
use check_types::{Layout, TypeRef};
use outside::Memory;

// Want of memory, as the checker says it.
fn no_memory(_memory: Memory) -> CheckFault
    ensures { result ≡ CheckFault.Memory }
{
    CheckFault::Memory
}

impl Declaring {
    /// A record type at the next number, of which nothing is known yet.
    pub fn new_record(&mut self, round: &Surroundings) -> Result<u32, CheckFault>
        requires { IsSettled round.now self.old }
        ensures settled { OnOk result (IsSettled round.now self.new) }
        ensures judged { JudgesAs (IsRecord self.new) round.now self.old self.new judged_record result }
        ensures grows { Grows self.old.types.table self.new.types.table }
        ensures legal { OnOk result (HasLegalTypes self.old.types.table → HasLegalTypes self.new.types.table) }
    {
        match self.types.new_record() {
            Ok(r) => Ok(r),
            Err(memory) => Err(no_memory(memory)),
        }
    }

    /// A pointer type at the next number, of which it isn't known yet what it points to.
    pub fn new_pointer(&mut self, round: &Surroundings) -> Result<u32, CheckFault>
        requires { IsSettled round.now self.old }
        ensures settled { OnOk result (IsSettled round.now self.new) }
        ensures judged { JudgesAs (IsPointer self.new) round.now self.old self.new judged_pointer result }
        ensures grows { Grows self.old.types.table self.new.types.table }
        ensures legal { OnOk result (HasLegalTypes self.old.types.table → HasLegalTypes self.new.types.table) }
    {
        match self.types.new_pointer() {
            Ok(p) => Ok(p),
            Err(memory) => Err(no_memory(memory)),
        }
    }

    /// What a pointer type points to.
    pub fn set_base(&mut self, round: &Surroundings, pointer: u32, r: u32)
        requires settled { IsSettled round.now self.old }
        requires pointer { pointer < length self.old.types.table.bases.items }
        ensures settled { IsSettled round.now self.new }
        ensures judged { Judges round.now self.old self.new (judged_base pointer r) (Ok tt) }
        ensures grows { Grows self.old.types.table self.new.types.table }
        ensures legal { HasLegalTypes self.old.types.table → HasLegalTypes self.new.types.table }
    {
        self.types.set_base(pointer, r);
    }

    /// What is known of a record type, once its fields are.
    pub fn set_record(
        &mut self,
        round: &Surroundings,
        r: u32,
        layout: Layout,
    ) -> Result<(), CheckFault>
        requires settled { IsSettled round.now self.old }
        requires ready { IsReady self.old.types.table.entries.items layout }
        requires there { r < length self.old.types.table.layouts.items }
        ensures settled { OnOk result (IsSettled round.now self.new) }
        ensures judged { Judges round.now self.old self.new (judged_layout r (layout_of (table_of self.old) layout)) result }
        ensures grows { Grows self.old.types.table self.new.types.table }
        ensures legal { OnOk result (slice_get (known_of self.old.types.table).records r ≡ Some no_layout
            → HasLegalTypes self.old.types.table → HasLegalTypes self.new.types.table) }
    {
        match self.types.set_record(r, layout) {
            Ok(()) => Ok(()),
            Err(memory) => Err(no_memory(memory)),
        }
    }

    /// The array type of so many elements of a type.
    pub fn array(
        &mut self,
        round: &Surroundings,
        length: u32,
        element: TypeRef,
    ) -> Result<TypeRef, CheckFault>
        requires settled { IsSettled round.now self.old }
        requires element { IsElement self.old.types.table.entries.items element }
        ensures makes { OnOk result ((m : Making) → Makes round.now self.old m → Makes round.now self.new m) }
        ensures settled { OnOk result (IsSettled round.now self.new) }
        ensures shape { IfOk result (λ k. IsTypeOf self.new k (Array length (shape_in self.old element))) }
        ensures memory { IfErr result (λ e. e ≡ CheckFault.Memory) }
        ensures grows { Grows self.old.types.table self.new.types.table }
        ensures known { known_of self.new.types.table ≡ known_of self.old.types.table }
        ensures legal { OnOk result (IsLegalArray (known_of self.old.types.table) length (shape_in self.old element)
            → HasLegalTypes self.old.types.table → HasLegalTypes self.new.types.table) }
    {
        match self.types.array(length, element) {
            Ok(k) => Ok(k),
            Err(memory) => Err(no_memory(memory)),
        }
    }
}
