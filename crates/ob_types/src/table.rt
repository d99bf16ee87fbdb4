//! The table in which each type has a number.

ghost use Rattle.ob_types.specs.Forms.{form_or_zero, scalar_form};
ghost use Rattle.std.specs.Prelude.{◌≡◌, false};
ghost use Rattle.ob_types.specs.Table.{Table};
ghost use Rattle.ob_types.specs.Trees.{Scalar, tree_extent};

use crate::types::{Extent, RecordType, Signature, TypeKind};
use outside::Memory;
use std::alloc::Global;
use std::marker::Model;

/// All types of a program. A type's number is its place in this table; record types and signatures have numbers of
/// their own. The checker fills it; what it says of a number stays, but for what the setters replace.
#[derive(Drop)]
pub struct Types {
    kinds: Vec<TypeKind>,
    records: Vec<RecordType>,
    signatures: Vec<Signature>,
}

impl Model for Types {
    ghost Value = { Table };

    ghost view = { λ t. record { kinds = t.kinds.items; records = t.records.items; signatures = t.signatures.items } };
}

// What a scalar takes in memory.
fn scalar_extent(kind: TypeKind) -> Extent
    ensures { result ≡ tree_extent (Scalar (form_or_zero (scalar_form kind))) }
{
    match kind {
        TypeKind::Bool => small_extent(),
        TypeKind::Char => small_extent(),
        TypeKind::Byte => small_extent(),
        _ => Extent {
            bytes: 8,
            wide: true,
        },
    }
}

// What fits a byte takes one.
fn small_extent() -> Extent
    ensures { result ≡ record { bytes = 1; wide = false } }
{
    Extent {
        bytes: 1,
        wide: false,
    }
}

impl Types {
    ghost use Rattle.std.specs.Prelude.{◌≡◌, ℕ, ◌+◌, ◌<◌, ◌^◌, [], ◌∷◌, ◌++◌, length, take, slice_set, OnOk, OnErr, IfSome, IfNone};
    ghost use Rattle.ob_types.specs.Layout.{kind_of, record_of};
    ghost use Rattle.ob_types.specs.Layout.{cells as cells_of, extends as extends_record};
    ghost use Rattle.ob_types.specs.Assignable.{same as same_type, extends as extends_type, assignable as may_assign, is_char as is_of_chars};
    ghost use Rattle.ob_types.specs.Trees.{data_tree};
    ghost use Rattle.ob_types.specs.Trees.{bytes as bytes_of, align as align_of};
    ghost use Rattle.ob_types.specs.Counted.{IsCounted, IsLaidOut, HasOneNumberEach};

    /// No types; takes no memory.
    pub fn new(alloc: Global) -> Types
        ensures { result ≡ record { kinds = []; records = []; signatures = [] } }
    {
        Types {
            kinds: Vec::new(alloc),
            records: Vec::new(alloc),
            signatures: Vec::new(alloc),
        }
    }

    /// What the types are, each at its number.
    pub fn kinds(&self) -> &[TypeKind]
        ensures { result.now ≡ self.now.kinds }
    {
        self.kinds.as_slice()
    }

    /// The record types, each at its number.
    pub fn records(&self) -> &[RecordType]
        ensures { result.now ≡ self.now.records }
    {
        self.records.as_slice()
    }

    /// The procedure types, each at its number.
    pub fn signatures(&self) -> &[Signature]
        ensures { result.now ≡ self.now.signatures }
    {
        self.signatures.as_slice()
    }

    /// One more type, at the next number.
    pub fn push_kind(&mut self, kind: TypeKind) -> Result<(), Memory>
        ensures ok { OnOk result (self.new ≡ record self.old { kinds = self.old.kinds ++ kind ∷ [] }) }
        ensures err { OnErr result (self.new ≡ self.old) }
    {
        self.kinds.push(kind)?;
        Ok(())
    }

    /// One more record type, at the next number.
    pub fn push_record(&mut self, declared: RecordType) -> Result<(), Memory>
        ensures ok { OnOk result (self.new ≡ record self.old { records = self.old.records ++ declared ∷ [] }) }
        ensures err { OnErr result (self.new ≡ self.old) }
    {
        self.records.push(declared)?;
        Ok(())
    }

    /// One more procedure type, at the next number.
    pub fn push_signature(&mut self, signature: Signature) -> Result<(), Memory>
        ensures ok { OnOk result (self.new ≡ record self.old { signatures = self.old.signatures ++ signature ∷ [] }) }
        ensures err { OnErr result (self.new ≡ self.old) }
    {
        self.signatures.push(signature)?;
        Ok(())
    }

    /// Another type at a number, as where a pointer's base is declared behind it.
    pub fn set_kind(&mut self, at: usize, kind: TypeKind)
        requires { at < length self.old.kinds }
        ensures { self.new ≡ record self.old { kinds = slice_set self.old.kinds at kind } }
    {
        self.kinds[at] = kind;
    }

    /// Another record type at a number, as where its fields are complete.
    pub fn set_record(&mut self, at: usize, declared: RecordType)
        requires { at < length self.old.records }
        ensures { self.new ≡ record self.old { records = slice_set self.old.records at declared } }
    {
        self.records[at] = declared;
    }

    /// Only so many types, record types and procedure types, the first ones: what a refused module added goes.
    pub fn truncate(&mut self, kinds: usize, records: usize, signatures: usize)
        ensures { self.new ≡ record { kinds = take kinds self.old.kinds; records = take records self.old.records; signatures = take signatures self.old.signatures } }
    {
        self.kinds.truncate(kinds);
        self.records.truncate(records);
        self.signatures.truncate(signatures);
    }

    /// What a type is; `Nothing` for a number that isn't in the table.
    pub fn kind(&self, t: u32) -> TypeKind
        ensures { result ≡ kind_of self.now t }
    {
        match self.kinds.as_slice().get(t as usize) {
            Some(kind) => *kind,
            None => TypeKind::Nothing,
        }
    }

    /// How many cells a variable of a type has. An open array counts as one.
    pub fn cells(&self, t: u32) -> u64
        requires known { t < length self.now.kinds }
        requires counted { IsCounted self.now }
        ensures { result ≡ cells_of self.now t }
    {
        let mut count: u64 = 1;
        let mut at = t;
        while let Some((length, element)) = self.array_at(at) {
            count = count.wrapping_mul(u64::from(length));
            at = element;
        }
        count.wrapping_mul(self.own_cells(at))
    }

    /// How many bytes a variable of a type takes where a CHAR, a BYTE and a BOOLEAN take one and every other scalar
    /// eight. A field or an element begins at a multiple of its type's alignment, a record's bytes are rounded up to its
    /// own, and what an extension adds stands behind its base's bytes. Of types of known length.
    pub fn bytes(&self, t: u32) -> u64
        requires known { t < length self.now.kinds }
        requires counted { IsCounted self.now }
        requires laid_out { IsLaidOut self.now }
        ensures { result ≡ bytes_of self.now t }
    {
        let mut count: u64 = 1;
        let mut at = t;
        while let Some((length, element)) = self.array_at(at) {
            count = count.wrapping_mul(u64::from(length));
            at = element;
        }
        count.wrapping_mul(u64::from(self.own_extent(at).bytes))
    }

    /// Of what the beginning of a variable of a type is a multiple, in bytes: 8 where it has a part of eight bytes,
    /// else 1.
    pub fn align(&self, t: u32) -> u64
        requires known { t < length self.now.kinds }
        requires counted { IsCounted self.now }
        requires laid_out { IsLaidOut self.now }
        ensures { result ≡ align_of self.now t }
    {
        let mut at = t;
        while let Some((_, element)) = self.array_at(at) {
            at = element;
        }
        if self.own_extent(at).wide { 8 } else { 1 }
    }

    // What a type that is no array of known length takes in memory.
    fn own_extent(&self, t: u32) -> Extent
        requires known { t < length self.now.kinds }
        requires counted { IsCounted self.now }
        requires laid_out { IsLaidOut self.now }
        requires single { (n e : ℕ) → kind_of self.now t ≡ TypeKind.Array (Some n) e → ⊥ }
        ensures { result ≡ tree_extent (data_tree self.now t) }
    {
        match self.kind(t) {
            TypeKind::Record(r) => self.said_extent(r),
            kind => scalar_extent(kind),
        }
    }

    // What a record type says that it takes.
    fn said_extent(&self, r: u32) -> Extent
        ensures { result ≡ (record_of self.now r).extent }
    {
        match self.records.as_slice().get(r as usize) {
            Some(found) => found.extent,
            None => Extent {
                bytes: 0,
                wide: false,
            },
        }
    }

    // The length and the element type of an array of known length.
    fn array_at(&self, t: u32) -> Option<(u32, u32)>
        ensures array { IfSome result (λ a. kind_of self.now t ≡ TypeKind.Array (Some a.0) a.1) }
        ensures none { IfNone result ((n e : ℕ) → kind_of self.now t ≡ TypeKind.Array (Some n) e → ⊥) }
    {
        match self.kind(t) {
            TypeKind::Array { length, element } => match length {
                Some(n) => Some((n, element)),
                None => None,
            },
            _ => None,
        }
    }

    // The cells of a type that is no array of known length.
    fn own_cells(&self, t: u32) -> u64
        requires known { t < length self.now.kinds }
        requires counted { IsCounted self.now }
        requires single { (n e : ℕ) → kind_of self.now t ≡ TypeKind.Array (Some n) e → ⊥ }
        ensures { result ≡ cells_of self.now t }
    {
        match self.kind(t) {
            TypeKind::Record(r) => u64::from(self.counted_cells(r)),
            _ => 1,
        }
    }

    // The cells that a record type says.
    fn counted_cells(&self, r: u32) -> u32
        ensures { result ≡ (record_of self.now r).cells }
    {
        match self.records.as_slice().get(r as usize) {
            Some(found) => found.cells,
            None => 0,
        }
    }

    /// Whether two types are the same: arrays with the same length and element type, procedure types with the same
    /// parameters and result, all else by its declaration. Each type has one number in the table, so it is whether
    /// the numbers are equal.
    pub fn same(&self, a: u32, b: u32) -> bool
        requires { HasOneNumberEach self.now }
        ensures { result ≡ same_type self.now a b }
    {
        a == b
    }

    /// Whether type a is b or an extension of it: two record types, or two pointers to such.
    pub fn extends(&self, a: u32, b: u32) -> bool
        ensures { result ≡ extends_type self.now a b }
    {
        match (self.kind(a), self.kind(b)) {
            (TypeKind::Record(r), TypeKind::Record(s)) => self.record_extends(r, s),
            (TypeKind::Pointer(r), TypeKind::Pointer(s)) => self.record_extends(r, s),
            _ => false,
        }
    }

    /// Whether a record type is another or an extension of it.
    pub fn record_extends(&self, extension: u32, base: u32) -> bool
        ensures { result ≡ extends_record self.now extension base }
    {
        let mut at = extension;
        let mut left = self.records.len();
        while at != base {
            if left == 0 {
                return false;
            }
            left -= 1;
            match self.base_of(at) {
                Some(next) => at = next,
                None => return false,
            }
        }
        true
    }

    // The record type that a record type extends.
    fn base_of(&self, r: u32) -> Option<u32>
        ensures { result ≡ (record_of self.now r).base }
    {
        match self.records.as_slice().get(r as usize) {
            Some(found) => found.base,
            None => None,
        }
    }

    /// Whether what has type `from` may be assigned to what has type `to`, by the types alone.
    pub fn assignable(&self, to: u32, from: u32) -> bool
        requires { HasOneNumberEach self.now }
        ensures { result ≡ may_assign self.now to from }
    {
        if self.same(to, from) {
            return true;
        }
        match (self.kind(to), self.kind(from)) {
            (TypeKind::Int, TypeKind::Byte) => true,
            (TypeKind::Byte, TypeKind::Int) => true,
            (TypeKind::Pointer(_), TypeKind::Nil) => true,
            (TypeKind::Procedure(_), TypeKind::Nil) => true,
            (TypeKind::Char, TypeKind::Text(n)) => n == 1,
            (
                TypeKind::Array {
                    length: Some(n),
                    element,
                },
                TypeKind::Text(m),
            ) => self.is_char(element) && m < n,
            (
                TypeKind::Array {
                    length: None,
                    element,
                },
                TypeKind::Text(_),
            ) => self.is_char(element),
            (
                TypeKind::Array {
                    length: None,
                    element: a,
                },
                TypeKind::Array { element: b, .. },
            ) => self.same(a, b),
            (
                TypeKind::Array { element: a, .. },
                TypeKind::Array {
                    length: None,
                    element: b,
                },
            ) => self.same(a, b),
            (TypeKind::Record(r), TypeKind::Record(s)) => self.record_extends(s, r),
            (TypeKind::Pointer(r), TypeKind::Pointer(s)) => self.record_extends(s, r),
            _ => false,
        }
    }

    fn is_char(&self, t: u32) -> bool
        ensures { result ≡ is_of_chars self.now t }
    {
        matches!(self.kind(t), TypeKind::Char)
    }
}
