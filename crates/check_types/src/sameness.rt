//! When types are the same, and when one extends another.

ghost use Rattle.std.specs.Prelude.{◌≡◌, option_map, slice_get};
ghost use Rattle.ob_types.specs.declared.types.Formal.{Formal as TheFormal};
ghost use Rattle.ob_judge.specs.Shapes.{Procedure, same as same_shape, same_formals as same_parameters, bool_eq, record_extends as extends_record, based_on as extends_based, target_of as target_shape, extends as extends_shape, element_of as element_shape, base_of as base_of_option, contains as contains_number, line_of};
ghost use Rattle.judged_tree.specs.TypeShapes.{shape_of, shapes_of, formals_shape};
ghost use Rattle.check_types.specs.TypeMeaning.{type_shape, formals_of, result_of, result_shape};
ghost use Rattle.check_types.specs.TableFacts.{entry_at, same_formal_shape};
ghost use Rattle.check_types.specs.Known.{known_of};

use crate::table::{Layout, TypeTable};
use crate::types::TypeRef;
use ob_types::{Formal, Signature};

// An entry by its number.
fn entry_in(entries: &[TypeRef], n: u32) -> TypeRef
    ensures { result ≡ entry_at entries.now n }
{
    match entries.get(n as usize) {
        Some(of) => *of,
        None => TypeRef::Nothing,
    }
}

// Whether a number is among these.
fn contains(numbers: &[u32], n: u32) -> bool
    ensures { result ≡ contains_number n numbers.now }
{
    for number in numbers {
        if n == *number {
            return true;
        }
    }
    false
}

// Both, or neither.
fn both_or_neither(a: bool, b: bool) -> bool
    ensures { result ≡ bool_eq a b }
{
    if a { b } else { !b }
}

impl TypeTable {
    /// The type of a number.
    pub fn entry(&self, n: u32) -> TypeRef
        ensures { type_shape self.now.types result ≡ shape_of self.now.types n }
    {
        entry_in(&self.entries, n)
    }

    /// The type of an array's elements.
    pub fn element(&self, of: TypeRef) -> Option<TypeRef>
        ensures { option_map (type_shape self.now.types) result ≡ element_shape (type_shape self.now.types of) }
    {
        match of {
            TypeRef::Array { element, .. } => Some(self.entry(element)),
            TypeRef::Open(element) => Some(self.entry(element)),
            _ => None,
        }
    }

    /// The record type that a pointer type points to, once it is known.
    pub fn base_of(&self, pointer: u32) -> Option<u32>
        ensures { result ≡ base_of_option (slice_get self.now.bases.items pointer) }
    {
        match self.bases.get(pointer as usize) {
            Some(Some(base)) => Some(*base),
            _ => None,
        }
    }

    /// The same of a type.
    pub fn target_of(&self, of: TypeRef) -> Option<u32>
        ensures { target_shape (known_of self.now) (type_shape self.now.types of) ≡ result }
    {
        match of {
            TypeRef::Pointer(pointer) => self.base_of(pointer),
            _ => None,
        }
    }

    /// Whether two numbers are of the same type.
    pub fn is_one(&self, a: u32, b: u32) -> bool
        ensures { same_shape (shape_of self.now.types a) (shape_of self.now.types b) ≡ result }
    {
        a == b || (self.entry(a).is_nothing() && self.entry(b).is_nothing())
    }

    // Whether two parameters are of the same kind and type.
    fn same_formal(&self, a: &Formal, b: &Formal) -> bool
        ensures { same_formal_shape (shapes_of self.now.types) a.now b.now ≡ result }
    {
        both_or_neither(a.variable, b.variable) && self.is_one(a.type_number, b.type_number)
    }

    // Whether two procedure types have the same parameters.
    fn same_formals(&self, a: &[Formal], b: &[Formal]) -> bool
        ensures { same_parameters (formals_shape (shapes_of self.now.types) a.now) (formals_shape (shapes_of self.now.types) b.now) ≡ result }
    {
        for (i, x) in a.iter().enumerate() {
            match b.get(i) {
                None => return false,
                Some(y) => {
                    if !self.same_formal(x, y) {
                        return false;
                    }
                }
            }
        }
        a.len() == b.len()
    }

    // Whether two signatures are the same.
    fn same_signature(&self, g: u32, h: u32) -> bool
        ensures { same_shape (Procedure (formals_of self.now.types g) (result_of self.now.types g))
            (Procedure (formals_of self.now.types h) (result_of self.now.types h)) ≡ result }
    {
        self.same_formals(self.formals(g), self.formals(h))
            && self.same_results(self.result(g), self.result(h))
    }

    // Whether two results are of the same type; where there is none, it is NIL's.
    fn same_results(&self, a: Option<u32>, b: Option<u32>) -> bool
        ensures { same_shape (result_shape self.now.types a) (result_shape self.now.types b) ≡ result }
    {
        match (a, b) {
            (Some(a), Some(b)) => self.is_one(a, b),
            (Some(a), None) => self.entry(a).is_nil(),
            (None, Some(b)) => self.entry(b).is_nil(),
            (None, None) => true,
        }
    }

    /// The parameters of a procedure type.
    pub fn formals(&self, g: u32) -> &[Formal]
        ensures { formals_shape (shapes_of self.now.types) result.now ≡ formals_of self.now.types g }
    {
        match self.types.signatures().get(g as usize) {
            Some(signature) => signature.formals.as_slice(),
            None => &[],
        }
    }

    /// The number of its result's type, if there is such a signature.
    pub fn result(&self, g: u32) -> Option<u32>
        ensures { result_shape self.now.types result ≡ result_of self.now.types g }
    {
        match self.types.signatures().get(g as usize) {
            Some(signature) => Some(signature.result),
            None => None,
        }
    }

    /// Whether two types are the same.
    pub fn same(&self, a: TypeRef, b: TypeRef) -> bool
        ensures { same_shape (type_shape self.now.types a) (type_shape self.now.types b) ≡ result }
    {
        match (a, b) {
            (TypeRef::Int, TypeRef::Int) => true,
            (TypeRef::Bool, TypeRef::Bool) => true,
            (TypeRef::Char, TypeRef::Char) => true,
            (TypeRef::Byte, TypeRef::Byte) => true,
            (TypeRef::Set, TypeRef::Set) => true,
            (TypeRef::Nil, TypeRef::Nil) => true,
            (TypeRef::Nothing, TypeRef::Nothing) => true,
            (TypeRef::Text(n), TypeRef::Text(m)) => n == m,
            (
                TypeRef::Array {
                    length: n,
                    element: e,
                },
                TypeRef::Array {
                    length: m,
                    element: f,
                },
            ) => { n == m && self.is_one(e, f) }
            (TypeRef::Open(e), TypeRef::Open(f)) => self.is_one(e, f),
            (TypeRef::Record(r), TypeRef::Record(s)) => r == s,
            (TypeRef::Pointer(p), TypeRef::Pointer(q)) => p == q,
            (TypeRef::Procedure(g), TypeRef::Procedure(h)) => self.same_signature(g, h),
            _ => false,
        }
    }

    /// Whether a record type is another or an extension of it.
    pub fn record_extends(&self, a: u32, b: u32) -> bool
        ensures { extends_record (known_of self.now) a b ≡ result }
    {
        match self.layouts.get(a as usize) {
            Some(layout) => contains(&layout.line, b),
            None => false,
        }
    }

    /// Whether a type is another or an extension of it: records, or pointers to them.
    pub fn extends(&self, a: TypeRef, b: TypeRef) -> bool
        ensures { extends_shape (known_of self.now) (type_shape self.now.types a) (type_shape self.now.types b) ≡ result }
    {
        match (a, b) {
            (TypeRef::Record(r), TypeRef::Record(s)) => self.record_extends(r, s),
            (TypeRef::Pointer(p), TypeRef::Pointer(q)) => self.pointer_extends(p, q),
            _ => false,
        }
    }

    // The same of pointer types.
    fn pointer_extends(&self, p: u32, q: u32) -> bool
        ensures { extends_based (known_of self.now) (base_of_option (slice_get self.now.bases.items p)) (base_of_option (slice_get self.now.bases.items q)) ≡ result }
    {
        match (self.base_of(p), self.base_of(q)) {
            (Some(a), Some(b)) => self.record_extends(a, b),
            _ => false,
        }
    }
}
