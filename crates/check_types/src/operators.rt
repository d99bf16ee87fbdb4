//! Which operands relations and assignments take (Oberon-07 report, sections 8.2 and 9.1).

ghost use Rattle.std.specs.Prelude.{◌≡◌};
ghost use Rattle.ob_judge.specs.Shapes.{Array, Open, assignable as may_store};
ghost use Rattle.ob_judge.specs.Operators.{is_text as tests_text, is_equality as tests_equality, is_inclusion as tests_inclusion, may_equal as may_be_equal, are_ordered as tests_ordered, are_texts as tests_texts, are_included as tests_included, may_compare as may_relate};
ghost use Rattle.ob_judge.specs.Calls.{may_name as names, is_char_only};
ghost use Rattle.judged_tree.specs.TypeShapes.{shape_of};
ghost use Rattle.check_types.specs.TypeMeaning.{type_shape};
ghost use Rattle.check_types.specs.TableFacts.{assignable_plain, scalar_store};
ghost use Rattle.check_types.specs.Known.{known_of};

use crate::table::TypeTable;
use crate::types::TypeRef;
use ob_types::Relation;

// `=` or `#`.
fn is_equality(relation: Relation) -> bool
    ensures { result ≡ tests_equality relation }
{
    match relation {
        Relation::Equal => true,
        Relation::Unequal => true,
        _ => false,
    }
}

// `<=` or `>=`, which for sets is inclusion.
fn is_inclusion(relation: Relation) -> bool
    ensures { result ≡ tests_inclusion relation }
{
    match relation {
        Relation::LessEqual => true,
        Relation::GreaterEqual => true,
        _ => false,
    }
}

impl TypeTable {
    // Whether an array has elements of CHAR.
    fn is_of_chars(&self, element: u32) -> bool
        ensures { is_char_only (shape_of self.now.types element) ≡ result }
    {
        self.entry(element).is_char_only()
    }

    /// A string or an array of CHAR.
    pub fn is_text(&self, of: TypeRef) -> bool
        ensures { tests_text (type_shape self.now.types of) ≡ result }
    {
        match of {
            TypeRef::Text(_) => true,
            TypeRef::Array { element, .. } => self.is_of_chars(element),
            TypeRef::Open(element) => self.is_of_chars(element),
            _ => false,
        }
    }

    /// Two numbers, or two characters.
    pub fn are_ordered(&self, a: TypeRef, b: TypeRef) -> bool
        ensures { tests_ordered (type_shape self.now.types a) (type_shape self.now.types b) ≡ result }
    {
        (a.is_number() && b.is_number()) || (a.is_char() && b.is_char())
    }

    /// Two texts that aren't two characters.
    pub fn are_texts(&self, a: TypeRef, b: TypeRef) -> bool
        ensures { tests_texts (type_shape self.now.types a) (type_shape self.now.types b) ≡ result }
    {
        !self.are_ordered(a, b) && self.is_text(a) && self.is_text(b)
    }

    /// Two sets, of which one is to include the other.
    pub fn are_included(&self, relation: Relation, a: TypeRef, b: TypeRef) -> bool
        ensures { tests_included relation (type_shape self.now.types a) (type_shape self.now.types b) ≡ result }
    {
        is_inclusion(relation) && a.is_set() && b.is_set()
    }

    /// Two values that may only be equal or not.
    pub fn may_equal(&self, a: TypeRef, b: TypeRef) -> bool
        ensures { may_be_equal (known_of self.now) (type_shape self.now.types a) (type_shape self.now.types b) ≡ result }
    {
        match (a, b) {
            (TypeRef::Bool, TypeRef::Bool) => true,
            (TypeRef::Set, TypeRef::Set) => true,
            (TypeRef::Pointer(_), TypeRef::Pointer(_)) => self.extends(a, b) || self.extends(b, a),
            (TypeRef::Procedure(_), TypeRef::Procedure(_)) => self.same(a, b),
            (TypeRef::Nil, _) => b.is_reference(),
            (_, TypeRef::Nil) => a.is_reference(),
            _ => false,
        }
    }

    /// Whether a relation takes such operands.
    pub fn may_compare(&self, relation: Relation, a: TypeRef, b: TypeRef) -> bool
        ensures { may_relate (known_of self.now) relation (type_shape self.now.types a) (type_shape self.now.types b) ≡ result }
    {
        self.are_ordered(a, b)
            || self.are_texts(a, b)
            || self.are_included(relation, a, b)
            || (is_equality(relation) && self.may_equal(a, b))
    }

    // What may be assigned by sameness, by extension, or as a number.
    fn assignable_plainly(&self, to: TypeRef, from: TypeRef) -> bool
        ensures { assignable_plain (known_of self.now) (type_shape self.now.types to) (type_shape self.now.types from) ≡ result }
    {
        self.same(to, from) || self.extends(from, to) || (to.is_number() && from.is_number())
    }

    // To an array of known length.
    fn array_takes(&self, length: u32, element: u32, from: TypeRef) -> bool
        ensures { may_store (known_of self.now) (Array length (shape_of self.now.types element)) (type_shape self.now.types from) ≡ result }
    {
        match from {
            TypeRef::Text(m) => self.is_of_chars(element) && m < length,
            TypeRef::Open(other) => self.is_one(element, other),
            _ => self.assignable_plainly(TypeRef::Array { length, element }, from),
        }
    }

    // To an open array.
    fn open_takes(&self, element: u32, from: TypeRef) -> bool
        ensures { may_store (known_of self.now) (Open (shape_of self.now.types element)) (type_shape self.now.types from) ≡ result }
    {
        match from {
            TypeRef::Text(_) => self.is_of_chars(element),
            TypeRef::Array { element: other, .. } => self.is_one(element, other),
            _ => self.assignable_plainly(TypeRef::Open(element), from),
        }
    }

    /// What may be assigned, by the types alone.
    pub fn assignable(&self, to: TypeRef, from: TypeRef) -> bool
        ensures { may_store (known_of self.now) (type_shape self.now.types to) (type_shape self.now.types from) ≡ result }
    {
        match to {
            TypeRef::Array { length, element } => self.array_takes(length, element, from),
            TypeRef::Open(element) => self.open_takes(element, from),
            _ => self.scalar_takes(to, from),
        }
    }

    // To anything but an array.
    fn scalar_takes(&self, to: TypeRef, from: TypeRef) -> bool
        ensures { scalar_store (known_of self.now) (type_shape self.now.types to) (type_shape self.now.types from) ≡ result }
    {
        match (to, from) {
            (TypeRef::Char, TypeRef::Text(n)) => n == 1,
            (TypeRef::Pointer(_), TypeRef::Nil) => true,
            (TypeRef::Procedure(_), TypeRef::Nil) => true,
            _ => self.assignable_plainly(to, from),
        }
    }

    /// Whether a parameter of this type may name a variable of that type.
    pub fn may_name(&self, to: TypeRef, of: TypeRef) -> bool
        ensures { names (known_of self.now) (type_shape self.now.types to) (type_shape self.now.types of) ≡ result }
    {
        match (to, of) {
            (TypeRef::Open(element), TypeRef::Array { element: other, .. }) => self.is_one(
                element, other,
            ),
            (TypeRef::Open(element), TypeRef::Open(other)) => self.is_one(element, other),
            (TypeRef::Record(r), TypeRef::Record(s)) => self.record_extends(s, r),
            _ => self.same(to, of),
        }
    }
}
