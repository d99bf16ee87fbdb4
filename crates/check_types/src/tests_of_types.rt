//! What a type is, as far as operands ask.

ghost use Rattle.std.specs.Prelude.{◌≡◌};
ghost use Rattle.ob_types.specs.Table.{Table};
ghost use Rattle.ob_judge.specs.Shapes.{is_number as tests_number, is_truth as tests_truth, is_set as tests_set, is_pointer as tests_pointer, is_reference as tests_reference, is_scalar as tests_scalar};
ghost use Rattle.check_types.specs.TableFacts.{is_nil as tests_nil};
ghost use Rattle.ob_judge.specs.Operators.{is_char as tests_char};
ghost use Rattle.ob_judge.specs.Calls.{may_order as tests_order, is_char_only as tests_char_only};
ghost use Rattle.ob_judge.specs.Parts.{is_nothing as tests_nothing};
ghost use Rattle.check_types.specs.TypeMeaning.{type_shape};

use crate::types::TypeRef;

impl TypeRef {
    /// INTEGER or BYTE.
    pub fn is_number(self) -> bool
        ensures { (t : Table) → tests_number (type_shape t self) ≡ result }
    {
        match self {
            TypeRef::Int | TypeRef::Byte => true,
            _ => false,
        }
    }

    /// BOOLEAN.
    pub fn is_truth(self) -> bool
        ensures { (t : Table) → tests_truth (type_shape t self) ≡ result }
    {
        match self {
            TypeRef::Bool => true,
            _ => false,
        }
    }

    /// SET.
    pub fn is_set(self) -> bool
        ensures { (t : Table) → tests_set (type_shape t self) ≡ result }
    {
        match self {
            TypeRef::Set => true,
            _ => false,
        }
    }

    /// A pointer type.
    pub fn is_pointer(self) -> bool
        ensures { (t : Table) → tests_pointer (type_shape t self) ≡ result }
    {
        match self {
            TypeRef::Pointer(_) => true,
            _ => false,
        }
    }

    /// A pointer or procedure type.
    pub fn is_reference(self) -> bool
        ensures { (t : Table) → tests_reference (type_shape t self) ≡ result }
    {
        match self {
            TypeRef::Pointer(_) | TypeRef::Procedure(_) => true,
            _ => false,
        }
    }

    /// No array and no record type.
    pub fn is_scalar(self) -> bool
        ensures { (t : Table) → tests_scalar (type_shape t self) ≡ result }
    {
        match self {
            TypeRef::Array { .. } | TypeRef::Open(_) | TypeRef::Record(_) => false,
            _ => true,
        }
    }

    /// No type: what a procedure without a result gives.
    pub fn is_nothing(self) -> bool
        ensures { (t : Table) → tests_nothing (type_shape t self) ≡ result }
    {
        match self {
            TypeRef::Nothing => true,
            _ => false,
        }
    }

    /// The type of NIL.
    pub fn is_nil(self) -> bool
        ensures { (t : Table) → tests_nil (type_shape t self) ≡ result }
    {
        match self {
            TypeRef::Nil => true,
            _ => false,
        }
    }

    /// CHAR.
    pub fn is_char_only(self) -> bool
        ensures { (t : Table) → tests_char_only (type_shape t self) ≡ result }
    {
        match self {
            TypeRef::Char => true,
            _ => false,
        }
    }

    /// CHAR, or a string of one character.
    pub fn is_char(self) -> bool
        ensures { (t : Table) → tests_char (type_shape t self) ≡ result }
    {
        match self {
            TypeRef::Char => true,
            TypeRef::Text(n) => n == 1,
            _ => false,
        }
    }

    /// What ORD takes beside numbers: a character, BOOLEAN or SET.
    pub fn may_order(self) -> bool
        ensures { (t : Table) → tests_order (type_shape t self) ≡ result }
    {
        self.is_char() || self.is_truth() || self.is_set()
    }
}
