//! Types beside checked trees.

ghost use Rattle.std.specs.Prelude.{◌≡◌, Some, slice_get};
ghost use Rattle.judged_tree.specs.Outline.{record_or_zero};
ghost use Rattle.check_types.specs.TypeMeaning.{kind_of_type};

use crate::table::TypeTable;
use crate::types::TypeRef;
use ob_types::TypeKind;

impl TypeTable {
    // The record type that a pointer type points to, or 0 before it is known.
    fn target_or_zero(&self, pointer: u32) -> u32
        ensures { result ≡ record_or_zero (slice_get self.now.bases.items pointer) }
    {
        match self.bases.get(pointer as usize) {
            Some(Some(base)) => *base,
            _ => 0,
        }
    }

    /// What a type is in a checked tree.
    pub fn kind_of(&self, of: TypeRef) -> TypeKind
        ensures { result ≡ kind_of_type self.now.bases.items of }
    {
        match of {
            TypeRef::Int => TypeKind::Int,
            TypeRef::Bool => TypeKind::Bool,
            TypeRef::Char => TypeKind::Char,
            TypeRef::Byte => TypeKind::Byte,
            TypeRef::Set => TypeKind::Set,
            TypeRef::Nil => TypeKind::Nil,
            TypeRef::Nothing => TypeKind::Nothing,
            TypeRef::Text(n) => TypeKind::Text(n),
            TypeRef::Array { length, element } => TypeKind::Array {
                length: Some(length),
                element,
            },
            TypeRef::Open(element) => TypeKind::Array {
                length: None,
                element,
            },
            TypeRef::Record(r) => TypeKind::Record(r),
            TypeRef::Pointer(pointer) => TypeKind::Pointer(self.target_or_zero(pointer)),
            TypeRef::Procedure(g) => TypeKind::Procedure(g),
        }
    }
}
