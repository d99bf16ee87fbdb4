//! Objects and their bytes are one for one.

ghost use Rattle.std.specs.Prelude.{◌≡◌, List, ℕ, Ok};
ghost use Rattle.object_form.specs.declared.object.Object.{Object};
ghost use Rattle.object_form.specs.Objects.{IsObject, object_bytes};
ghost use Rattle.object_form.specs.Reading.{object_in};

/// An object's bytes are read as this object.
pub fn written_objects_are_read()
    ensures { (object : Object) → IsObject object → object_in (object_bytes object) ≡ Ok object }
{}

/// Bytes are those of one object.
pub fn bytes_have_one_object()
    ensures { (a b : Object) → IsObject a → IsObject b → object_bytes a ≡ object_bytes b → a ≡ b }
{}
