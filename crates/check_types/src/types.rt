//! A type.

/// A type, by its number where it has one. The element of an array is a number in the table of types, a procedure type
/// is the number of its signature there; records and pointers are numbered by the place of their words.
#[derive(Clone, Copy)]
pub enum TypeRef {
    /// INTEGER.
    Int,
    /// BOOLEAN.
    Bool,
    /// CHAR.
    Char,
    /// BYTE.
    Byte,
    /// SET.
    Set,
    /// The type of NIL.
    Nil,
    /// What a procedure without a result gives.
    Nothing,
    /// A string of so many characters.
    Text(u32),
    /// An array of known length.
    Array { length: u32, element: u32 },
    /// An open array.
    Open(u32),
    /// A record type.
    Record(u32),
    /// A pointer type.
    Pointer(u32),
    /// A procedure type.
    Procedure(u32),
}
