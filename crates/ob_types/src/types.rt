//! What types are (Oberon-07 report, section 6).

use items::Items;

/// What a type is.
#[derive(Clone, Copy)]
pub enum TypeKind {
    /// INTEGER, 64 bits.
    Int,
    /// BOOLEAN.
    Bool,
    /// CHAR, 0 to 255.
    Char,
    /// BYTE, 0 to 255.
    Byte,
    /// SET of 0 to 63.
    Set,
    /// The type of NIL.
    Nil,
    /// A string of so many characters.
    Text(u32),
    /// So many elements of a type; the length of an open array isn't known here.
    Array { length: Option<u32>, element: u32 },
    /// A record type, by its number among these.
    Record(u32),
    /// A pointer to records of that record type.
    Pointer(u32),
    /// A procedure type, by the number of its signature.
    Procedure(u32),
    /// What a procedure without a result gives.
    Nothing,
}

/// A field that a record type adds.
#[derive(Drop)]
pub struct Field {
    /// Its name's bytes.
    pub name: Items<u8>,
    /// Whether other modules see it.
    pub exported: bool,
    /// Its type.
    pub type_number: u32,
}

/// What a value takes in memory where a CHAR, a BYTE and a BOOLEAN take one byte and every other scalar eight.
#[derive(Clone, Copy)]
pub struct Extent {
    /// Its bytes. A record's are rounded up, so that another one may stand right behind it.
    pub bytes: u32,
    /// Whether it has a part of eight bytes, and so begins at a multiple of 8.
    pub wide: bool,
}

/// A record type. These are numbered over all modules by the place of the word RECORD.
#[derive(Drop)]
pub struct RecordType {
    /// The module that declares it.
    pub module: u32,
    /// The record type that it extends.
    pub base: Option<u32>,
    /// How many record types it extends, one through the other.
    pub level: u32,
    /// The fields that it adds to those of its base, in order.
    pub fields: Items<Field>,
    /// How many cells a variable of it has.
    pub cells: u32,
    /// The bytes that a variable of it takes, where small scalars take one.
    pub extent: Extent,
}

/// How a parameter is handed over.
#[derive(Clone, Copy)]
pub enum Mode {
    /// A scalar value parameter: a local variable that starts as the argument. One word, the value.
    Value,
    /// VAR of a scalar or of an array of known length, or a value parameter that is an array of known length or a
    /// record. One word, the address.
    Place,
    /// VAR of a record. Two words, the address and the dynamic type.
    Record,
    /// An open array. Two words, the address and the length.
    Open,
}

/// A parameter of a procedure.
#[derive(Drop)]
pub struct Formal {
    /// How it is handed over.
    pub mode: Mode,
    /// Whether it is a VAR parameter.
    pub variable: bool,
    /// Its type.
    pub type_number: u32,
}

/// A procedure type.
#[derive(Drop)]
pub struct Signature {
    /// The parameters, in order.
    pub formals: Items<Formal>,
    /// The type of the result, of kind `Nothing` where there is none.
    pub result: u32,
}
