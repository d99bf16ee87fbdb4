//! Expressions and designators (Oberon-07 report, section 8). Numbers of types, record types, procedures, variables
//! and fields are places in the program's lists.
//!
//! What the grammar repeats is a list: the operators of a sum, the selectors of a designator, the elements of a set.
//! So a tree is at most as deep as parentheses, brackets and braces are nested.

use crate::types::TypeKind;
use items::Items;

/// An operator of one operand.
#[derive(Clone, Copy)]
pub enum Unary {
    /// `-` of an INTEGER.
    Negate,
    /// `-` of a SET.
    Complement,
    /// `~`.
    Not,
    /// ABS.
    Abs,
    /// ODD.
    Odd,
}

/// An operator of two operands, both always evaluated.
#[derive(Clone, Copy)]
pub enum Binary {
    /// `+` of INTEGERs.
    Add,
    /// `-` of INTEGERs.
    Subtract,
    /// `*` of INTEGERs.
    Multiply,
    /// DIV.
    Div,
    /// MOD.
    Mod,
    /// `+` of SETs.
    Union,
    /// `-` of SETs.
    Difference,
    /// `*` of SETs.
    Intersection,
    /// `/` of SETs.
    SymmetricDifference,
    /// `<=` of SETs.
    Subset,
    /// `>=` of SETs.
    Superset,
    /// LSL.
    Lsl,
    /// ASR.
    Asr,
    /// ROR.
    Ror,
}

/// A relation of scalars or of texts.
#[derive(Clone, Copy)]
pub enum Relation {
    Equal,
    Unequal,
    Less,
    LessEqual,
    Greater,
    GreaterEqual,
}

/// An expression.
#[derive(Drop)]
#[cycle(expressions)]
pub enum Expr {
    /// A literal or folded constant by its 64 bits: an INTEGER, BOOLEAN, CHAR or SET, or NIL as 0.
    Literal(u64),
    /// A declared procedure as a value.
    Routine(u32),
    /// The value of a scalar variable.
    Load(Designator),
    /// The value of a pointer variable, guarded by these record types one after the other.
    Guard(Box<Designator>, Items<u32>),
    /// An operator and its operand.
    Unary(Unary, Box<Expr>),
    /// A value, and what is done to it by one link after the other.
    Chain(Box<Expr>, Vec<Link>),
    /// A relation of two scalars.
    Compare(Relation, Box<Expr>, Box<Expr>),
    /// A relation of two texts.
    CompareTexts(Relation, Box<Designator>, Box<Designator>),
    /// IN: the element, and the set.
    In(Box<Expr>, Box<Expr>),
    /// IS of a pointer: whether its object is of this record type or an extension of it.
    IsPointer(Box<Expr>, u32),
    /// IS of a VAR record parameter.
    IsParameter(Designator, u32),
    /// A value that becomes a BYTE, or the argument of CHR.
    Byte(Box<Expr>),
    /// LEN.
    Length(Designator),
    /// A call with a result.
    Call(Box<Call>),
}

/// What is done to a value, with an operand of its own.
#[derive(Drop)]
#[cycle(expressions)]
pub enum Link {
    /// An operator with this right operand.
    Operate(Binary, Expr),
    /// `&`: the operand is evaluated only where the value so far is TRUE.
    And(Expr),
    /// OR: the operand is evaluated only where the value so far is FALSE.
    Or(Expr),
    /// One more element of a set.
    Element(Expr),
    /// The elements from one to another.
    Elements(Box<Expr>, Box<Expr>),
}

/// A variable, a string as an array, or a part of one, with the type that it has.
#[derive(Drop)]
#[cycle(expressions)]
pub enum Designator {
    /// The variable as a whole.
    Whole(Base, TypeKind),
    /// A part of the variable.
    Part(Box<Access>),
}

/// A variable with selectors.
#[derive(Drop)]
#[cycle(expressions)]
pub struct Access {
    /// The variable.
    pub base: Base,
    /// The type of the part.
    pub kind: TypeKind,
    /// The steps that lead to the part, one after the other, from the variable on.
    pub selectors: Vec<Selector>,
}

/// Where a designator begins.
#[derive(Clone, Copy)]
pub enum Base {
    /// In.Done.
    Done,
    /// A variable of a module.
    Global { module: u32, variable: u32 },
    /// A scalar value parameter or a local variable: the former are counted first.
    Local(u32),
    /// A parameter that is an address, by its place among all parameters.
    Parameter(u32),
    /// A use of a string as an array, by its place among those of the procedure.
    Text(u32),
}

/// A step from a variable to a part of it.
#[derive(Drop)]
#[cycle(expressions)]
pub enum Selector {
    /// An element: the array's length where its type has one, the element's type, and the index.
    Index {
        length: Option<u32>,
        element: u32,
        index: Expr,
    },
    /// A field, by the record type that adds it and its place among the fields that this type adds.
    Field {
        record: u32,
        field: u32,
    },
    /// The object of the pointer, which is guarded by these record types one after the other.
    Dereference(Items<u32>),
    /// A guard of a VAR record parameter.
    Narrow(u32),
}

/// A call.
#[derive(Drop)]
#[cycle(expressions)]
pub enum Call {
    /// Of a declared procedure.
    Direct(u32, Vec<Argument>),
    /// Of a procedure variable.
    Indirect(Designator, Vec<Argument>),
}

/// An argument, by its parameter's mode.
#[derive(Drop)]
#[cycle(expressions)]
pub enum Argument {
    /// Of mode `Value`.
    ByValue(Expr),
    /// Of mode `Place`.
    ByPlace(Designator),
    /// Of mode `Record`. Where the designator has no dynamic type its own type goes along.
    ByRecord(Designator),
    /// Of mode `Open`.
    ByOpen(Designator),
}
