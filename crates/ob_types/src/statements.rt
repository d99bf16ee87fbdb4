//! Statements (Oberon-07 report, section 9).

use crate::tree::{Call, Designator, Expr};
use crate::types::TypeKind;
use items::Items;

/// A whole expression, with its type. The types of its parts follow from it and from what they are parts of.
#[derive(Drop)]
pub struct Checked {
    /// The expression.
    pub form: Expr,
    /// Its type.
    pub kind: TypeKind,
}

/// A label of CASE on INTEGER or CHAR.
#[derive(Clone, Copy)]
pub enum Label {
    /// A value.
    One(i64),
    /// All values from one to another, both included.
    Range(i64, i64),
}

/// What is done where a condition holds.
#[derive(Drop)]
#[cycle(statements)]
pub struct Branch {
    /// The condition.
    pub condition: Checked,
    /// What is done.
    pub body: Vec<Stmt>,
}

/// What is done where one of these labels has the value.
#[derive(Drop)]
#[cycle(statements)]
pub struct CasePart {
    /// The labels.
    pub labels: Items<Label>,
    /// What is done.
    pub body: Vec<Stmt>,
}

/// What is done where the dynamic type is this record type or an extension of it.
#[derive(Drop)]
#[cycle(statements)]
pub struct TypePart {
    /// The record type.
    pub record: u32,
    /// What is done.
    pub body: Vec<Stmt>,
}

/// A FOR statement; the step isn't 0.
#[derive(Drop)]
#[cycle(statements)]
pub struct ForLoop {
    /// The variable.
    pub variable: Designator,
    /// Its first value.
    pub first: Checked,
    /// The limit, which is evaluated once.
    pub limit: Checked,
    /// What is added to the variable after each turn.
    pub step: i64,
    /// What is done in each turn.
    pub body: Vec<Stmt>,
}

/// A statement. A number that becomes a BYTE stands in `Byte`, but for INC and DEC, which test the new value.
#[derive(Drop)]
#[cycle(statements)]
pub enum Stmt {
    /// `:=` of a scalar.
    Assign(Designator, Checked),
    /// `:=` of an array or a string: to, and from.
    CopyArray(Designator, Designator),
    /// `:=` of a record: to, and from. The cells of the former's type are copied.
    CopyRecord(Designator, Designator),
    /// INC.
    Increase(Designator, Checked),
    /// DEC.
    Decrease(Designator, Checked),
    /// INCL.
    Include(Designator, Checked),
    /// EXCL.
    Exclude(Designator, Checked),
    /// NEW of the pointer.
    New(Designator),
    /// ASSERT.
    Assert(Checked),
    /// Out.Char.
    OutChar(Checked),
    /// Out.Int: the number, and the width.
    OutInt(Checked, Checked),
    /// Out.String.
    OutString(Designator),
    /// Out.Ln.
    OutLn,
    /// In.Char.
    InChar(Designator),
    /// A call, whose result is dropped if there is one.
    Call(Call),
    /// IF with its ELSIFs, and what is done otherwise.
    If(Vec<Branch>, Vec<Stmt>),
    /// WHILE with its ELSIFs.
    While(Vec<Branch>),
    /// REPEAT: the body, and the condition that ends it.
    Repeat(Vec<Stmt>, Checked),
    /// FOR.
    For(Box<ForLoop>),
    /// CASE on INTEGER or CHAR.
    Case(Checked, Vec<CasePart>),
    /// CASE on the dynamic type of a pointer's object.
    CasePointer(Checked, Vec<TypePart>),
    /// CASE on the dynamic type of a VAR record parameter.
    CaseParameter(Designator, Vec<TypePart>),
}
