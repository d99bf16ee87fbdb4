//! What is left to do.

use eval_at_once::Active;
use ob_types::{
    Argument, Binary, Branch, CasePart, Designator, Expr, Link, Relation, Selector, Stmt, TypePart,
    Unary,
};

/// What is done with the last values.
#[derive(Clone, Copy)]
pub enum Act {
    /// The value of a variable.
    Fetch,
    /// An operator of one operand.
    OneOperand(Unary),
    /// That the last value is a number.
    Number,
    /// That it is a number that may be an element of a set.
    Element,
    /// An operator of two operands.
    TwoOperands(Binary),
    /// A relation of two values.
    Compared(Relation),
    /// A relation of two texts.
    TextsCompared(Relation),
    /// IN.
    Contained,
    /// One more element, or those from one to another.
    WithElement,
    WithRange,
    /// IS.
    PointerIs(u32),
    ParameterIs(u32),
    /// A value that becomes a BYTE.
    AsByte,
    /// LEN, of an array of this length if it is known.
    LengthOf(Option<u64>),
    /// An array with its length.
    AsSpan(Option<u64>),
    /// An address alone.
    AsPlace,
    /// A record with its dynamic type, or else with this.
    AsRecord(u32),
    /// An element of so many cells.
    ElementOf(u64),
    /// `:=` of a scalar.
    Put,
    /// FOR's first assignment, which keeps the address.
    PutFirst,
    /// `:=` of an array with elements of so many cells, and of a record of so many cells.
    CopyArray(u64),
    CopyRecord(u64),
    /// INC and DEC, of a BYTE or not.
    ChangeNumber(Binary, bool),
    /// INCL and EXCL.
    ChangeSet(Binary),
    /// NEW of this record type.
    Make(u32),
    /// ASSERT, Out and In.
    Assert,
    OutChar,
    OutInt,
    OutString,
    InChar,
    /// TRUE.
    Yes,
    /// The last value goes.
    Drop,
    /// What no program does that makes sense.
    Nothing,
    /// A call of a procedure with so many arguments; its result is wanted or not.
    Invoke(u32, u64, bool),
    /// A call of the procedure value behind so many arguments.
    InvokeValue(u64, bool),
}

/// How far REPEAT and FOR have come.
#[derive(Clone, Copy)]
pub enum Stage {
    /// The beginning, as of any statement.
    Begin,
    /// Before a round, with the bound of the rounds.
    Rounds(u64),
    /// REPEAT behind its condition, FOR behind a round's body.
    Behind(u64),
}

/// How far branches have come.
#[derive(Clone, Copy)]
pub enum Branching {
    /// Before these: whether one was done is a value.
    Try,
    /// Behind the condition of the first.
    Chosen,
    /// WHILE, before a round.
    Rounds(u64),
    /// WHILE, behind a round.
    Again(u64),
}

/// What CASE on types selects by.
#[derive(Clone, Copy)]
pub enum Typing {
    /// A pointer.
    OfPointer,
    /// A VAR record parameter.
    OfParameter,
}

/// A thing to do. Values are taken from the stack, the last first.
#[derive(Drop)]
pub enum Task<'a> {
    /// Something with the last values.
    Do(Act),
    /// An expression: its value.
    Evaluate(&'a Expr),
    /// What links make of the last value.
    Follow(&'a [Link]),
    /// A designator: what it names.
    Locate(&'a Designator),
    /// Where selectors lead from the last value.
    Select(&'a [Selector]),
    /// Guards of a pointer.
    Guards(&'a [u32]),
    /// Arguments: each one a value.
    Gather(&'a [Argument]),
    /// A statement, from a stage on.
    Perform(&'a Stmt, Stage),
    /// Statements, unless the last value holds where that is asked.
    PerformAll(&'a [Stmt], bool),
    /// Branches of IF or WHILE.
    Branches(&'a [Branch], Branching),
    /// CASE on the last value, a number.
    Cases(&'a [CasePart]),
    /// CASE on the type of the last value.
    Types(&'a [TypePart], Typing),
    /// Behind a call's result: back to its caller, where the result is wanted or not.
    Return(Active, bool),
    /// This is the call that runs.
    Resume(Active),
}
