//! Operands.

use crate::trees::{Place, Value};
use check_types::TypeRef;
use ob_types::Stmt;

/// What an operand is.
#[derive(Drop)]
pub enum What {
    /// A variable or a part of one.
    Named(Place),
    /// A value.
    Valued(Value),
    /// A string, by the number of its characters among the scope's texts.
    Chars(u32),
    /// A declared procedure.
    Code { number: u32, is_local: bool },
    /// A call of a proper standard procedure, which has no type.
    Proper(Box<Stmt>),
}

/// How it may be used.
#[derive(Clone, Copy)]
pub enum Use {
    /// As a variable, that may be read-only, a VAR record parameter, or narrowed in a CASE on types.
    Variable {
        read_only: bool,
        tagged: bool,
        narrowed: bool,
    },
    /// As a factor of a constant expression.
    Constant,
    /// As a value alone.
    Value,
}

/// A checked expression with its type.
#[derive(Drop)]
pub struct Operand {
    pub of: TypeRef,
    pub what: What,
    pub usage: Use,
}
