//! How operands may be used.

ghost use Rattle.std.specs.Prelude.{◌≡◌};
ghost use Rattle.ob_judge.specs.Operands.{Operand as Judgement, is_variable as asks_variable, is_read_only as asks_read_only, is_tagged as asks_tagged, is_narrowed as asks_narrowed, is_constant as asks_constant};
ghost use Rattle.check_operands.specs.Operands.{use_of};

use crate::operand::Use;

impl Use {
    /// As a variable.
    pub fn is_variable(self) -> bool
        ensures { (x : Judgement) → use_of self ≡ x.use_ → asks_variable x ≡ result }
    {
        match self {
            Use::Variable { .. } => true,
            _ => false,
        }
    }

    /// As a variable that mustn't be written.
    pub fn is_read_only(self) -> bool
        ensures { (x : Judgement) → use_of self ≡ x.use_ → asks_read_only x ≡ result }
    {
        match self {
            Use::Variable { read_only, .. } => read_only,
            _ => false,
        }
    }

    /// As a VAR record parameter.
    pub fn is_tagged(self) -> bool
        ensures { (x : Judgement) → use_of self ≡ x.use_ → asks_tagged x ≡ result }
    {
        match self {
            Use::Variable { tagged, .. } => tagged,
            _ => false,
        }
    }

    /// As a variable that is narrowed.
    pub fn is_narrowed(self) -> bool
        ensures { (x : Judgement) → use_of self ≡ x.use_ → asks_narrowed x ≡ result }
    {
        match self {
            Use::Variable { narrowed, .. } => narrowed,
            _ => false,
        }
    }

    /// As a factor of a constant expression.
    pub fn is_constant(self) -> bool
        ensures { (x : Judgement) → use_of self ≡ x.use_ → asks_constant x ≡ result }
    {
        match self {
            Use::Constant => true,
            _ => false,
        }
    }
}
