//! Statements.

ghost use Rattle.std.specs.Prelude.{◌≡◌, IfOk, string_bytes};
ghost use Rattle.bulk_text.specs.Bulk.{statement_text, kind_of};

use std::alloc::{AllocError, Global};

/// What a statement is.
#[derive(Clone, Copy)]
pub(crate) enum Kind {
    /// A product and a sum.
    Scale,
    /// An IF with two arms.
    Choose,
    /// A loop.
    Repeat,
    /// DIV and MOD.
    Divide,
}

impl Kind {
    /// The kind of a number: 0 to 2 are the first three, all others the last.
    pub(crate) fn of(number: u64) -> Kind
        ensures { result ≡ kind_of number }
    {
        match number {
            0 => Kind::Scale,
            1 => Kind::Choose,
            2 => Kind::Repeat,
            _ => Kind::Divide,
        }
    }

    /// A statement of this kind, with a number.
    pub(crate) fn statement(self, alloc: Global, k: u64) -> Result<String, AllocError>
        ensures { IfOk result (λ s. string_bytes s ≡ statement_text self k) }
    {
        match self {
            Kind::Scale => format!(in alloc; "c := c * {k} + d;"),
            Kind::Choose => format!(in alloc; "IF c < d THEN c := d - {k} ELSE d := d + {k} END;"),
            Kind::Repeat => {
                format!(in alloc; "i := 0; WHILE i < {k} DO c := c + d; i := i + 1 END;")
            }
            Kind::Divide => format!(in alloc; "d := d DIV {k} + c MOD {k};"),
        }
    }
}
