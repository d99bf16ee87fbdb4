//! What is asked of a trace's positions.

ghost use Rattle.std.specs.Prelude.{◌≡◌};
ghost use Rattle.trace_needs.specs.Asked.{need_told, mention_told};

use crate::rows::Rows;
use std::marker::Model;

/// For each value the positions of a trace that need it.
#[derive(Drop)]
pub struct Needs {
    pub(crate) rows: Rows,
}

impl Model for Needs {
    ghost use Rattle.std.specs.Prelude.{List};
    ghost use Rattle.trace_needs.specs.declared.notes.Note.{Note};

    ghost Value = { List Note };

    ghost view = { λ s. s.rows.notes.items };
}

impl Needs {
    /// The first position from `at` on that needs the value. Takes no memory, and time in proportion to a logarithm of
    /// how often the trace needs values.
    #[tactic(auto, unfolding(crate::specs::Asked::need_told))]
    pub fn next_need(&self, value: u32, at: u32) -> Option<u32>
        ensures { result ≡ need_told self.now value at }
    {
        self.rows.first_from(value, at)
    }
}

/// For each value the positions of a trace that mention it.
#[derive(Drop)]
pub struct Mentions {
    pub(crate) rows: Rows,
}

impl Model for Mentions {
    ghost use Rattle.std.specs.Prelude.{List};
    ghost use Rattle.trace_needs.specs.declared.notes.Note.{Note};

    ghost Value = { List Note };

    ghost view = { λ s. s.rows.notes.items };
}

impl Mentions {
    /// The last position before `before` that mentions the value: that uses it or makes it. Takes no memory, and time in
    /// proportion to a logarithm of how often the trace mentions values.
    #[tactic(auto, unfolding(crate::specs::Asked::mention_told))]
    pub fn last_mention(&self, value: u32, before: u32) -> Option<u32>
        ensures { result ≡ mention_told self.now value before }
    {
        self.rows.last_below(value, before)
    }
}
