//! Mentions that are noted once they are asked.

ghost use Rattle.std.specs.Prelude.{◌≡◌, ℕ, List, IfOk};
ghost use Rattle.trace_needs.specs.Needs.{positions_of, last_mention};

use crate::asking::Mentions;
use crate::building::mentions_along;
use lir_core::{Flow, Trace};
use outside::Memory;
use std::alloc::Global;
use std::marker::Model;

/// The positions of a trace of a flow, of which contracts see what they use and make, but not what is live. The table of
/// what they mention is made when it is first asked.
#[derive(Drop)]
pub struct LateMentions<'a> {
    flow: &'a Flow,
    trace: &'a Trace,
    made: Option<Mentions>,
}

impl<'a> Model for LateMentions<'a> {
    ghost use Rattle.std.specs.Prelude.{◌≡◌, ℕ, List, [], IfSome};
    ghost use Rattle.trace_needs.specs.Needs.{Position, positions_of, last_mention};
    ghost use Rattle.trace_needs.specs.Asked.{mention_told};

    ghost Value = { List Position };

    ghost view = { λ s. positions_of s.flow.now [] s.trace.now.nodes };

    ghost invariant = { λ s. IfSome s.made (λ ms. (v before : ℕ) → mention_told ms v before ≡ last_mention (positions_of s.flow.now [] s.trace.now.nodes) v before) };
}

impl<'a> LateMentions<'a> {
    /// The positions of a trace. Takes no memory.
    #[tactic(auto, using(crate::proofs::Alike::mentions_alike))]
    pub fn new(flow: &'a Flow, trace: &'a Trace) -> LateMentions<'a>
        ensures last_mention { (rows : List (List ℕ)) (v before : ℕ)
            → last_mention result v before ≡ last_mention (positions_of flow.now rows trace.now.nodes) v before }
    {
        LateMentions {
            flow,
            trace,
            made: None,
        }
    }

    /// The last position before `before` that mentions the value: that uses it or makes it. At first it takes the memory and
    /// the time of `mentions`; then no memory, and time in proportion to a logarithm of how often the trace mentions values.
    pub fn last_mention(
        &mut self,
        alloc: Global,
        value: u32,
        before: u32,
    ) -> Result<Option<u32>, Memory>
        ensures last { IfOk result (λ mention. mention ≡ last_mention self.old value before) }
        ensures same { self.new ≡ self.old }
    {
        self.make(alloc)?;
        match &self.made {
            Some(made) => Ok(made.last_mention(value, before)),
            None => Err(Memory),
        }
    }

    // Makes the table, unless it is made.
    fn make(&mut self, alloc: Global) -> Result<(), Memory>
        ensures { self.new ≡ self.old }
    {
        if self.made.is_none() {
            self.made = Some(mentions_along(alloc, self.flow, self.trace.nodes.as_slice())?);
        }
        Ok(())
    }
}
