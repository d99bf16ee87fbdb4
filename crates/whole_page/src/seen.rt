//! What a page shows of a program's code.

ghost use Rattle.std.specs.Prelude.{◌≡◌};
ghost use Rattle.whole_page.specs.Views.{lines_at, outs_at, parents_at, traces_at, view_of};

use alloc_choice::Choice;
use boundary_resolve::CodeLine;
use image_form::ProcPlace;
use link_blocks::Plan;
use lir_core::{Flow, Trace, TraceOut};

/// By what choice; procedures by their numbers: flows, the traces of each, the traces above these, their results, the lines of the
/// code, and its plan; the words of all, and where procedures stand.
#[derive(Clone, Copy)]
pub struct Seen<'a> {
    pub choice: Choice,
    pub flows: &'a [Flow],
    pub cuts: &'a [Vec<Trace>],
    pub parents: &'a [Vec<Option<u32>>],
    pub outs: &'a [Vec<TraceOut>],
    pub lines: &'a [Vec<CodeLine>],
    pub plans: &'a [Plan],
    pub code: &'a [u32],
    pub places: &'a [ProcPlace],
}

impl<'a> Seen<'a> {
    /// The traces of a procedure.
    pub(crate) fn traces_at(&self, number: usize) -> &'a [Trace]
        ensures { result.now ≡ traces_at (view_of self.now) number }
    {
        if number < self.cuts.len() {
            self.cuts[number].as_slice()
        } else {
            &[]
        }
    }

    /// The traces above these.
    pub(crate) fn parents_at(&self, number: usize) -> &'a [Option<u32>]
        ensures { result.now ≡ parents_at (view_of self.now) number }
    {
        if number < self.parents.len() {
            self.parents[number].as_slice()
        } else {
            &[]
        }
    }

    /// The results of its traces.
    pub(crate) fn outs_at(&self, number: usize) -> &'a [TraceOut]
        ensures { result.now ≡ outs_at (view_of self.now) number }
    {
        if number < self.outs.len() {
            self.outs[number].as_slice()
        } else {
            &[]
        }
    }

    /// The lines of its code.
    pub(crate) fn lines_at(&self, number: usize) -> &'a [CodeLine]
        ensures { result.now ≡ lines_at (view_of self.now) number }
    {
        if number < self.lines.len() {
            self.lines[number].as_slice()
        } else {
            &[]
        }
    }
}
