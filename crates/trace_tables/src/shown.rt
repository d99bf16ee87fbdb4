//! A procedure that is shown.

use alloc_choice::Used;
use boundary_resolve::CodeLine;
use lir_core::{Flow, Trace, TraceOut};

/// A procedure that is shown: its number, how many registers there are, its flow in traces with their results, policies and
/// parents, the lines of its code in the order of the code, the words of the whole image, the word where the procedure begins,
/// and how many words each part of it has (`line_words::line_widths`).
#[derive(Clone, Copy)]
pub struct ShownProcedure<'a> {
    pub number: u32,
    pub registers: u8,
    pub flow: &'a Flow,
    pub traces: &'a [Trace],
    pub outs: &'a [TraceOut],
    pub lines: &'a [CodeLine],
    pub policies: &'a [Used],
    pub parents: &'a [Option<u32>],
    pub code: &'a [u32],
    pub entry: u32,
    pub widths: &'a [u32],
}
