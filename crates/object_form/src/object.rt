//! What an object has.

use alloc_choice::Policy;
use lir_core::{Items, TraceOut};
use trace_build::Builder;

/// A module with the results of its traces.
#[derive(Drop)]
pub struct Object {
    /// By what the results were made.
    pub policy: Policy,
    /// By what the traces were cut.
    pub builder: Builder,
    /// How many registers the results are over, 4 to 16.
    pub regs: u8,
    /// The bytes of the module's text, at most 1,048,576.
    pub source: Items<u8>,
    /// The results of the traces of the module's procedures, in the order of their numbers.
    pub outs: Items<TraceOut>,
}
