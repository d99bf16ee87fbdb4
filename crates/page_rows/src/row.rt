//! What is told of a procedure.

use crate::traffic::Traffic;

/// Whether a procedure is drawn and tabled.
#[derive(Clone, Copy, PartialEq, Eq, Debug)]
pub enum Detail {
    Shown,
    /// It has over 400 blocks.
    Large,
    /// With its lines of code the page would show over 200,000.
    Late,
}

/// A procedure in numbers.
#[derive(Clone, Copy)]
pub struct Row {
    pub number: usize,
    pub blocks: usize,
    pub values: u32,
    pub traces: usize,
    pub traffic: Traffic,
    /// What its code moves by another policy, where there is one.
    pub other: Option<Traffic>,
    pub detail: Detail,
}
