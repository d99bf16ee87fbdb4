//! The image's parts.

use crate::lists::{Bytes, ProcPlaces, Words};

/// Where a procedure's code begins, and where its text stands.
#[derive(Clone, Copy)]
pub struct ProcPlace {
    /// The number of its first code word.
    pub word: u32,
    /// The number of its module, from 0 in the order in which the modules' files were named.
    pub module: u32,
    /// The line of its heading, or of its module's heading where it is the module's body, from 1.
    pub line: u32,
}

/// A program for the A64 machine.
#[derive(Drop)]
pub struct Image {
    /// The version of the image's form, 1 or 2.
    pub version: u32,
    /// Bit 0 says that some module imports `In`.
    pub flags: u32,
    /// The code words, in the order in which they lie from the code's base on.
    pub code: Words,
    /// The bytes of the globals, a multiple of 8.
    pub globals: u32,
    /// The constants, a multiple of 8 bytes.
    pub constants: Bytes,
    /// The bytes of the greatest frame, a multiple of 8.
    pub frame: u32,
    /// Where the procedures are, in the order of their code. Version 1 says nothing of them.
    pub places: ProcPlaces,
}
