//! Why lowering gives up.

/// Why lowering gives up.
#[derive(Clone, Copy, PartialEq, Eq, Debug)]
pub enum LowerFault {
    /// A limit is passed: its number, and the procedure's where it is one of a procedure.
    Limit { number: u8, index: u32 },
    /// There isn't enough memory, or there are more than 2^32 labels, strings or variables of one procedure.
    Memory,
}
