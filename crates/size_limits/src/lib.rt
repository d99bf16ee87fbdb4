//! How large a procedure and its frame may be: numbers that lowering, linking and the laws that join them share.
#![tactic(auto)]

/// How many values a procedure has at most.
pub const MOST_VALUES: u32 = 8_000;

/// How many blocks a procedure has at most.
pub const MOST_BLOCKS: u32 = 4_000;

/// How many slots a frame has at most.
pub const MOST_SLOTS: usize = 8_192;
