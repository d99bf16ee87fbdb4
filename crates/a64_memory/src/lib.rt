//! The machine's memory: a few regions of bytes, each at its base address.
//!
//! Loads and stores are of 8 bytes or of 1, lowest byte first, and are made in the first region in which all
//! their bytes lie; where there is none they answer so, and nothing changes. Contracts see a region as an area, plain
//! bytes at a base (`specs/Memory.antt`), and `proofs/` has what loads give after stores, by addresses. A region
//! reserves its memory when it is made and touches what is stored into, so loads and stores take none.
#![tactic(auto)]

mod access;
mod areas;
mod chunk;
mod chunks;
mod region;

pub use access::{load1, load8, store1, store8};
pub use areas::{
    DATA_BASE, FRAMES, FRAMES_BASE, HEAP_BASE, HEAP_WORDS, LOCAL_BASE, LOCAL_WORDS, MOST_CALLS,
    heap_bytes, local_bytes,
};
pub use region::Region;
