//! The call that runs.

use eval_store::Handed;
use items::Items;

/// The call that runs: the bound of its loops and calls, the procedure, its object's number and its arguments.
#[derive(Drop)]
pub struct Active {
    pub fuel: u64,
    pub procedure: u32,
    pub frame: u64,
    pub arguments: Items<Handed>,
}
