//! Lists in public types.
//!
//! A `Vec` is seen by contracts with its capacity and its place in memory, so two of them are rarely equal. `Items`
//! keeps a vector and is seen as the list of its items alone: a type that has its lists in `Items` is a value that
//! clauses compare and definitions build. The layers above put `Items` where the public surface has a list.
#![tactic(auto)]

mod items;

pub use items::Items;
