//! Selected procedures as flows, and where values stand while a flow's lines run.
//!
//! A flow has nodes in place of blocks and no critical edge; `specs/Flows.antt` gives it the view over which `block_runs`
//! says what code means. An allocator takes a trace and gives places and lines; what makes its result sound is said in
//! `specs/Sound.antt`, by numbers and for whatever operations do. `walks_are_sound` leads there from a walk by the names
//! of values (`specs/Walks.antt`), which is what an allocator shows; edges and code need `IsSound` alone.
#![tactic(auto)]

mod calls;
mod flow;
mod laws;
mod live_sets;
mod living;
mod places;
mod registers;

pub use block_runs::{Code as Template, End as Leave, Numbers};
pub use calls::{argument_place, is_aimed};
pub use flow::{Flow, Lir, Node, Trace};
pub use items::Items;
pub use laws::walks_are_sound;
pub use live_sets::LiveSets;
pub use living::next_live;
pub use places::{Line, Move, Place, Places, TraceIn, TraceOut};
pub use registers::RegisterList;
