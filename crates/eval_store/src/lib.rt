//! What the meaning of programs works on, in vectors: cells, objects, addresses, turns; and the meaning's small acts on
//! it.
//!
//! A `World` is what contracts see as a state of the meaning. Each act has the meaning's own word for its clause: it
//! gives the value and the state that the meaning gives, or says why there is none (`Did`). An object's cell is found
//! by two indices, so that no list is walked.
#![tactic(auto)]

mod cell;
mod deeds;
mod handed;
mod object;
mod objects;
mod places;
mod relation;
mod stop;
mod texts;
mod values;
mod world;

pub use cell::{Cell, CellForm};
pub use handed::{Address, Area, Handed, HandedForm, Span};
pub use object::Object;
pub use objects::Objects;
pub use places::{is_inside, is_of};
pub use relation::relation_of;
pub use stop::Stop;
pub use texts::Parting;
pub use world::World;
