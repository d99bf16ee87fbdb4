//! The commands of the meaning: `mean` and `both`.
//!
//! `mean` does what the program of some modules means, turn by turn; `both` tells beside each other how that ends and how the machine
//! ends that runs the program's image, on the same input. `specs/Meanings.antt` and `specs/Comparisons.antt` say what they come to
//! when nothing fails: to one thing each, whatever program the texts are found to be (`meanings_come_to_one`,
//! `comparisons_come_to_one`). Where turns and steps suffice, both lines of `both` say the same (`both_agree`).
#![tactic(auto)]

mod comparing;
mod imaging;
mod input;
mod laws;
mod meaning;
mod programs;

pub use comparing::both;
pub use input::read_input;
pub use laws::{both_agree, comparisons_come_to_one, meanings_come_to_one};
pub use meaning::mean;
pub use programs::program_of;
pub use trc_texts::refused;
