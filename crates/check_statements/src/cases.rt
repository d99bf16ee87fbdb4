//! What a CASE is on, and its labels, judged (Oberon-07 report, section 9.5).
//!
//! `selector` says what a CASE is on: numbers, characters, or the type of a variable that is named by its identifier.
//! `value_labels` and `type_label` judge the labels of a part: rule 39. `narrowed` has the variables that are narrowed in a
//! part for a type. Each clause says that the answer is the judgement's.

mod labels;
mod selectors;
mod types;

pub use labels::{Labelled, value_labels};
pub use selectors::{Selecting, selector};
pub use types::{narrowed, tag_of, type_labels};
