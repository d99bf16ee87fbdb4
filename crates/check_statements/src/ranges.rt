//! Ranges of a CASE's labels, no two of which overlap.
//!
//! The judgement (`overlaps` of ob_judge) asks of each new range whether it overlaps one of those before. Here they lie in
//! an ordered map from where they begin to where they end, so that only the last one that begins at or before the new
//! one's end has to be looked at.

mod ranges;

pub use ranges::LabelRanges;
