//! The symbols of a text of Oberon-07.
//!
//! `scan` takes the bytes of a text and gives its symbols with their places, or the first rule of
//! symbols that the text breaks. The layer above cites `Scans`: which symbols a text has is said by
//! prefixes of the text, while the code reads byte by byte. (Oberon-07 report, section 3.)
#![tactic(auto)]

mod blanks;
mod classes;
mod fault;
mod laws;
mod marks;
mod names;
mod numbers;
mod quoted;
mod reserved;
mod scanner;

pub use fault::ScanFault;
pub use laws::{each_text_is_scanned, scans_once, symbols_lie_in_order, symbols_spell_their_kinds};
pub use ob_symbol::{Delimiter, Kind, Reserved, Symbol};
pub use scanner::scan;
