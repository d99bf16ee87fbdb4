//! Why a text is no module's.

use thiserror::Error;

/// Why a text has no symbols and no tree.
#[derive(Clone, Copy, Debug, Error)]
pub enum TextFault {
    /// It has over 1,048,576 bytes.
    #[error("over 1048576 bytes")]
    TooLong,
    /// The first rule that it breaks, and the byte where it does. Rules 10 to 14 are those of symbols (`ob_scan` says at which
    /// byte). 20: no module's symbols begin with the symbols up to this one, at that symbol or at the text's end. 21: a symbol
    /// opens the 101st construct, at that symbol.
    #[error("rule {number} is broken at byte {at}")]
    Fault { number: u8, at: u32 },
    /// There was no memory.
    #[error("out of memory")]
    Memory,
}
