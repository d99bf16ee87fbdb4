//! Why a text has no symbols.

ghost use Rattle.std.specs.Prelude.{◌≡◌};
ghost use Rattle.ob_scan.specs.declared.fault.ScanFault.TheVariants.{Memory};

use std::alloc::AllocFailed;
use thiserror::Error;

/// Why no symbol stands at a place.
#[derive(Clone, Copy)]
pub enum NoSymbol {
    /// No symbol begins with this byte.
    BadByte,
    /// A comment isn't closed.
    OpenComment,
    /// The line or the text ends before the closing quote.
    OpenString,
    /// A literal is past its range.
    NumberTooLarge,
    /// An identifier has over 255 bytes.
    NameTooLong,
}

/// Why there are no symbols: a rule that is broken at a place, or want of memory.
#[derive(Clone, Copy, Debug, Error)]
pub enum ScanFault {
    /// The first rule that is broken, and the byte's index at which it is:
    /// 10 a byte that begins no symbol (that byte), 11 a comment that isn't closed (its outermost opening),
    /// 12 a string that isn't closed on its line (its quote), 13 a literal past its range (its first digit),
    /// 14 an identifier of over 255 bytes (its first byte).
    #[error("rule {number} of symbols is broken at byte {at}")]
    Fault { number: u8, at: u32 },
    /// Memory ran out.
    #[error("out of memory")]
    Memory,
}

impl<T: Drop> From<AllocFailed<T>> for ScanFault {
    ghost from_gives = { λ _ e. e ≡ Memory };

    fn from(_error: AllocFailed<T>) -> Self {
        ScanFault::Memory
    }
}
