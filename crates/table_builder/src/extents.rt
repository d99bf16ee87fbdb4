//! Bytes of types, counted as far as any type may have them.

ghost use Rattle.std.specs.Prelude.{◌≡◌, ◌+◌, ◌≤◌, ◌<◌, ◌*◌, ◌^◌};
ghost use Rattle.ob_types.specs.Trees.{round_up as rounded_to, with_part as part_behind, rounded_extent};
ghost use Rattle.table_builder.specs.Cells.{counted_extent};

use crate::cells::capped;
use ob_types::Extent;

/// So many bytes, as far as bytes are counted.
pub fn counted(bytes: u64, wide: bool) -> Extent
    ensures { result ≡ counted_extent (record { bytes = bytes; wide = wide }) }
{
    Extent {
        bytes: capped(bytes) as u32,
        wide,
    }
}

// The first multiple of 8 that isn't below so many bytes, where what comes begins at one.
fn round_up(wide: bool, bytes: u64) -> u64
    requires { bytes < 2 ^ 33 }
    ensures { result ≡ rounded_to wide bytes }
{
    if wide { (bytes + 7) / 8 * 8 } else { bytes }
}

/// A part behind others.
pub fn with_part(others: Extent, part: Extent) -> Extent
    ensures { result ≡ counted_extent (part_behind others part) }
{
    let start = round_up(part.wide, u64::from(others.bytes));
    counted(start + u64::from(part.bytes), others.wide || part.wide)
}

/// A record whose fields take that.
pub fn rounded(fields: Extent) -> Extent
    ensures { result ≡ counted_extent (rounded_extent fields) }
{
    counted(round_up(fields.wide, u64::from(fields.bytes)), fields.wide)
}
