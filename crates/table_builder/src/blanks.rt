//! Record types of which nothing is known.

ghost use Rattle.std.specs.Prelude.{◌≡◌};
ghost use Rattle.ob_types.specs.Layout.{no_record_type};
ghost use Rattle.table_builder.specs.Contents.{IsBlank};

use check_types::{Fields, Layout};
use items::Items;
use ob_types::{Extent, RecordType};
use std::alloc::Global;

/// What is known of such a record type.
pub fn blank_layout(alloc: Global) -> Layout
    ensures { IsBlank result }
{
    Layout {
        module_number: 0,
        line: Vec::new(alloc),
        added: Vec::new(alloc),
        fields: Fields::new(alloc),
        cells: 0,
        extent: Extent {
            bytes: 0,
            wide: false,
        },
    }
}

/// The same, as the program has it.
pub fn blank_record(alloc: Global) -> RecordType
    ensures { result ≡ no_record_type }
{
    RecordType {
        module: 0,
        base: None,
        level: 0,
        fields: Items::new(alloc),
        cells: 0,
        extent: Extent {
            bytes: 0,
            wide: false,
        },
    }
}
