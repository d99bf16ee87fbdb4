//! The widths of scalars in the layout in use.

ghost use Rattle.std.specs.Prelude.{◌≡◌, if◌then◌else◌};
ghost use Rattle.block_runs.specs.declared.code.Code.TheVariants.{Load, LoadByte, Store, StoreByte};
ghost use Rattle.ob_types.specs.Table.{Table};
ghost use Rattle.ssa_lowered.specs.Data.{layout};

use block_runs::Code;
use ob_types::TypeKind;

/// The bytes from one character of a text to the next.
pub const CHARACTER_BYTES: u64 = 1;

/// Whether a scalar of a kind takes one byte, and not eight: a CHAR, a BYTE and a BOOLEAN do.
pub fn takes_a_byte(kind: TypeKind) -> bool
    ensures { (t : Table) → result ≡ (layout t).is_small kind }
{
    match kind {
        TypeKind::Char => true,
        TypeKind::Byte => true,
        TypeKind::Bool => true,
        _ => false,
    }
}

/// The load of a scalar that takes one byte, or eight.
pub fn load_code(small: bool) -> Code
    ensures { result ≡ (if small then LoadByte else Load) }
{
    if small { Code::LoadByte } else { Code::Load }
}

/// The store of one.
pub fn store_code(small: bool) -> Code
    ensures { result ≡ (if small then StoreByte else Store) }
{
    if small { Code::StoreByte } else { Code::Store }
}
