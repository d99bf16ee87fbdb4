//! How many procedure types there are.

ghost use Rattle.std.specs.Prelude.{◌≡◌, ◌≤◌, length, OnOk, IfErr};

use check_types::steps::CheckFault;
use table_builder::TableBuilder;

/// Each procedure type has a number of 32 bits; without one there is no memory for it.
pub fn count_signatures(types: &TableBuilder) -> Result<(), CheckFault>
    ensures few { OnOk result (length types.now.table.types.signatures ≤ 4294967295) }
    ensures memory { IfErr result (λ e. e ≡ CheckFault.Memory) }
{
    match u32::try_from(types.table.types.signatures().len()) {
        Ok(_) => Ok(()),
        Err(_) => Err(CheckFault::Memory),
    }
}
