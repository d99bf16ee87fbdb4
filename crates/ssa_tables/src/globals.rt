//! Where the variables of modules stand.

ghost use Rattle.std.specs.Prelude.{◌≡◌, IfOk};
ghost use Rattle.ssa_tables.specs.Places.{module_starts, module_finish, room_by};

use crate::places::{variable_places, variables_end};
use items::Items;
use ob_types::Module;
use outside::Memory;
use std::alloc::Global;

/// Where each module's variables begin, and where its last one ends.
pub fn module_places(
    alloc: Global,
    sizes: &[u32],
    first: u32,
    modules: &[Module],
) -> Result<Items<Items<u32>>, Memory>
    ensures { IfOk result (λ list. list ≡ module_starts (room_by sizes.now) first modules.now) }
{
    let mut list = Items::new(alloc);
    let mut at = first;
    for m in modules {
        let variables = m.variables.as_slice();
        list.push(variable_places(alloc, sizes, at, variables)?)?;
        at = variables_end(sizes, at, variables);
    }
    Ok(list)
}

/// Where the last variable of the last module ends.
pub fn modules_end(sizes: &[u32], first: u32, modules: &[Module]) -> u32
    ensures { result ≡ module_finish (room_by sizes.now) first modules.now }
{
    let mut at = first;
    for m in modules {
        at = variables_end(sizes, at, m.variables.as_slice());
    }
    at
}
