//! Types by their numbers.

ghost use Rattle.std.specs.Prelude.{◌≡◌, IfOk, IfErr};
ghost use Rattle.table_builder.specs.Builder.{IsBuilt};
ghost use Rattle.check_making.specs.Making.{AreNumbered, IsSettled};
ghost use Rattle.check_making.specs.scopes.Numbers.{AreNumbersOf};

use crate::{Declaring, Surroundings};
use check_types::TypeRef;
use check_types::steps::CheckFault;
use items::Items;
use std::alloc::Global;
use table_builder::TableBuilder;

// The numbers of these types.
fn numbers_of(
    alloc: Global,
    types: &TableBuilder,
    all: &[TypeRef],
) -> Result<Items<u32>, CheckFault>
    requires built { IsBuilt types.now }
    requires numbered { AreNumbered types.now.table.entries.items all.now }
    ensures { IfOk result (λ ns. AreNumbersOf types.now.table.entries.items ns all.now) }
{
    let mut numbers = Items::new(alloc);
    for of in all {
        let number = types.number(*of);
        numbers.push(number)?;
    }
    Ok(numbers)
}

/// The numbers of the types of all variables.
pub fn variable_numbers(state: &Declaring, round: &Surroundings) -> Result<Items<u32>, CheckFault>
    requires { IsSettled round.now state.now }
    ensures numbers { IfOk result (λ ns. AreNumbersOf state.now.types.table.entries.items ns state.now.variables.items) }
    ensures memory { IfErr result (λ e. e ≡ CheckFault.Memory) }
{
    match numbers_of(round.alloc, &state.types, &state.variables) {
        Ok(numbers) => Ok(numbers),
        Err(_) => Err(CheckFault::Memory),
    }
}
