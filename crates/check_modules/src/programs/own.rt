//! A module as the program has it.

ghost use Rattle.std.specs.Prelude.{◌≡◌, map, IfOk, IfErr};
ghost use Rattle.ob_judge.specs.Scopes.{spelled};
ghost use Rattle.check_types.specs.TypeMeaning.{type_shape};
ghost use Rattle.check_making.specs.Making.{table_of, strings_of, offered_of, IsSettled};
ghost use Rattle.check_modules.specs.programs.Entities.{AreTold};
ghost use Rattle.check_modules.specs.programs.Modules.{IsModuleOf};

use crate::programs::objects::objects_of;
use check_making::scopes::variable_numbers;
use check_making::{Declaring, Surroundings};
use check_types::steps::CheckFault;
use items::Items;
use ob_types::Module;

/// The module of this name, whose body has this number: its names and variables, once its declarations have been judged.
pub fn module_with(
    state: &Declaring,
    round: &Surroundings,
    name: u32,
    body: u32,
) -> Result<Module, CheckFault>
    requires settled { IsSettled round.now state.now }
    requires told { AreTold state.now.types.table.entries.items state.now.objects.items }
    ensures is_module { IfOk result (λ m. IsModuleOf round.now.texts.now state.now.types.table m (record {
      name = spelled round.now.source.now name;
      objects = offered_of (table_of state.now) (strings_of state.now) state.now.objects.items;
      variables = map (type_shape (table_of state.now)) state.now.variables.items;
      body = body;
    })) }
    ensures memory { IfErr result (λ e. e ≡ CheckFault.Memory) }
{
    let name = Items::from_slice(round.alloc, round.source.spelled(name))?;
    let objects = objects_of(round.alloc, &state.types, &state.places, &state.objects)?;
    let variables = variable_numbers(state, round)?;
    Ok(Module {
        name,
        objects,
        variables,
        body,
    })
}
