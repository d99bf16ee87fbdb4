//! What is seen of a module.

ghost use Rattle.std.specs.Prelude.{◌≡◌, List, ℕ, IfOk, IfErr};
ghost use Rattle.ob_types.specs.Table.{Table};
ghost use Rattle.check_types.specs.names.Meaning.{module_of};
ghost use Rattle.check_making.specs.Making.{strings_of, IsSettled};
ghost use Rattle.check_making.specs.Staying.{ModuleStays};
ghost use Rattle.check_modules.specs.importing.Ends.{seen};

use check_making::{Declaring, Surroundings};
use check_types::names::{KnownModule, Level};
use check_types::steps::CheckFault;
use items::Items;

/// What the modules behind this one see of it: its name, and the names of its scope but for its imports.
pub fn known_module(
    state: &mut Declaring,
    round: &Surroundings,
    name: u32,
) -> Result<KnownModule, CheckFault>
    requires { IsSettled round.now state.old }
    ensures types { state.new.types ≡ state.old.types }
    ensures strings { state.new.strings ≡ state.old.strings }
    ensures places { state.new.places ≡ state.old.places }
    ensures imports_in { state.new.imports_in ≡ state.old.imports_in }
    ensures seen { IfOk result (λ k. (t : Table) (strings : List (List ℕ)) → module_of t strings k ≡ seen round.now.source.now name t strings state.old.levels.items) }
    ensures memory { IfErr result (λ e. e ≡ CheckFault.Memory) }
{
    let bytes = Items::from_slice(round.alloc, round.source.spelled(name))?;
    match state.levels.pop() {
        Some(names) => Ok(KnownModule { name: bytes, names }),
        None => unreachable!(),
    }
}
