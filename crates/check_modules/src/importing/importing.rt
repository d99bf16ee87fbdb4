//! Imports judged.

ghost use Rattle.std.specs.Prelude.{◌≡◌, ◌||◌, OnOk};
ghost use Rattle.ob_syntax.specs.Plain.{plain_option, plain_imports};
ghost use Rattle.ob_judge.specs.Modules.{import_part, origin as judged_origin, is_in as judged_in};
ghost use Rattle.ob_judge.specs.Declarations.{each};
ghost use Rattle.check_types.specs.names.Meaning.{imported_of};
ghost use Rattle.check_making.specs.Making.{IsSettled};
ghost use Rattle.check_making.specs.Parts.{Judges};
ghost use Rattle.check_modules.specs.importing.Importing.{known_as, imports_part, more_imports};

use crate::importing::finding::imported;
use check_making::{Declaring, Surroundings, declare_in, innermost};
use check_types::names::{Declared, Imported, Named};
use check_types::steps::CheckFault;
use ob_syntax::modules::{Import, Imports, NextImport};

// The name of the module that is imported.
fn origin(tree: &Import) -> u32
    ensures { result ≡ judged_origin tree.now }
{
    match &tree.of {
        None => tree.name,
        Some(of) => of.name,
    }
}

// Whether this is In.
fn is_in(of: Imported) -> bool
    ensures { result ≡ judged_in (imported_of of) }
{
    match of {
        Imported::In => true,
        _ => false,
    }
}

// Whether one of two holds.
fn either(a: bool, b: bool) -> bool
    ensures { result ≡ (a || b) }
{
    a || b
}

// A module is known under this name.
fn know(
    state: &mut Declaring,
    round: &Surroundings,
    name: u32,
    of: Imported,
) -> Result<(), CheckFault>
    requires { IsSettled round.now state.old }
    ensures settled { OnOk result (IsSettled round.now state.new) }
    ensures types { state.new.types ≡ state.old.types }
    ensures judged { Judges round.now state.old state.new (known_as round.now.source.now name (imported_of of)) result }
{
    let is_in = is_in(of);
    let imports_in = either(state.imports_in, is_in);
    state.imports_in = imports_in;
    let declared = Declared {
        named: Named::Module(of),
        exported: false,
    };
    let at = innermost(&state.levels);
    declare_in(
        &mut state.levels,
        at,
        round.alloc,
        round.source.spelled(name),
        declared,
    )?;
    Ok(())
}

// One import: 36 at the name under which it is known here, 38 at the name of no earlier module.
fn import_one(state: &mut Declaring, round: &Surroundings, tree: &Import) -> Result<(), CheckFault>
    requires { IsSettled round.now state.old }
    ensures settled { OnOk result (IsSettled round.now state.new) }
    ensures types { state.new.types ≡ state.old.types }
    ensures judged { Judges round.now state.old state.new (import_part round.now.source.now tree.now) result }
{
    state.stand(round, tree.name)?;
    let symbol = origin(tree);
    match imported(round.modules, round.source.spelled(symbol))? {
        None => Err(round.source.fault(38, symbol)),
        Some(of) => know(state, round, tree.name, of),
    }
}

// Further imports.
fn import_more(
    state: &mut Declaring,
    round: &Surroundings,
    more: &[NextImport],
) -> Result<(), CheckFault>
    requires { IsSettled round.now state.old }
    ensures settled { OnOk result (IsSettled round.now state.new) }
    ensures types { state.new.types ≡ state.old.types }
    ensures judged { Judges round.now state.old state.new (more_imports round.now.source.now more.now) result }
{
    for next in more {
        import_one(state, round, &next.import)?;
    }
    Ok(())
}

/// The imports of a module.
pub fn imports(
    state: &mut Declaring,
    round: &Surroundings,
    tree: &Option<Imports>,
) -> Result<(), CheckFault>
    requires { IsSettled round.now state.old }
    ensures settled { OnOk result (IsSettled round.now state.new) }
    ensures types { state.new.types ≡ state.old.types }
    ensures judged { Judges round.now state.old state.new (imports_part round.now.source.now (plain_option plain_imports tree.now)) result }
{
    match tree {
        None => Ok(()),
        Some(list) => {
            import_one(state, round, &list.first)?;
            import_more(state, round, &list.more)
        }
    }
}
