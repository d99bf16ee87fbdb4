//! A module's imports and declarations.

ghost use Rattle.std.specs.Prelude.{◌≡◌, List, ℕ, map, OnOk};
ghost use Rattle.ob_types.specs.Table.{Table};
ghost use Rattle.ob_syntax.specs.Plain.{plain_module};
ghost use Rattle.ob_judge.specs.Judged.{rule};
ghost use Rattle.ob_judge.specs.Making.{Making};
ghost use Rattle.ob_judge.specs.Modules.{SoFar, imported as judged_import, is_new as judged_new};
ghost use Rattle.ob_judge.specs.Scopes.{place, spelled};
ghost use Rattle.judged_well.specs.Standing.{IsRead};
ghost use Rattle.judged_outlines.specs.Upright.{Upright};
ghost use Rattle.legal_tables.specs.Promised.{HasLegalTypes};
ghost use Rattle.check_procedures.specs.lines.Lines.{IsLineTable};
ghost use Rattle.table_builder.specs.Growing.{Grows};
ghost use Rattle.check_types.specs.steps.Answers.{Answers};
ghost use Rattle.check_types.specs.names.Meaning.{module_of};
ghost use Rattle.check_selectors.specs.standard.Made.{IsKept};
ghost use Rattle.check_making.specs.Making.{IsSettled};
ghost use Rattle.check_making.specs.scopes.Building.{IsLater, Represents};
ghost use Rattle.check_procedures.specs.UnderWay.{IsUnderWay, BuildsUpright};
ghost use Rattle.check_modules.specs.Parts.{declared_part};

use crate::declarations::declarations;
use crate::importing::{imports, is_new};
use check_making::Surroundings;
use check_making::scopes::Building;
use check_types::names::KnownModule;
use check_types::steps::{CheckFault, Source};
use ob_syntax::declarations::Decls;
use ob_syntax::modules::Module;
use std::alloc::Global;
use std::mem::replace;

/// No module before has this name.
pub fn new_name(known: &[KnownModule], source: &Source, name: u32) -> Result<(), CheckFault>
    ensures { (t : Table) (strings : List (List ℕ)) → Answers IsKept
        (rule 36 (place source.now name) (judged_new (judged_import (map (module_of t strings) known.now) (spelled source.now name)))) result }
{
    if is_new(known, source.spelled(name))? {
        Ok(())
    } else {
        Err(source.fault(36, name))
    }
}

// No declarations.
fn no_declarations(alloc: Global) -> Decls {
    Decls {
        consts: None,
        types: None,
        vars: None,
        procedures: Vec::new(alloc),
    }
}

/// A module's imports, and its declarations, which are taken out of the tree.
pub fn declared(
    state: &mut Building,
    round: &Surroundings,
    lines: &[u32],
    tree: &mut Module,
) -> Result<(), CheckFault>
    requires under_way { IsUnderWay round.now state.old }
    requires read { IsRead round.now.source.now }
    requires lines { IsLineTable round.now.source.now.bytes lines.now }
    ensures settled { OnOk result (IsSettled round.now state.new.declaring) }
    ensures grows { OnOk result (Grows state.old.declaring.types.table state.new.declaring.types.table) }
    ensures judged { BuildsUpright round.now state.old state.new (declared_part round.now.source.now (plain_module tree.old)) result }
    ensures rest { OnOk result (tree.new ≡ record (tree.old) { decls = tree.new.decls }) }
    ensures legal { OnOk result (HasLegalTypes state.old.declaring.types.table → HasLegalTypes state.new.declaring.types.table) }
{
    imports(&mut state.declaring, round, &tree.imports)?;
    let decls = replace(&mut tree.decls, no_declarations(round.alloc));
    declarations(state, round, lines, decls)
}
