//! The finished program.

ghost use Rattle.std.specs.Prelude.{◌≡◌, List, ℕ};
ghost use Rattle.ob_judge.specs.Modules.{SoFar, program_of};
ghost use Rattle.judged_tree.specs.Plain.{plain_program};
ghost use Rattle.judged_tree.specs.Outline.{outlined_program};
ghost use Rattle.judged_programs.specs.ProgramOf.{HasResults};
ghost use Rattle.table_builder.specs.Builder.{IsBuilt};
ghost use Rattle.judged_outlines.specs.ends.Ends.{AllPoint};
ghost use Rattle.check_making.specs.scopes.InTurn.{AllUseInTurn};
ghost use Rattle.check_modules.specs.programs.Modules.{StandsForModules};

use crate::programs::modules::Modules;
use check_types::TypeTable;
use items::Items;
use ob_types::Program;
use table_builder::TableBuilder;

/// The program of these modules.
pub fn into_program(state: Modules) -> Program
    requires { IsBuilt state.types }
    ensures types { result.types ≡ state.types.table.types }
    ensures program { (texts : List (List ℕ)) (c : SoFar) → StandsForModules texts state c → AllPoint c.known.bases
        → plain_program texts result ≡ outlined_program (program_of c) }
    ensures results { (texts : List (List ℕ)) (c : SoFar) → StandsForModules texts state c → HasResults result }
    ensures in_turn { (texts : List (List ℕ)) (c : SoFar) → StandsForModules texts state c → AllUseInTurn result.procedures }
{
    let Modules {
        imports_in,
        types,
        strings: _,
        places: _,
        known: _,
        modules,
        procedures,
    } = state;
    let TableBuilder {
        alloc: _,
        table,
        numbers: _,
        elements: _,
    } = types;
    let TypeTable {
        types,
        entries: _,
        layouts: _,
        bases: _,
    } = table;
    Program {
        types,
        modules,
        procedures: Items::from_vec(procedures),
        imports_in,
    }
}
