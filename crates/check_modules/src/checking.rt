//! One module more.

ghost use Rattle.std.specs.Prelude.{◌≡◌, List, ℕ, Some, suc, length, slice_get, IfOk, IfErr};
ghost use Rattle.ob_syntax.specs.Plain.{plain_module};
ghost use Rattle.ob_judge.specs.Modules.{SoFar, first_making, with_module};
ghost use Rattle.judged_well.specs.Standing.{IsRead};
ghost use Rattle.judged_outlines.specs.Upright.{UprightSoFar};
ghost use Rattle.check_types.specs.steps.Answers.{Answers};
ghost use Rattle.table_builder.specs.Builder.{IsBuilt};
ghost use Rattle.check_making.specs.Staying.{AreSettled};
ghost use Rattle.check_making.specs.Making.{AreTextPlaces, IsSettled, Makes};
ghost use Rattle.check_making.specs.Parts.{IsNextModule};
ghost use Rattle.check_modules.specs.programs.Modules.{HasSettledModules, StandsForModules, modules_behind};
ghost use Rattle.check_modules.specs.Ended.{HasSoFar};

use crate::declaring::{declared, new_name};
use crate::ending::{JudgedModule, end_module};
use crate::programs::Modules;
use check_making::scopes::Building;
use check_making::{Declaring, Surroundings, TextPlace, next_number};
use check_procedures::lines::line_starts;
use check_types::names::KnownModule;
use check_types::steps::{CheckFault, Source};
use items::Items;
use ob_syntax::modules::Module;
use ob_types::{Characters, Module as ModuleOf};
use std::alloc::Global;
use table_builder::TableBuilder;

// The state where a module begins.
fn begun(
    round: &Surroundings,
    types: TableBuilder,
    strings: Vec<Characters>,
    places: Vec<TextPlace>,
    imports_in: bool,
) -> Result<Declaring, CheckFault>
    requires built { IsBuilt types }
    requires outermost { round.now.depth ≡ 0 }
    requires own_text { slice_get round.now.texts.now round.now.module_number ≡ Some round.now.source.now.bytes }
    requires places { AreTextPlaces round.now.texts.now places.items strings.items }
    requires modules { AreSettled types.table strings.items round.now.modules.now }
    ensures settled { IfOk result (λ s. IsSettled round.now s) }
    ensures types { IfOk result (λ s. s.types ≡ types) }
    ensures judged { IfOk result (λ s. (c : SoFar) → IsNextModule round.now types.table strings.items imports_in c → Makes round.now s (first_making c)) }
    ensures memory { IfErr result (λ e. e ≡ CheckFault.Memory) }
{
    match Declaring::begin(round, types, strings, places, imports_in) {
        Ok(state) => Ok(state),
        Err(_) => Err(CheckFault::Memory),
    }
}

// What is known behind one module more.
fn behind(building: Building, known: Vec<KnownModule>, modules: Items<ModuleOf>) -> Modules
    ensures { result ≡ modules_behind building known modules }
{
    let Building {
        declaring,
        procedures,
    } = building;
    let Declaring {
        imports_in,
        types,
        strings,
        places,
        levels: _,
        procedure: _,
        is_type_part: _,
        forward: _,
        standing: _,
        values: _,
        variables: _,
        objects: _,
    } = declaring;
    Modules {
        imports_in,
        types,
        strings,
        places,
        known,
        modules,
        procedures,
    }
}

/// A module is judged behind those before, and its tree let go as far as it is judged. `texts` are the bytes of all modules' texts
/// by their numbers.
pub fn check_module(
    state: Modules,
    alloc: Global,
    texts: &[Items<u8>],
    source: &Source,
    mut tree: Module,
) -> Result<Modules, CheckFault>
    requires settled { HasSettledModules texts.now state }
    requires so_far { HasSoFar texts.now state }
    requires own_text { slice_get texts.now (length state.known.items) ≡ Some source.now.bytes }
    requires read { IsRead source.now }
    ensures settled { IfOk result (λ s. HasSettledModules texts.now s) }
    ensures number { IfOk result (λ s. length s.known.items ≡ suc (length state.known.items)) }
    ensures judged { (c : SoFar) → StandsForModules texts.now state c → UprightSoFar c
        → Answers (StandsForModules texts.now) (with_module source.now (plain_module tree) c) result }
{
    new_name(state.known.as_slice(), source, tree.name)?;
    let module_number = next_number(state.known.as_slice())?;
    let lines = line_starts(alloc, texts[module_number as usize].as_slice())?;
    let Modules {
        imports_in,
        types,
        strings,
        places,
        mut known,
        mut modules,
        procedures,
    } = state;
    let round = Surroundings {
        alloc,
        source,
        texts,
        modules: known.as_slice(),
        module_number,
        depth: 0,
    };
    let declaring = begun(&round, types, strings, places, imports_in)?;
    let mut building = Building {
        declaring,
        procedures,
    };
    declared(&mut building, &round, lines.as_slice(), &mut tree)?;
    let ended = end_module(&mut building, &round, lines.as_slice(), &tree)?;
    let JudgedModule { own, seen } = ended;
    modules.push(own)?;
    known.push(seen)?;
    Ok(behind(building, known, modules))
}
