//! What is known behind some modules.

ghost use Rattle.std.specs.Prelude.{List, ℕ, IfOk};
ghost use Rattle.ob_judge.specs.Modules.{no_modules as judged_no_modules};
ghost use Rattle.check_modules.specs.programs.Modules.{HasSettledModules, StandsForModules};

use check_making::TextPlace;
use check_types::names::KnownModule;
use items::Items;
use ob_types::{Characters, Module, Procedure};
use outside::Memory;
use std::alloc::Global;
use table_builder::TableBuilder;

/// What is known behind some modules: whether one of them imports In, all types, the strings of constants with the place of
/// each, what later modules see of each module, the modules as the program has them, and all procedures.
#[derive(Drop)]
pub struct Modules {
    pub imports_in: bool,
    pub types: TableBuilder,
    pub strings: Vec<Characters>,
    pub places: Vec<TextPlace>,
    pub known: Vec<KnownModule>,
    pub modules: Items<Module>,
    pub procedures: Vec<Procedure>,
}

/// No modules: there are the basic types alone.
pub fn no_modules(alloc: Global) -> Result<Modules, Memory>
    ensures settled { IfOk result (λ s. (texts : List (List ℕ)) → HasSettledModules texts s) }
    ensures stands { IfOk result (λ s. (texts : List (List ℕ)) → StandsForModules texts s judged_no_modules) }
{
    let types = TableBuilder::new(alloc)?;
    Ok(Modules {
        imports_in: false,
        types,
        strings: Vec::new(alloc),
        places: Vec::new(alloc),
        known: Vec::new(alloc),
        modules: Items::new(alloc),
        procedures: Vec::new(alloc),
    })
}
