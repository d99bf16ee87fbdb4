//! The state where a module begins.

ghost use Rattle.std.specs.Prelude.{◌≡◌, Some, IfOk, slice_get};
ghost use Rattle.ob_judge.specs.Modules.{SoFar, first_making};
ghost use Rattle.table_builder.specs.Builder.{IsBuilt};
ghost use Rattle.check_making.specs.Staying.{AreSettled};
ghost use Rattle.check_making.specs.Making.{AreTextPlaces, Makes, IsSettled};
ghost use Rattle.check_making.specs.Parts.{IsNextModule};

use crate::making::{Declaring, Surroundings, TextPlace};
use check_types::names::Level;
use ob_types::Characters;
use outside::Memory;
use std::collections::BTreeMap;
use table_builder::TableBuilder;

impl Declaring {
    /// Nothing is declared yet: the types and strings are those of the modules before, each string with its place, and there
    /// is one open scope.
    pub fn begin(
        round: &Surroundings,
        types: TableBuilder,
        strings: Vec<Characters>,
        places: Vec<TextPlace>,
        imports_in: bool,
    ) -> Result<Declaring, Memory>
        requires built { IsBuilt types }
        requires outermost { round.now.depth ≡ 0 }
        requires own_text { slice_get round.now.texts.now round.now.module_number ≡ Some round.now.source.now.bytes }
        requires places { AreTextPlaces round.now.texts.now places.items strings.items }
        requires modules { AreSettled types.table strings.items round.now.modules.now }
        ensures settled { IfOk result (λ s. IsSettled round.now s) }
        ensures types { IfOk result (λ s. s.types ≡ types) }
        ensures judged { IfOk result (λ s. (c : SoFar) → IsNextModule round.now types.table strings.items imports_in c → Makes round.now s (first_making c)) }
    {
        let mut levels = Vec::new(round.alloc);
        levels.push(Level {
            names: BTreeMap::new(round.alloc),
        })?;
        Ok(Declaring {
            imports_in,
            types,
            strings,
            places,
            levels,
            procedure: None,
            is_type_part: false,
            forward: Vec::new(round.alloc),
            standing: BTreeMap::new(round.alloc),
            values: 0,
            variables: Vec::new(round.alloc),
            objects: Vec::new(round.alloc),
        })
    }
}
