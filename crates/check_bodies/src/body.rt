//! A body that waits.

ghost use Rattle.std.specs.Prelude.{◌≡◌};
ghost use Rattle.check_types.specs.names.Worlds.{world_of};
ghost use Rattle.check_making.specs.Making.{strings_of};
ghost use Rattle.check_bodies.specs.Waits.{world_inside};

use check_making::parameters::Heading;
use check_making::{Declaring, Surroundings};
use check_types::names::{Closed, Level, Scope};
use items::Items;
use ob_syntax::declarations::Procedure as ProcedureTree;

/// A procedure whose body waits: its syntax, its number, its heading, the types of its variables by their numbers, the names
/// of its scope, and how many procedures there were where that was closed.
#[derive(Drop)]
pub struct Body<'a> {
    pub tree: &'a ProcedureTree,
    pub number: u32,
    pub heading: Heading,
    pub locals: Items<u32>,
    pub names: Level,
    pub procedures: u32,
}

impl<'a> Body<'a> {
    /// The scope of the procedure, within those that are open.
    pub fn scope<'b>(&'b self, state: &'b Declaring, round: &'b Surroundings<'b>) -> Scope<'b>
        ensures source { result.source.now ≡ round.now.source.now }
        ensures world { world_of result ≡ world_inside round.now state.now self.now }
        ensures types { result.types.now ≡ state.now.types.table }
        ensures strings { result.strings.now ≡ strings_of state.now }
    {
        Scope {
            source: round.source,
            types: &state.types.table,
            strings: state.strings.as_slice(),
            modules: round.modules,
            levels: state.levels.as_slice(),
            closed: Some(Closed {
                names: &self.names,
                procedures: self.procedures,
            }),
            narrowed: &[],
            module_number: round.module_number,
            procedure: Some(self.number),
            constant: false,
        }
    }
}
