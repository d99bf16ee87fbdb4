//! Names in lists that stand in the innermost scope.

ghost use Rattle.std.specs.Prelude.{◌≡◌, ◌∷◌, OnOk};
ghost use Rattle.ob_judge.specs.Parameters.{stand, next_names};
ghost use Rattle.check_making.specs.Making.{IsSettled};
ghost use Rattle.check_making.specs.Parts.{Judges};

use crate::{Declaring, Surroundings};
use check_types::steps::CheckFault;
use ob_syntax::names::NextIdent;

// The names behind the first.
fn stand_more(
    state: &mut Declaring,
    round: &Surroundings,
    more: &[NextIdent],
) -> Result<(), CheckFault>
    requires { IsSettled round.now state.old }
    ensures settled { OnOk result (IsSettled round.now state.new) }
    ensures types { OnOk result (state.new.types ≡ state.old.types) }
    ensures judged { Judges round.now state.old state.new (stand round.now.source.now (next_names more.now)) result }
{
    for next in more {
        state.stand(round, next.name)?;
    }
    Ok(())
}

/// All these names stand: 36 at one that stands twice.
pub fn stand_names(
    state: &mut Declaring,
    round: &Surroundings,
    first: u32,
    more: &[NextIdent],
) -> Result<(), CheckFault>
    requires { IsSettled round.now state.old }
    ensures settled { OnOk result (IsSettled round.now state.new) }
    ensures types { OnOk result (state.new.types ≡ state.old.types) }
    ensures judged { Judges round.now state.old state.new (stand round.now.source.now (first ∷ next_names more.now)) result }
{
    state.stand(round, first)?;
    stand_more(state, round, more)
}
