//! Names that stand, put aside while a part has names of its own.

ghost use Rattle.std.specs.Prelude.{◌≡◌, [], ℕ, List};
ghost use Rattle.ob_judge.specs.Making.{Making};
ghost use Rattle.check_making.specs.Making.{Makes, IsSettled};
ghost use Rattle.check_making.specs.parameters.Names.{AreTheNames};

use crate::{Declaring, Surroundings};
use std::collections::BTreeMap;
use std::mem::replace;

/// The names that stand are put aside, and no name stands.
pub fn names_aside(state: &mut Declaring, round: &Surroundings) -> BTreeMap<Vec<u8>, u32>
    requires { IsSettled round.now state.old }
    ensures names { result ≡ state.old.standing }
    ensures settled { IsSettled round.now state.new }
    ensures types { state.new.types ≡ state.old.types }
    ensures makes { (m : Making) → Makes round.now state.old m → Makes round.now state.new (record m { standing = [] }) }
{
    replace(&mut state.standing, BTreeMap::new(round.alloc))
}

/// The names that were put aside stand again.
pub fn names_back(state: &mut Declaring, round: &Surroundings, names: BTreeMap<Vec<u8>, u32>)
    requires { IsSettled round.now state.old }
    ensures settled { IsSettled round.now state.new }
    ensures types { state.new.types ≡ state.old.types }
    ensures makes { (m : Making) (standing : List (List ℕ)) → Makes round.now state.old m → AreTheNames names standing
        → Makes round.now state.new (record m { standing = standing }) }
{
    state.standing = names;
}
