//! Names that stand in the innermost scope.

ghost use Rattle.std.specs.Prelude.{◌≡◌, [], ◌∷◌, OnOk};
ghost use Rattle.ob_judge.specs.Parameters.{stand as judged_stand};
ghost use Rattle.check_making.specs.Making.{IsSettled};
ghost use Rattle.check_making.specs.Parts.{Judges};

use crate::making::{Declaring, Surroundings};
use check_types::steps::CheckFault;

impl Declaring {
    /// A name stands in the innermost scope, and no other of its bytes.
    pub fn stand(&mut self, round: &Surroundings, i: u32) -> Result<(), CheckFault>
        requires { IsSettled round.now self.old }
        ensures settled { OnOk result (IsSettled round.now self.new) }
        ensures types { self.new.types ≡ self.old.types }
        ensures forward { self.new.forward ≡ self.old.forward }
        ensures judged { Judges round.now self.old self.new (judged_stand round.now.source.now (i ∷ [])) result }
    {
        let name = round.source.spelled(i);
        let key = Vec::from_slice(round.alloc, name)?;
        let before = self.standing.insert(key, i)?;
        if before.is_some() {
            return Err(round.source.fault(36, i));
        }
        Ok(())
    }
}
