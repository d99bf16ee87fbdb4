//! Lists of variables, and what they leave of types (Oberon-07 report, section 7).

ghost use Rattle.std.specs.Prelude.{◌≡◌, OnOk};
ghost use Rattle.ob_judge.specs.Parameters.{stand, symbols_of, next_list};
ghost use Rattle.table_builder.specs.Entries.{IsElement};
ghost use Rattle.check_making.specs.Making.{shape_in, IsSettled};
ghost use Rattle.check_making.specs.Parts.{Judges};
ghost use Rattle.check_making.specs.new_types.Fields.{names_in};
ghost use Rattle.check_declared.specs.Variables.{variables_part};

use crate::variable;
use check_making::{Declaring, Surroundings};
use check_types::TypeRef;
use check_types::steps::CheckFault;
use ob_syntax::names::{Idents, NextIdentdef};

// The names behind the first stand, one after the other.
fn stand_more(
    state: &mut Declaring,
    round: &Surroundings,
    more: &[NextIdentdef],
) -> Result<(), CheckFault>
    requires { IsSettled round.now state.old }
    ensures settled { OnOk result (IsSettled round.now state.new) }
    ensures types { OnOk result (state.new.types ≡ state.old.types) }
    ensures judged { Judges round.now state.old state.new (stand round.now.source.now (symbols_of (next_list more.now))) result }
{
    for next in more {
        state.stand(round, next.name.name)?;
    }
    Ok(())
}

/// All names of a list stand: 36 at one that stands twice.
pub fn stand_listed(
    state: &mut Declaring,
    round: &Surroundings,
    idents: &Idents,
) -> Result<(), CheckFault>
    requires { IsSettled round.now state.old }
    ensures settled { OnOk result (IsSettled round.now state.new) }
    ensures types { OnOk result (state.new.types ≡ state.old.types) }
    ensures judged { Judges round.now state.old state.new (stand round.now.source.now (symbols_of (names_in idents.now))) result }
{
    state.stand(round, idents.first.name)?;
    stand_more(state, round, &idents.more)
}

// The variables behind the first are known, one after the other.
fn more_variables(
    state: &mut Declaring,
    round: &Surroundings,
    of: TypeRef,
    more: &[NextIdentdef],
) -> Result<(), CheckFault>
    requires settled { IsSettled round.now state.old }
    requires element { IsElement state.old.types.table.entries.items of }
    ensures settled { OnOk result (IsSettled round.now state.new) }
    ensures types { OnOk result (state.new.types ≡ state.old.types) }
    ensures judged { Judges round.now state.old state.new (variables_part round.now.source.now (shape_in state.old of) (next_list more.now)) result }
{
    for next in more {
        variable(state, round, of, &next.name)?;
    }
    Ok(())
}

/// All variables of a list are known; they are of this type.
pub fn listed_variables(
    state: &mut Declaring,
    round: &Surroundings,
    of: TypeRef,
    idents: &Idents,
) -> Result<(), CheckFault>
    requires settled { IsSettled round.now state.old }
    requires element { IsElement state.old.types.table.entries.items of }
    ensures settled { OnOk result (IsSettled round.now state.new) }
    ensures types { OnOk result (state.new.types ≡ state.old.types) }
    ensures judged { Judges round.now state.old state.new (variables_part round.now.source.now (shape_in state.old of) (names_in idents.now)) result }
{
    variable(state, round, of, &idents.first)?;
    more_variables(state, round, of, &idents.more)
}
