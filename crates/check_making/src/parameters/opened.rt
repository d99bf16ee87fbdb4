//! Types of parameters: open arrays among them (Oberon-07 report, section 10.1).

ghost use Rattle.std.specs.Prelude.{◌≡◌, OnOk, IfOk, IfErr};
ghost use Rattle.ob_judge.specs.Making.{Making};
ghost use Rattle.ob_judge.specs.Shapes.{Open};
ghost use Rattle.ob_judge.specs.Parameters.{opened as opened_shape};
ghost use Rattle.table_builder.specs.Entries.{IsElement};
ghost use Rattle.table_builder.specs.Growing.{Grows};
ghost use Rattle.legal_tables.specs.Promised.{HasLegalTypes};
ghost use Rattle.check_making.specs.Making.{shape_in, Makes, IsSettled};
ghost use Rattle.check_making.specs.parameters.Listed.{IsNumberedAs};

use crate::{Declaring, Surroundings};
use check_types::TypeRef;
use check_types::steps::CheckFault;

// The open array type of elements of a type.
fn open_array(
    state: &mut Declaring,
    round: &Surroundings,
    element: TypeRef,
) -> Result<TypeRef, CheckFault>
    requires settled { IsSettled round.now state.old }
    requires element { IsElement state.old.types.table.entries.items element }
    ensures settled { OnOk result (IsSettled round.now state.new) }
    ensures makes { OnOk result ((m : Making) → Makes round.now state.old m → Makes round.now state.new m) }
    ensures grows { OnOk result (Grows state.old.types.table state.new.types.table) }
    ensures legal { OnOk result (HasLegalTypes state.old.types.table → HasLegalTypes state.new.types.table) }
    ensures shape { IfOk result (λ k. IsNumberedAs state.new k (Open (shape_in state.old element))) }
    ensures memory { IfErr result (λ e. e ≡ CheckFault.Memory) }
{
    match state.types.open_array(element) {
        Ok(of) => Ok(of),
        Err(_) => Err(CheckFault::Memory),
    }
}

/// The type of parameters: an open array of this type, or this one.
pub fn opened(
    state: &mut Declaring,
    round: &Surroundings,
    is_open: bool,
    of: TypeRef,
) -> Result<TypeRef, CheckFault>
    requires settled { IsSettled round.now state.old }
    requires element { IsElement state.old.types.table.entries.items of }
    ensures settled { OnOk result (IsSettled round.now state.new) }
    ensures makes { OnOk result ((m : Making) → Makes round.now state.old m → Makes round.now state.new m) }
    ensures grows { OnOk result (Grows state.old.types.table state.new.types.table) }
    ensures legal { OnOk result (HasLegalTypes state.old.types.table → HasLegalTypes state.new.types.table) }
    ensures shape { IfOk result (λ k. IsNumberedAs state.new k (opened_shape is_open (shape_in state.old of))) }
    ensures memory { IfErr result (λ e. e ≡ CheckFault.Memory) }
{
    if is_open {
        open_array(state, round, of)
    } else {
        Ok(of)
    }
}
