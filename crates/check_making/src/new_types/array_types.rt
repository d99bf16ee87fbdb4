//! Array types (Oberon-07 report, section 6.2).

ghost use Rattle.std.specs.Prelude.{◌≡◌, true, pos, min, OnOk, IfOk};
ghost use Rattle.ob_judge.specs.Making.{Making};
ghost use Rattle.ob_judge.specs.Scopes.{place};
ghost use Rattle.ob_judge.specs.Shapes.{Array, cells as cells_of};
ghost use Rattle.ob_judge.specs.Types.{arrays as judged_arrays, is_length};
ghost use Rattle.judged_programs.specs.Complete.{IsKnown};
ghost use Rattle.check_types.specs.Known.{known_of};
ghost use Rattle.table_builder.specs.Cells.{most_cells};
ghost use Rattle.table_builder.specs.Entries.{IsElement};
ghost use Rattle.table_builder.specs.Growing.{Grows};
ghost use Rattle.legal_tables.specs.Promised.{HasLegalTypes};
ghost use Rattle.check_making.specs.Making.{shape_in, Makes, IsSettled, IsTypeOf};
ghost use Rattle.check_making.specs.Parts.{JudgesHere};
ghost use Rattle.check_making.specs.new_types.Arrays.{array_within, AreLengths};

use crate::{Declaring, Surroundings};
use check_types::TypeRef;
use check_types::steps::CheckFault;
use table_builder::capped;

/// How many cells a variable may have, and how long an array may be.
pub const LIMIT: u64 = 1_048_576;

/// The array type of so many elements of a type, which has so many cells: 35 at ARRAY where these are too many.
pub fn array_of(
    state: &mut Declaring,
    round: &Surroundings,
    array_word: u32,
    length: u32,
    element: TypeRef,
    cells: u64,
) -> Result<TypeRef, CheckFault>
    requires settled { IsSettled round.now state.old }
    requires element { IsElement state.old.types.table.entries.items element }
    requires cells { cells ≡ min most_cells (cells_of (known_of state.old.types.table) (Array length (shape_in state.old element))) }
    ensures settled { OnOk result (IsSettled round.now state.new) }
    ensures makes { OnOk result ((m : Making) → Makes round.now state.old m → Makes round.now state.new m) }
    ensures grows { OnOk result (Grows state.old.types.table state.new.types.table) }
    ensures element { IfOk result (λ k. IsElement state.new.types.table.entries.items k) }
    ensures judged { JudgesHere (IsTypeOf state.new) round.now state.old
        (array_within round.now.source.now array_word length (shape_in state.old element)) result }
    ensures shape { IfOk result (λ k. IsTypeOf state.new k (Array length (shape_in state.old element))) }
    ensures known { known_of state.new.types.table ≡ known_of state.old.types.table }
    ensures legal { OnOk result (is_length (pos length) ≡ true → IsKnown (known_of state.old.types.table).records (shape_in state.old element)
        → HasLegalTypes state.old.types.table → HasLegalTypes state.new.types.table) }
{
    let of = state.array(round, length, element)?;
    if cells > LIMIT {
        return Err(round.source.fault(35, array_word));
    }
    Ok(of)
}

/// The array type of so many elements of a type for each of these lengths, the last of which is the innermost array's.
pub fn arrays(
    state: &mut Declaring,
    round: &Surroundings,
    array_word: u32,
    lengths: &[u32],
    element: TypeRef,
) -> Result<TypeRef, CheckFault>
    requires settled { IsSettled round.now state.old }
    requires element { IsElement state.old.types.table.entries.items element }
    ensures settled { OnOk result (IsSettled round.now state.new) }
    ensures makes { OnOk result ((m : Making) → Makes round.now state.old m → Makes round.now state.new m) }
    ensures grows { OnOk result (Grows state.old.types.table state.new.types.table) }
    ensures element { IfOk result (λ k. IsElement state.new.types.table.entries.items k) }
    ensures judged { JudgesHere (IsTypeOf state.new) round.now state.old
        (judged_arrays (place round.now.source.now array_word) lengths.now (shape_in state.old element)) result }
    ensures known { known_of state.new.types.table ≡ known_of state.old.types.table }
    ensures legal { OnOk result (AreLengths lengths.now → IsKnown (known_of state.old.types.table).records (shape_in state.old element)
        → HasLegalTypes state.old.types.table → HasLegalTypes state.new.types.table) }
{
    let mut of = element;
    let mut cells = state.types.cells(element);
    let mut left = lengths.len();
    while left > 0 {
        left -= 1;
        cells = capped(cells * u64::from(lengths[left]));
        of = array_of(state, round, array_word, lengths[left], of, cells)?;
    }
    Ok(of)
}
