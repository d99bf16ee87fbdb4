//! Bases of pointer types that are declared later in a TYPE part (Oberon-07 report, section 6.4).

ghost use Rattle.std.specs.Prelude.{◌≡◌, ◌<◌, [], ℕ, List, length, true, false, Some, option_map, slice_get, OnOk};
ghost use Rattle.ob_types.specs.Table.{Table};
ghost use Rattle.ob_judge.specs.Making.{Making, last_names};
ghost use Rattle.ob_judge.specs.Types.{record_object};
ghost use Rattle.ob_judge.specs.Declarations.{forward_base as judged_base};
ghost use Rattle.check_types.specs.names.Meaning.{entry_of, object_of};
ghost use Rattle.legal_tables.specs.Promised.{HasLegalTypes};
ghost use Rattle.table_builder.specs.Growing.{Grows};
ghost use Rattle.check_making.specs.Making.{forward_of, levels_of, strings_of, table_of, Makes, IsSettled};
ghost use Rattle.check_making.specs.Parts.{Judges, JudgesHere};
ghost use Rattle.check_making.specs.parameters.Stands.{Stands};
ghost use Rattle.check_making.specs.new_types.Layouts.{IsNumber};
ghost use Rattle.check_declared.specs.type_parts.Forward.{AreThere, bases_part, record_named};

use check_making::{Declaring, Forward, Surroundings};
use check_types::TypeRef;
use check_types::names::{Declared, Named};
use check_types::steps::CheckFault;

// What a name stands for in the innermost scope.
fn last_declared(state: &Declaring, name: &[u8]) -> Option<Declared>
    requires { 0 < length state.now.levels.items }
    ensures { option_map (entry_of (table_of state.now) (strings_of state.now)) result ≡ last_names (levels_of state.now) name.now }
{
    state.levels[state.levels.len() - 1].find(name)
}

// The record type that a name stands for.
fn record_of_name(named: Named) -> Option<u32>
    ensures { (t : Table) (strings : List (List ℕ)) → result ≡ record_object (object_of t strings named) }
{
    match named {
        Named::Type(TypeRef::Record(r)) => Some(r),
        _ => None,
    }
}

// The record type of a name that is declared in the innermost scope: 30 where none is, 31 where it is something else.
fn declared_record(state: &Declaring, round: &Surroundings, name: u32) -> Result<u32, CheckFault>
    requires { IsSettled round.now state.now }
    ensures { JudgesHere IsNumber round.now state.now (record_named round.now.source.now name) result }
{
    match last_declared(state, round.source.spelled(name)) {
        None => Err(round.source.fault(30, name)),
        Some(declared) => match record_of_name(declared.named) {
            None => Err(round.source.fault(31, name)),
            Some(r) => Ok(r),
        },
    }
}

// The base of a pointer type.
fn forward_base(
    state: &mut Declaring,
    round: &Surroundings,
    forward: Forward,
) -> Result<(), CheckFault>
    requires stands { Stands round.now state.old }
    requires there { forward.pointer < length state.old.types.table.bases.items }
    ensures stands { OnOk result (Stands round.now state.new) }
    ensures grows { OnOk result (Grows state.old.types.table state.new.types.table) }
    ensures legal { OnOk result (HasLegalTypes state.old.types.table → HasLegalTypes state.new.types.table) }
    ensures judged { Judges round.now state.old state.new (judged_base round.now.source.now (forward_of forward)) result }
{
    let r = declared_record(state, round, forward.name)?;
    state.set_base(round, forward.pointer, r);
    Ok(())
}

// How many pointer types wait for their base.
fn waiting(state: &Declaring) -> usize
    ensures { result ≡ length state.now.forward.items }
{
    state.forward.len()
}

// One of them.
fn waiting_at(state: &Declaring, i: usize) -> Forward
    requires { i < length state.now.forward.items }
    ensures { slice_get state.now.forward.items i ≡ Some result }
{
    state.forward[i]
}

/// The bases of all pointer types whose base was to be declared later.
pub fn forward_bases(state: &mut Declaring, round: &Surroundings) -> Result<(), CheckFault>
    requires stands { Stands round.now state.old }
    requires there { AreThere state.old }
    ensures stands { OnOk result (Stands round.now state.new) }
    ensures grows { OnOk result (Grows state.old.types.table state.new.types.table) }
    ensures legal { OnOk result (HasLegalTypes state.old.types.table → HasLegalTypes state.new.types.table) }
    ensures judged { Judges round.now state.old state.new (bases_part round.now.source.now) result }
{
    for i in 0..waiting(state) {
        let forward = waiting_at(state, i);
        forward_base(state, round, forward)?;
    }
    Ok(())
}

/// A TYPE part begins: bases of pointer types may be declared later, and none is missing yet.
pub fn begin_type_part(state: &mut Declaring, round: &Surroundings)
    requires { IsSettled round.now state.old }
    ensures settled { IsSettled round.now state.new }
    ensures types { state.new.types ≡ state.old.types }
    ensures makes { (m : Making) → Makes round.now state.old m → Makes round.now state.new (record m { is_type_part = true; forward = [] }) }
{
    state.is_type_part = true;
    state.forward = Vec::new(round.alloc);
}

/// It ends: bases must be known from here on.
pub fn end_type_part(state: &mut Declaring, round: &Surroundings)
    requires { IsSettled round.now state.old }
    ensures settled { IsSettled round.now state.new }
    ensures types { state.new.types ≡ state.old.types }
    ensures forward { state.new.forward ≡ state.old.forward }
    ensures makes { (m : Making) → Makes round.now state.old m → Makes round.now state.new (record m { is_type_part = false }) }
{
    state.is_type_part = false;
}
