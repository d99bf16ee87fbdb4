//! Pointer types (Oberon-07 report, section 6.4).

ghost use Rattle.std.specs.Prelude.{◌≡◌, OnOk};
ghost use Rattle.ob_syntax.specs.Syntax.{Named as NamedTree};
ghost use Rattle.ob_syntax.specs.Plain.{plain_type};
ghost use Rattle.ob_judge.specs.Making.{Making};
ghost use Rattle.ob_judge.specs.Scopes.{Source, place};
ghost use Rattle.ob_judge.specs.Types.{forward_name as judged_forward, place_of_type};
ghost use Rattle.table_builder.specs.Entries.{IsElement};
ghost use Rattle.table_builder.specs.Growing.{Grows};
ghost use Rattle.legal_tables.specs.Promised.{HasLegalTypes};
ghost use Rattle.check_making.specs.Making.{shape_in, Makes, IsSettled, IsTypeOf};
ghost use Rattle.check_making.specs.Parts.{JudgesAs};
ghost use Rattle.check_making.specs.new_types.Pointers.{waits, points_to};

use crate::{Declaring, Forward, Surroundings};
use check_types::TypeRef;
use check_types::steps::CheckFault;
use ob_syntax::names::Qualident;
use ob_syntax::types::TypeTree;

// The name of a base that may be declared later in the same TYPE part.
fn later_name(state: &Declaring, round: &Surroundings, tree: &Qualident) -> Option<u32>
    ensures { (m : Making) → Makes round.now state.now m → result ≡ judged_forward round.now.source.now m (NamedTree tree.now) }
{
    if !state.is_type_part || tree.member.is_some() {
        return None;
    }
    let scope = state.scope(round);
    if scope.look_up(round.source.spelled(tree.name)).is_some() {
        None
    } else {
        Some(tree.name)
    }
}

/// The same of any base.
pub fn forward_name(state: &Declaring, round: &Surroundings, tree: &TypeTree) -> Option<u32>
    ensures { (m : Making) → Makes round.now state.now m → result ≡ judged_forward round.now.source.now m (plain_type tree.now) }
{
    match tree {
        TypeTree::Named(name) => later_name(state, round, name),
        _ => None,
    }
}

/// A pointer type whose base is declared later.
pub fn wait_for(
    state: &mut Declaring,
    round: &Surroundings,
    pointer: u32,
    name: u32,
) -> Result<TypeRef, CheckFault>
    requires settled { IsSettled round.now state.old }
    requires element { IsElement state.old.types.table.entries.items (TypeRef.Pointer pointer) }
    ensures settled { OnOk result (IsSettled round.now state.new) }
    ensures types { OnOk result (state.new.types ≡ state.old.types) }
    ensures judged { JudgesAs (IsTypeOf state.new) round.now state.old state.new (waits pointer name) result }
    ensures legal { OnOk result (HasLegalTypes state.old.types.table → HasLegalTypes state.new.types.table) }
{
    state.forward.push(Forward { pointer, name })?;
    Ok(TypeRef::Pointer(pointer))
}

// The symbol where a type stands.
fn type_symbol(tree: &TypeTree) -> u32
    ensures { (p : Source) → place p result ≡ place_of_type p (plain_type tree.now) }
{
    match tree {
        TypeTree::Named(name) => name.name,
        TypeTree::Array(array) => array.array_word,
        TypeTree::Record(record) => record.record_word,
        TypeTree::Pointer(pointer) => pointer.pointer_word,
        TypeTree::Procedure(procedure) => procedure.procedure_word,
    }
}

/// A pointer type to this base: 31 at one that is no record type.
pub fn point_to(
    state: &mut Declaring,
    round: &Surroundings,
    pointer: u32,
    base: &TypeTree,
    of: TypeRef,
) -> Result<TypeRef, CheckFault>
    requires settled { IsSettled round.now state.old }
    requires element { IsElement state.old.types.table.entries.items (TypeRef.Pointer pointer) }
    ensures settled { OnOk result (IsSettled round.now state.new) }
    ensures grows { OnOk result (Grows state.old.types.table state.new.types.table) }
    ensures judged { JudgesAs (IsTypeOf state.new) round.now state.old state.new
        (points_to round.now.source.now pointer (plain_type base.now) (shape_in state.old of)) result }
    ensures legal { OnOk result (HasLegalTypes state.old.types.table → HasLegalTypes state.new.types.table) }
{
    match of {
        TypeRef::Record(r) => {
            state.set_base(round, pointer, r);
            Ok(TypeRef::Pointer(pointer))
        }
        _ => Err(round.source.fault(31, type_symbol(base))),
    }
}
