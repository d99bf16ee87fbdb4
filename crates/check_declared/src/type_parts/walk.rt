//! The walk over types.

ghost use Rattle.std.specs.Prelude.{◌≡◌, ℕ, OnOk, IfOk};
ghost use Rattle.ob_syntax.specs.Plain.{plain_type};
ghost use Rattle.ob_judge.specs.Shapes.{Layout as JudgedLayout};
ghost use Rattle.ob_judge.specs.Types.{type_part, fields_part, more_part};
ghost use Rattle.ob_judge.specs.Making.{Making};
ghost use Rattle.judged_modules.specs.Agrees.{records_of};
ghost use Rattle.judged_programs.specs.Ranked.{IsAdding};
ghost use Rattle.judged_programs.specs.Tidy.{Tidy};
ghost use Rattle.legal_tables.specs.Promised.{HasLegalTypes};
ghost use Rattle.table_builder.specs.Growing.{Grows};
ghost use Rattle.check_making.specs.Making.{Makes, IsTypeOf};
ghost use Rattle.check_making.specs.Parts.{JudgesAs};
ghost use Rattle.check_making.specs.parameters.Stands.{Stands};
ghost use Rattle.check_making.specs.new_types.Layouts.{IsSoFarIn};
ghost use Rattle.ob_syntax.specs.declared.types.RecordType.{out-RecordType};
ghost use Rattle.check_declared.specs.type_parts.Records.{HasLayout, fields_of};
ghost use Rattle.check_declared.specs.type_parts.TypeSyntax.{plain_maybe_fields, plain_each_fields};

use crate::type_parts::lengths::array_lengths;
use crate::type_parts::records::{begin_fields, begin_pointer, begin_record};
use check_making::new_types::{add_fields, arrays, forward_name, point_to, record_of, wait_for};
use check_making::parameters::{names_back, procedure_type};
use check_making::{Declaring, Surroundings};
use check_types::steps::CheckFault;
use check_types::{Layout, TypeRef};
use ob_syntax::types::{ArrayType, Fields, PointerType, RecordType, TypeTree};

/// A type: 31 at a name that stands for none, and the rules of its parts in the order of the text.
#[cycle(walk)]
pub fn type_of(
    state: &mut Declaring,
    round: &Surroundings,
    tree: &TypeTree,
) -> Result<TypeRef, CheckFault>
    requires { Stands round.now state.old }
    ensures stands { OnOk result (Stands round.now state.new) }
    ensures procedure { OnOk result (state.new.procedure ≡ state.old.procedure) }
    ensures grows { OnOk result (Grows state.old.types.table state.new.types.table) }
    ensures legal { (from : ℕ) (m : Making) → Makes round.now state.old m → Tidy from m
        → OnOk result (HasLegalTypes state.old.types.table → HasLegalTypes state.new.types.table) }
    ensures judged { JudgesAs (IsTypeOf state.new) round.now state.old state.new
        (type_part round.now.source.now (plain_type tree.now)) result }
{
    match tree {
        TypeTree::Named(name) => state.type_at(round, 31, name),
        TypeTree::Array(inner) => array_type(state, round, inner),
        TypeTree::Record(inner) => record_type(state, round, inner),
        TypeTree::Pointer(inner) => pointer_type(state, round, inner),
        TypeTree::Procedure(inner) => procedure_type(state, round, inner),
    }
}

/// An array type, or one of such as its elements.
#[cycle(walk)]
fn array_type(
    state: &mut Declaring,
    round: &Surroundings,
    tree: &ArrayType,
) -> Result<TypeRef, CheckFault>
    requires { Stands round.now state.old }
    ensures stands { OnOk result (Stands round.now state.new) }
    ensures grows { OnOk result (Grows state.old.types.table state.new.types.table) }
    ensures legal { (from : ℕ) (m : Making) → Makes round.now state.old m → Tidy from m
        → OnOk result (HasLegalTypes state.old.types.table → HasLegalTypes state.new.types.table) }
    ensures judged { JudgesAs (IsTypeOf state.new) round.now state.old state.new
        (type_part round.now.source.now (plain_type (TypeTree.Array tree.now))) result }
{
    let lengths = array_lengths(state, round, &tree.first, &tree.more)?;
    let element = type_of(state, round, &tree.element)?;
    arrays(state, round, tree.array_word, &lengths, element)
}

/// A record type.
#[cycle(walk)]
fn record_type(
    state: &mut Declaring,
    round: &Surroundings,
    tree: &RecordType,
) -> Result<TypeRef, CheckFault>
    requires { Stands round.now state.old }
    ensures stands { OnOk result (Stands round.now state.new) }
    ensures grows { OnOk result (Grows state.old.types.table state.new.types.table) }
    ensures legal { (from : ℕ) (m : Making) → Makes round.now state.old m → Tidy from m
        → OnOk result (HasLegalTypes state.old.types.table → HasLegalTypes state.new.types.table) }
    ensures judged { JudgesAs (IsTypeOf state.new) round.now state.old state.new
        (type_part round.now.source.now (plain_type (TypeTree.Record tree.now))) result }
{
    let begun = begin_record(state, round, &tree.base)?;
    let layout = field_lists(state, round, begun.number, tree, begun.layout)?;
    names_back(state, round, begun.names);
    record_of(state, round, tree.record_word, begun.number, layout)
}

/// All fields that record type r adds.
#[cycle(walk)]
fn field_lists(
    state: &mut Declaring,
    round: &Surroundings,
    r: u32,
    tree: &RecordType,
    layout: Layout,
) -> Result<Layout, CheckFault>
    requires stands { Stands round.now state.old }
    requires layout { HasLayout state.old layout }
    ensures stands { OnOk result (Stands round.now state.new) }
    ensures grows { OnOk result (Grows state.old.types.table state.new.types.table) }
    ensures layout { IfOk result (λ l. HasLayout state.new l) }
    ensures legal { (from : ℕ) (b g : JudgedLayout) (m : Making) → IsSoFarIn state.old layout g → Makes round.now state.old m
        → IsAdding (records_of m) b g → Tidy from m
        → OnOk result (HasLegalTypes state.old.types.table → HasLegalTypes state.new.types.table) }
    ensures judged { (g : JudgedLayout) → IsSoFarIn state.old layout g →
        JudgesAs (IsSoFarIn state.new) round.now state.old state.new
        (fields_of round.now.source.now r (plain_maybe_fields (out-RecordType tree.now).first)
        (plain_each_fields (out-RecordType tree.now).more.items) g)
        result }
{
    let first = field_list(state, round, r, &tree.first, layout)?;
    more_field_lists(state, round, r, tree, first)
}

/// Fields of record type r, if there are any, behind those so far.
#[cycle(walk)]
fn field_list(
    state: &mut Declaring,
    round: &Surroundings,
    r: u32,
    tree: &Option<Fields>,
    layout: Layout,
) -> Result<Layout, CheckFault>
    requires stands { Stands round.now state.old }
    requires layout { HasLayout state.old layout }
    ensures stands { OnOk result (Stands round.now state.new) }
    ensures grows { OnOk result (Grows state.old.types.table state.new.types.table) }
    ensures layout { IfOk result (λ l. HasLayout state.new l) }
    ensures legal { (from : ℕ) (b g : JudgedLayout) (m : Making) → IsSoFarIn state.old layout g → Makes round.now state.old m
        → IsAdding (records_of m) b g → Tidy from m
        → OnOk result (HasLegalTypes state.old.types.table → HasLegalTypes state.new.types.table) }
    ensures judged { (g : JudgedLayout) → IsSoFarIn state.old layout g →
        JudgesAs (IsSoFarIn state.new) round.now state.old state.new
        (fields_part round.now.source.now r (plain_maybe_fields tree.now) g) result }
{
    match tree {
        None => Ok(layout),
        Some(inner) => {
            begin_fields(state, round, &layout, &inner.names)?;
            let of = type_of(state, round, &inner.of)?;
            add_fields(state, round, r, of, &inner.names, layout)
        }
    }
}

/// Those behind the first list of fields.
#[cycle(walk)]
fn more_field_lists(
    state: &mut Declaring,
    round: &Surroundings,
    r: u32,
    tree: &RecordType,
    first: Layout,
) -> Result<Layout, CheckFault>
    requires stands { Stands round.now state.old }
    requires layout { HasLayout state.old first }
    ensures stands { OnOk result (Stands round.now state.new) }
    ensures grows { OnOk result (Grows state.old.types.table state.new.types.table) }
    ensures layout { IfOk result (λ l. HasLayout state.new l) }
    ensures legal { (from : ℕ) (b g : JudgedLayout) (m : Making) → IsSoFarIn state.old first g → Makes round.now state.old m
        → IsAdding (records_of m) b g → Tidy from m
        → OnOk result (HasLegalTypes state.old.types.table → HasLegalTypes state.new.types.table) }
    ensures judged { (g : JudgedLayout) → IsSoFarIn state.old first g →
        JudgesAs (IsSoFarIn state.new) round.now state.old state.new
        (more_part round.now.source.now r (plain_each_fields (out-RecordType tree.now).more.items) g) result }
{
    let mut layout = first;
    for next in &tree.more {
        layout = field_list(state, round, r, &next.fields, layout)?;
    }
    Ok(layout)
}

/// A pointer type, whose base may be declared later in a TYPE part.
#[cycle(walk)]
fn pointer_type(
    state: &mut Declaring,
    round: &Surroundings,
    tree: &PointerType,
) -> Result<TypeRef, CheckFault>
    requires { Stands round.now state.old }
    ensures stands { OnOk result (Stands round.now state.new) }
    ensures grows { OnOk result (Grows state.old.types.table state.new.types.table) }
    ensures legal { (from : ℕ) (m : Making) → Makes round.now state.old m → Tidy from m
        → OnOk result (HasLegalTypes state.old.types.table → HasLegalTypes state.new.types.table) }
    ensures judged { JudgesAs (IsTypeOf state.new) round.now state.old state.new
        (type_part round.now.source.now (plain_type (TypeTree.Pointer tree.now))) result }
{
    let pointer = begin_pointer(state, round)?;
    match forward_name(state, round, &tree.base) {
        Some(name) => wait_for(state, round, pointer, name),
        None => {
            let of = type_of(state, round, &tree.base)?;
            point_to(state, round, pointer, &tree.base, of)
        }
    }
}
