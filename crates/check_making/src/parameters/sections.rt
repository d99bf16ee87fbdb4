//! What procedures take and give (Oberon-07 report, section 10.1).

ghost use Rattle.std.specs.Prelude.{◌≡◌, OnOk};
ghost use Rattle.ob_syntax.specs.Plain.{plain_section, plain_next_section, plain_each, plain_sections, plain_option, plain_formals};
ghost use Rattle.ob_judge.specs.Parameters.{Listed as JudgedListed, section as judged_section, next_sections as judged_next, sections as judged_sections, result_shape, formal_part as judged_part};
ghost use Rattle.table_builder.specs.Growing.{Grows};
ghost use Rattle.legal_tables.specs.Promised.{HasLegalTypes};
ghost use Rattle.check_making.specs.Making.{IsSettled};
ghost use Rattle.check_making.specs.Parts.{JudgesAs, JudgesHere};
ghost use Rattle.check_making.specs.parameters.Listed.{IsListedIn, IsNumberedAs, IsInside};
ghost use Rattle.check_making.specs.parameters.Stands.{Stands};
ghost use Rattle.check_making.specs.parameters.Headings.{IsHeading};

use crate::parameters::opened::opened;
use crate::parameters::parameters::{Kind, Listed, add_parameters, no_parameters};
use crate::parameters::standing::stand_names;
use crate::{Declaring, Surroundings};
use check_types::TypeRef;
use check_types::steps::CheckFault;
use ob_syntax::types::{Formals, NextSection, ResultType, Section, Sections};

/// What a procedure takes, and the type of what it gives.
#[derive(Drop)]
pub struct Heading {
    pub listed: Listed,
    pub outcome: TypeRef,
}

// The parameters of a section, behind those so far.
fn section(
    state: &mut Declaring,
    round: &Surroundings,
    known_here: bool,
    tree: &Section,
    listed: Listed,
) -> Result<Listed, CheckFault>
    requires stands { Stands round.now state.old }
    requires inside { IsInside known_here state.old }
    ensures stands { OnOk result (Stands round.now state.new) }
    ensures procedure { OnOk result (state.new.procedure ≡ state.old.procedure) }
    ensures grows { OnOk result (Grows state.old.types.table state.new.types.table) }
    ensures legal { OnOk result (HasLegalTypes state.old.types.table → HasLegalTypes state.new.types.table) }
    ensures judged { (x : JudgedListed) → IsListedIn state.old listed x →
        JudgesAs (IsListedIn state.new) round.now state.old state.new (judged_section round.now.source.now known_here (plain_section tree.now) x) result }
{
    stand_names(state, round, tree.first, &tree.more)?;
    let element = state.type_at(round, 31, &tree.of)?;
    let is_open = tree.open_array.is_some();
    let variable = tree.var_word.is_some();
    let of = opened(state, round, is_open, element)?;
    let kind = Kind {
        known_here,
        variable,
        of,
    };
    add_parameters(state, round, kind, tree.first, &tree.more, listed)
}

// The sections behind the first.
fn next_sections(
    state: &mut Declaring,
    round: &Surroundings,
    known_here: bool,
    trees: &[NextSection],
    first: Listed,
) -> Result<Listed, CheckFault>
    requires stands { Stands round.now state.old }
    requires inside { IsInside known_here state.old }
    ensures stands { OnOk result (Stands round.now state.new) }
    ensures procedure { OnOk result (state.new.procedure ≡ state.old.procedure) }
    ensures grows { OnOk result (Grows state.old.types.table state.new.types.table) }
    ensures legal { OnOk result (HasLegalTypes state.old.types.table → HasLegalTypes state.new.types.table) }
    ensures judged { (x : JudgedListed) → IsListedIn state.old first x →
        JudgesAs (IsListedIn state.new) round.now state.old state.new
        (judged_next round.now.source.now known_here (plain_each plain_next_section trees.now) x) result }
{
    let mut listed = first;
    for tree in trees {
        listed = section(state, round, known_here, &tree.section, listed)?;
    }
    Ok(listed)
}

// All parameters.
fn sections(
    state: &mut Declaring,
    round: &Surroundings,
    known_here: bool,
    tree: &Option<Sections>,
) -> Result<Listed, CheckFault>
    requires stands { Stands round.now state.old }
    requires inside { IsInside known_here state.old }
    ensures stands { OnOk result (Stands round.now state.new) }
    ensures procedure { OnOk result (state.new.procedure ≡ state.old.procedure) }
    ensures grows { OnOk result (Grows state.old.types.table state.new.types.table) }
    ensures legal { OnOk result (HasLegalTypes state.old.types.table → HasLegalTypes state.new.types.table) }
    ensures judged { JudgesAs (IsListedIn state.new) round.now state.old state.new
        (judged_sections round.now.source.now known_here (plain_option plain_sections tree.now)) result }
{
    let none = no_parameters(round.alloc);
    match tree {
        None => Ok(none),
        Some(tree) => {
            let listed = section(state, round, known_here, &tree.first, none)?;
            next_sections(state, round, known_here, &tree.more, listed)
        }
    }
}

// The type of a result, which is a scalar type; or none.
fn result_type(
    state: &Declaring,
    round: &Surroundings,
    tree: &Option<ResultType>,
) -> Result<TypeRef, CheckFault>
    requires { IsSettled round.now state.now }
    ensures { JudgesHere (IsNumberedAs state.now) round.now state.now (result_shape round.now.source.now tree.now) result }
{
    match tree {
        None => Ok(TypeRef::Nothing),
        Some(tree) => {
            let of = state.type_at(round, 31, &tree.name)?;
            if of.is_scalar() {
                Ok(of)
            } else {
                Err(round.source.fault(31, tree.name.name))
            }
        }
    }
}

/// What a procedure takes and gives. The names of its parameters are known from here on, or aren't, as those of a procedure
/// type.
pub fn formal_part(
    state: &mut Declaring,
    round: &Surroundings,
    known_here: bool,
    tree: &Option<Formals>,
) -> Result<Heading, CheckFault>
    requires stands { Stands round.now state.old }
    requires inside { IsInside known_here state.old }
    ensures stands { OnOk result (Stands round.now state.new) }
    ensures procedure { OnOk result (state.new.procedure ≡ state.old.procedure) }
    ensures grows { OnOk result (Grows state.old.types.table state.new.types.table) }
    ensures legal { OnOk result (HasLegalTypes state.old.types.table → HasLegalTypes state.new.types.table) }
    ensures judged { JudgesAs (IsHeading state.new) round.now state.old state.new
        (judged_part round.now.source.now known_here (plain_option plain_formals tree.now)) result }
{
    match tree {
        None => Ok(Heading {
            listed: no_parameters(round.alloc),
            outcome: TypeRef::Nothing,
        }),
        Some(tree) => {
            let listed = sections(state, round, known_here, &tree.sections)?;
            let outcome = result_type(state, round, &tree.result)?;
            Ok(Heading { listed, outcome })
        }
    }
}
