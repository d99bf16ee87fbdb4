//! Parameters of one section (Oberon-07 report, section 10.1).

ghost use Rattle.std.specs.Prelude.{◌≡◌, ◌+◌, ◌∷◌, [], ℕ, List, true, OnOk, IfOk, IfErr, length, if◌then◌else◌, suc};
ghost use Rattle.ob_types.specs.Table.{Table};
ghost use Rattle.ob_judge.specs.Scopes.{World};
ghost use Rattle.ob_judge.specs.Parameters.{Listed as JudgedListed, no_parameters as none_listed, words_of, listed as listed_more, parameter_variable as judged_variable, declare_parameter as judged_declaration, add_parameters as judged_parameters, next_names, is_value as value_mode, mode_of as judged_mode};
ghost use Rattle.check_types.specs.TypeMeaning.{type_shape};
ghost use Rattle.check_types.specs.declared.table.TypeTable.{TypeTable};
ghost use Rattle.check_types.specs.names.Meaning.{object_of};
ghost use Rattle.table_builder.specs.Builder.{IsBuilt};
ghost use Rattle.table_builder.specs.Entries.{IsNumbered};
ghost use Rattle.check_making.specs.Making.{shape_in};
ghost use Rattle.check_making.specs.Parts.{Judges, JudgesAs};
ghost use Rattle.check_making.specs.parameters.Listed.{IsListed, IsListedIn, IsInside};
ghost use Rattle.check_making.specs.parameters.Stands.{Stands};

use crate::parameters::modes::{home_of, is_value, mode_of, with_words};
use crate::{Declaring, Surroundings, next_number};
use check_types::TypeRef;
use check_types::names::{Named, Variable, VariablePlace};
use check_types::steps::CheckFault;
use items::Items;
use ob_syntax::names::{Identdef, NextIdent};
use ob_types::Formal;
use std::alloc::Global;

/// Parameters so far, each type by its number, and the words that their arguments take.
#[derive(Drop)]
pub struct Listed {
    pub formals: Items<Formal>,
    pub words: u32,
}

/// What the parameters of a section have in common: whether their names are known from here on, whether they are VAR
/// parameters, and their type.
#[derive(Clone, Copy)]
pub struct Kind {
    pub known_here: bool,
    pub variable: bool,
    pub of: TypeRef,
}

/// No parameters; takes no memory.
pub fn no_parameters(alloc: Global) -> Listed
    ensures { (t : TypeTable) → IsListed t result none_listed }
{
    Listed {
        formals: Items::new(alloc),
        words: 0,
    }
}

// The variable that a parameter is in its procedure.
fn parameter_variable(
    round: &Surroundings,
    procedure: Option<u32>,
    kind: Kind,
    values: u32,
    number: u32,
) -> Variable
    ensures of { result.of ≡ kind.of }
    ensures judged { (t : Table) (strings : List (List ℕ)) (w : World) → w.module_number ≡ round.now.module_number → w.procedure ≡ procedure →
        object_of t strings (Named.Variable result) ≡ judged_variable kind.variable (type_shape t kind.of) values number w }
{
    let place = if is_value(mode_of(kind.variable, kind.of)) {
        VariablePlace::Local(values)
    } else {
        VariablePlace::Parameter(number)
    };
    Variable {
        of: kind.of,
        place,
        home: home_of(kind.variable, kind.of),
        owner: round.module_number,
        procedure,
    }
}

// How many value parameters there are with this one.
fn values_with(values: u32, kind: Kind) -> Result<u32, CheckFault>
    ensures number { IfOk result (λ n. (t : Table) → n ≡ (if value_mode (judged_mode kind.variable (type_shape t kind.of)) then suc values else values)) }
    ensures memory { IfErr result (λ e. e ≡ CheckFault.Memory) }
{
    if !is_value(mode_of(kind.variable, kind.of)) {
        return Ok(values);
    }
    match values.checked_add(1) {
        Some(n) => Ok(n),
        None => Err(CheckFault::Memory),
    }
}

// A parameter of this number is known in its procedure.
fn know_parameter(
    state: &mut Declaring,
    round: &Surroundings,
    kind: Kind,
    i: u32,
    number: u32,
) -> Result<(), CheckFault>
    requires stands { Stands round.now state.old }
    requires numbered { IsNumbered state.old.types.table.entries.items kind.of }
    requires inside { IsInside true state.old }
    ensures stands { OnOk result (Stands round.now state.new) }
    ensures procedure { OnOk result (state.new.procedure ≡ state.old.procedure) }
    ensures types { OnOk result (state.new.types ≡ state.old.types) }
    ensures judged { Judges round.now state.old state.new
        (judged_declaration round.now.source.now true i kind.variable (shape_in state.old kind.of) number) result }
{
    let values = values_with(state.values, kind)?;
    let variable = parameter_variable(round, state.procedure, kind, state.values, number);
    let ident = Identdef {
        name: i,
        star: None,
    };
    state.declare(round, &ident, Named::Variable(variable))?;
    state.values = values;
    Ok(())
}

// A parameter is known from here on, if its section's are.
fn declare_parameter(
    state: &mut Declaring,
    round: &Surroundings,
    kind: Kind,
    i: u32,
    number: u32,
) -> Result<(), CheckFault>
    requires stands { Stands round.now state.old }
    requires numbered { IsNumbered state.old.types.table.entries.items kind.of }
    requires inside { IsInside kind.known_here state.old }
    ensures stands { OnOk result (Stands round.now state.new) }
    ensures procedure { OnOk result (state.new.procedure ≡ state.old.procedure) }
    ensures types { OnOk result (state.new.types ≡ state.old.types) }
    ensures judged { Judges round.now state.old state.new
        (judged_declaration round.now.source.now kind.known_here i kind.variable (shape_in state.old kind.of) number) result }
{
    if kind.known_here {
        know_parameter(state, round, kind, i, number)
    } else {
        Ok(())
    }
}

// One parameter more, with so many words.
fn with_formal(
    state: &Declaring,
    kind: Kind,
    listed: Listed,
    words: u32,
) -> Result<Listed, CheckFault>
    requires built { IsBuilt state.now.types }
    requires numbered { IsNumbered state.now.types.table.entries.items kind.of }
    requires words { words ≡ listed.words + words_of kind.variable (shape_in state.now kind.of) }
    ensures listed { IfOk result (λ l. (x : JudgedListed) → IsListedIn state.now listed x
        → IsListedIn state.now l (listed_more kind.variable (shape_in state.now kind.of) x)) }
    ensures memory { IfErr result (λ e. e ≡ CheckFault.Memory) }
{
    let mut formals = listed.formals;
    formals.push(Formal {
        mode: mode_of(kind.variable, kind.of),
        variable: kind.variable,
        type_number: state.types.number(kind.of),
    })?;
    Ok(Listed { formals, words })
}

// One parameter more: 40 at one past 24 words.
fn add_parameter(
    state: &mut Declaring,
    round: &Surroundings,
    kind: Kind,
    i: u32,
    listed: Listed,
) -> Result<Listed, CheckFault>
    requires stands { Stands round.now state.old }
    requires numbered { IsNumbered state.old.types.table.entries.items kind.of }
    requires inside { IsInside kind.known_here state.old }
    ensures stands { OnOk result (Stands round.now state.new) }
    ensures procedure { OnOk result (state.new.procedure ≡ state.old.procedure) }
    ensures types { OnOk result (state.new.types ≡ state.old.types) }
    ensures judged { (x : JudgedListed) → IsListedIn state.old listed x →
        JudgesAs (IsListedIn state.new) round.now state.old state.new
        (judged_parameters round.now.source.now kind.known_here kind.variable (shape_in state.old kind.of) (i ∷ []) x) result }
{
    match with_words(listed.words, kind.variable, kind.of) {
        None => Err(round.source.fault(40, i)),
        Some(words) => {
            let number = next_number(listed.formals.as_slice())?;
            declare_parameter(state, round, kind, i, number)?;
            with_formal(state, kind, listed, words)
        }
    }
}

// The parameters behind the first of a section.
fn add_more(
    state: &mut Declaring,
    round: &Surroundings,
    kind: Kind,
    more: &[NextIdent],
    first: Listed,
) -> Result<Listed, CheckFault>
    requires stands { Stands round.now state.old }
    requires numbered { IsNumbered state.old.types.table.entries.items kind.of }
    requires inside { IsInside kind.known_here state.old }
    ensures stands { OnOk result (Stands round.now state.new) }
    ensures procedure { OnOk result (state.new.procedure ≡ state.old.procedure) }
    ensures types { OnOk result (state.new.types ≡ state.old.types) }
    ensures judged { (x : JudgedListed) → IsListedIn state.old first x →
        JudgesAs (IsListedIn state.new) round.now state.old state.new
        (judged_parameters round.now.source.now kind.known_here kind.variable (shape_in state.old kind.of)
        (next_names more.now) x) result }
{
    let mut listed = first;
    for next in more {
        listed = add_parameter(state, round, kind, next.name, listed)?;
    }
    Ok(listed)
}

/// The parameters of a section, behind those so far.
pub fn add_parameters(
    state: &mut Declaring,
    round: &Surroundings,
    kind: Kind,
    first: u32,
    more: &[NextIdent],
    listed: Listed,
) -> Result<Listed, CheckFault>
    requires stands { Stands round.now state.old }
    requires numbered { IsNumbered state.old.types.table.entries.items kind.of }
    requires inside { IsInside kind.known_here state.old }
    ensures stands { OnOk result (Stands round.now state.new) }
    ensures procedure { OnOk result (state.new.procedure ≡ state.old.procedure) }
    ensures types { OnOk result (state.new.types ≡ state.old.types) }
    ensures judged { (x : JudgedListed) → IsListedIn state.old listed x →
        JudgesAs (IsListedIn state.new) round.now state.old state.new
        (judged_parameters round.now.source.now kind.known_here kind.variable (shape_in state.old kind.of)
        (first ∷ next_names more.now) x) result }
{
    let with_first = add_parameter(state, round, kind, first, listed)?;
    add_more(state, round, kind, more, with_first)
}
