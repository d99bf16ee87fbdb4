//! TYPE and VAR (Oberon-07 report, sections 6 and 7).

ghost use Rattle.std.specs.Prelude.{◌≡◌, ℕ, OnOk};
ghost use Rattle.ob_syntax.specs.Plain.{plain_option, plain_each, plain_type_decl, plain_types, plain_var_decl, plain_vars};
ghost use Rattle.ob_judge.specs.Declarations.{each, type_decl_part, types_in, types_part, var_part, vars_in};
ghost use Rattle.ob_judge.specs.Making.{Making};
ghost use Rattle.judged_programs.specs.Tidy.{Tidy};
ghost use Rattle.legal_tables.specs.Promised.{HasLegalTypes};
ghost use Rattle.table_builder.specs.Growing.{Grows};
ghost use Rattle.check_making.specs.Making.{Makes};
ghost use Rattle.check_making.specs.Parts.{Judges};
ghost use Rattle.check_making.specs.parameters.Stands.{Stands};

use crate::type_parts::forward::{begin_type_part, end_type_part, forward_bases};
use crate::type_parts::names::{listed_variables, stand_listed};
use crate::type_parts::walk::type_of;
use check_making::{Declaring, Surroundings};
use check_types::names::Named;
use check_types::steps::CheckFault;
use ob_syntax::declarations::{TypeDecl, Types, VarDecl, Vars};

// A type is declared; its name is known at the end.
fn type_decl(state: &mut Declaring, round: &Surroundings, tree: &TypeDecl) -> Result<(), CheckFault>
    requires { Stands round.now state.old }
    ensures stands { OnOk result (Stands round.now state.new) }
    ensures grows { OnOk result (Grows state.old.types.table state.new.types.table) }
    ensures legal { (from : ℕ) (m : Making) → Makes round.now state.old m → Tidy from m
        → OnOk result (HasLegalTypes state.old.types.table → HasLegalTypes state.new.types.table) }
    ensures judged { Judges round.now state.old state.new
        (type_decl_part round.now.source.now (plain_type_decl tree.now)) result }
{
    state.stand(round, tree.name.name)?;
    let of = type_of(state, round, &tree.is)?;
    state.declare(round, &tree.name, Named::Type(of))
}

// Types are declared, one after the other.
fn type_decls(
    state: &mut Declaring,
    round: &Surroundings,
    trees: &[TypeDecl],
) -> Result<(), CheckFault>
    requires { Stands round.now state.old }
    ensures stands { OnOk result (Stands round.now state.new) }
    ensures grows { OnOk result (Grows state.old.types.table state.new.types.table) }
    ensures legal { (from : ℕ) (m : Making) → Makes round.now state.old m → Tidy from m
        → OnOk result (HasLegalTypes state.old.types.table → HasLegalTypes state.new.types.table) }
    ensures judged { Judges round.now state.old state.new
        (each (type_decl_part round.now.source.now) (plain_each plain_type_decl trees.now)) result }
{
    for tree in trees {
        type_decl(state, round, tree)?;
    }
    Ok(())
}

// The declarations of a TYPE part, or none.
fn type_trees<'a>(tree: &'a Option<Types>) -> &'a [TypeDecl]
    ensures { plain_each plain_type_decl result.now ≡ types_in (plain_option plain_types tree.now) }
{
    match tree {
        None => &[],
        Some(types) => &types.each,
    }
}

/// A TYPE part, or none: a pointer type's base may be declared later in it, 30 and 31 at its end where it isn't, or is no
/// record type.
pub fn type_declarations(
    state: &mut Declaring,
    round: &Surroundings,
    tree: &Option<Types>,
) -> Result<(), CheckFault>
    requires { Stands round.now state.old }
    ensures stands { OnOk result (Stands round.now state.new) }
    ensures procedure { OnOk result (state.new.procedure ≡ state.old.procedure) }
    ensures grows { OnOk result (Grows state.old.types.table state.new.types.table) }
    ensures legal { (from : ℕ) (m : Making) → Makes round.now state.old m → Tidy from m
        → OnOk result (HasLegalTypes state.old.types.table → HasLegalTypes state.new.types.table) }
    ensures judged { Judges round.now state.old state.new
        (types_part round.now.source.now (types_in (plain_option plain_types tree.now))) result }
{
    begin_type_part(state, round);
    type_decls(state, round, type_trees(tree))?;
    end_type_part(state, round);
    forward_bases(state, round)
}

// Variables are declared; their names stand before their type, and are known after it.
fn var_decl(state: &mut Declaring, round: &Surroundings, tree: &VarDecl) -> Result<(), CheckFault>
    requires { Stands round.now state.old }
    ensures stands { OnOk result (Stands round.now state.new) }
    ensures grows { OnOk result (Grows state.old.types.table state.new.types.table) }
    ensures legal { (from : ℕ) (m : Making) → Makes round.now state.old m → Tidy from m
        → OnOk result (HasLegalTypes state.old.types.table → HasLegalTypes state.new.types.table) }
    ensures judged { Judges round.now state.old state.new
        (var_part round.now.source.now (plain_var_decl tree.now)) result }
{
    stand_listed(state, round, &tree.names)?;
    let of = type_of(state, round, &tree.of)?;
    listed_variables(state, round, of, &tree.names)
}

// Variables are declared, list after list.
fn var_decls(
    state: &mut Declaring,
    round: &Surroundings,
    trees: &[VarDecl],
) -> Result<(), CheckFault>
    requires { Stands round.now state.old }
    ensures stands { OnOk result (Stands round.now state.new) }
    ensures grows { OnOk result (Grows state.old.types.table state.new.types.table) }
    ensures legal { (from : ℕ) (m : Making) → Makes round.now state.old m → Tidy from m
        → OnOk result (HasLegalTypes state.old.types.table → HasLegalTypes state.new.types.table) }
    ensures judged { Judges round.now state.old state.new
        (each (var_part round.now.source.now) (plain_each plain_var_decl trees.now)) result }
{
    for tree in trees {
        var_decl(state, round, tree)?;
    }
    Ok(())
}

// The declarations of a VAR part, or none.
fn variable_trees<'a>(tree: &'a Option<Vars>) -> &'a [VarDecl]
    ensures { plain_each plain_var_decl result.now ≡ vars_in (plain_option plain_vars tree.now) }
{
    match tree {
        None => &[],
        Some(vars) => &vars.each,
    }
}

/// A VAR part, or none.
pub fn variable_declarations(
    state: &mut Declaring,
    round: &Surroundings,
    tree: &Option<Vars>,
) -> Result<(), CheckFault>
    requires { Stands round.now state.old }
    ensures stands { OnOk result (Stands round.now state.new) }
    ensures procedure { OnOk result (state.new.procedure ≡ state.old.procedure) }
    ensures grows { OnOk result (Grows state.old.types.table state.new.types.table) }
    ensures legal { (from : ℕ) (m : Making) → Makes round.now state.old m → Tidy from m
        → OnOk result (HasLegalTypes state.old.types.table → HasLegalTypes state.new.types.table) }
    ensures judged { Judges round.now state.old state.new
        (each (var_part round.now.source.now) (vars_in (plain_option plain_vars tree.now))) result }
{
    var_decls(state, round, variable_trees(tree))
}
