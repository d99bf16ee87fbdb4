//! What a procedure takes and gives, and its name.

ghost use Rattle.std.specs.Prelude.{◌≡◌, ◌<◌, ℕ, length, true, false, is_none, OnOk, IfOk, IfErr};
ghost use Rattle.ob_syntax.specs.Plain.{plain_option, plain_formals};
ghost use Rattle.ob_judge.specs.Making.{Making};
ghost use Rattle.ob_judge.specs.Shapes.{Shape, Procedure};
ghost use Rattle.ob_judge.specs.Parameters.{Listed as JudgedListed};
ghost use Rattle.ob_judge.specs.Declarations.{heading as judged_heading};
ghost use Rattle.judged_tree.specs.Tables.{are_before};
ghost use Rattle.judged_well.specs.Standing.{is_result};
ghost use Rattle.judged_programs.specs.Tidy.{AreListed, Tidy};
ghost use Rattle.legal_tables.specs.Promised.{HasLegalTypes};
ghost use Rattle.check_types.specs.declared.types.TypeRef.TheVariants as TheType;
ghost use Rattle.check_types.specs.TypeMeaning.{type_shape};
ghost use Rattle.table_builder.specs.Entries.{IsNumbered};
ghost use Rattle.table_builder.specs.Growing.{Grows};
ghost use Rattle.check_making.specs.Making.{table_of, Makes, IsSettled};
ghost use Rattle.check_making.specs.Parts.{JudgesAs};
ghost use Rattle.check_making.specs.parameters.Headings.{IsHeading};
ghost use Rattle.check_making.specs.parameters.Stands.{Stands};
ghost use Rattle.check_making.specs.headings.Signatures.{signature_at};

use crate::parameters::{Heading, Listed, formal_part, procedure_of};
use crate::scopes::declare_procedure;
use crate::{Declaring, Surroundings};
use check_types::TypeRef;
use check_types::steps::CheckFault;
use items::Items;
use ob_syntax::names::Identdef;
use ob_syntax::types::Formals;
use ob_types::Formal;
use std::alloc::Global;

// The same parameters.
fn copied_formals(alloc: Global, formals: &[Formal]) -> Result<Items<Formal>, CheckFault>
    ensures same { IfOk result (λ all. all ≡ formals.now) }
    ensures memory { IfErr result (λ e. e ≡ CheckFault.Memory) }
{
    let mut all = Items::new(alloc);
    for x in formals {
        all.push(Formal {
            mode: x.mode,
            variable: x.variable,
            type_number: x.type_number,
        })?;
    }
    Ok(all)
}

// The same parameters and result.
fn copied(alloc: Global, heading: &Heading) -> Result<Heading, CheckFault>
    ensures same { IfOk result (λ h. h ≡ heading.now) }
    ensures memory { IfErr result (λ e. e ≡ CheckFault.Memory) }
{
    let formals = copied_formals(alloc, heading.listed.formals.as_slice())?;
    Ok(Heading {
        listed: Listed {
            formals,
            words: heading.listed.words,
        },
        outcome: heading.outcome,
    })
}

// The number of a procedure type's signature.
fn signature_in(of: TypeRef) -> Option<u32>
    ensures { result ≡ signature_at of }
{
    match of {
        TypeRef::Procedure(g) => Some(g),
        _ => None,
    }
}

// The number of the signature that takes and gives this.
fn signature_of(
    state: &mut Declaring,
    round: &Surroundings,
    heading: &Heading,
) -> Result<u32, CheckFault>
    requires settled { IsSettled round.now state.old }
    requires formals { are_before (length state.old.types.table.entries.items) heading.now.listed.formals }
    requires outcome { IsNumbered state.old.types.table.entries.items heading.now.outcome }
    ensures settled { OnOk result (IsSettled round.now state.new) }
    ensures makes { OnOk result ((m : Making) → Makes round.now state.old m → Makes round.now state.new m) }
    ensures grows { OnOk result (Grows state.old.types.table state.new.types.table) }
    ensures numbered { IfOk result (λ g. IsNumbered state.new.types.table.entries.items (TheType.Procedure g)) }
    ensures shape { IfOk result (λ g. (x : JudgedListed × Shape) → IsHeading state.old heading.now x
        → type_shape (table_of state.new) (TheType.Procedure g) ≡ Procedure x.0.formals x.1) }
    ensures memory { IfErr result (λ e. e ≡ CheckFault.Memory) }
    ensures legal { OnOk result ((x : JudgedListed × Shape) → IsHeading state.old heading.now x → AreListed x.0 → is_result x.1 ≡ true
        → HasLegalTypes state.old.types.table → HasLegalTypes state.new.types.table) }
{
    let copy = copied(round.alloc, heading)?;
    let of = procedure_of(state, round, copy)?;
    match signature_in(of) {
        Some(g) => Ok(g),
        None => unreachable!(),
    }
}

/// What a procedure takes and gives. The names of its parameters are known in its scope from here on, and its own name in the
/// scope round it.
pub fn heading(
    state: &mut Declaring,
    round: &Surroundings,
    number: u32,
    name: &Identdef,
    formals: &Option<Formals>,
    is_local: bool,
) -> Result<Heading, CheckFault>
    requires stands { Stands round.now state.old }
    requires within { 0 < round.now.depth }
    requires open { is_none state.old.procedure ≡ false }
    ensures stands { OnOk result (Stands round.now state.new) }
    ensures grows { OnOk result (Grows state.old.types.table state.new.types.table) }
    ensures judged { JudgesAs (IsHeading state.new) round.now state.old state.new
        (judged_heading round.now.source.now number name.now (plain_option plain_formals formals.now) is_local) result }
    ensures legal { (from : ℕ) (m : Making) → Makes round.now state.old m → Tidy from m
        → OnOk result (HasLegalTypes state.old.types.table → HasLegalTypes state.new.types.table) }
{
    let heading = formal_part(state, round, true, formals)?;
    let signature = signature_of(state, round, &heading)?;
    declare_procedure(state, round, name, number, signature, is_local)?;
    Ok(heading)
}
