//! Variables that are named.

ghost use Rattle.std.specs.Prelude.{◌≡◌, ℕ, List, true, false, Some};
ghost use Rattle.ob_types.specs.Table.{Table};
ghost use Rattle.ob_judge.specs.Operands.{whole_variable as judged_whole, read_only_by, is_tagged_home as tagged_home};
ghost use Rattle.ob_judge.specs.Names.{variable_read as judged_read};
ghost use Rattle.ob_judge.specs.Judged.{Keeps};
ghost use Rattle.judged_tree.specs.Plain.{plain_base};
ghost use Rattle.check_types.specs.steps.Answers.{Answers};
ghost use Rattle.check_types.specs.names.Meaning.{place_of as place_meant, variable_of, home_of};
ghost use Rattle.check_types.specs.names.Worlds.{table_of, strings_of, world_of};
ghost use Rattle.check_operands.specs.Operands.{Stands, use_of};
ghost use Rattle.check_selectors.specs.parts.Parts.{IsPart, narrowed_in};

use crate::parts::part::{Part, Reach};
use check_operands::trees::Place;
use check_operands::{Operand, Use, What};
use check_types::names::{Home, Narrowing, Scope, Variable, VariablePlace};
use check_types::steps::CheckFault;
use items::Items;
use ob_types::Base;
use std::alloc::Global;

// Where a designator of this variable begins.
fn base(place: VariablePlace) -> Base
    ensures { (t : Table) (texts : List (List ℕ)) → plain_base t texts result ≡ place_meant place }
{
    match place {
        VariablePlace::Done => Base::Done,
        VariablePlace::Global { module, variable } => Base::Global { module, variable },
        VariablePlace::Local(variable) => Base::Local(variable),
        VariablePlace::Parameter(number) => Base::Parameter(number),
    }
}

// Whether it mustn't be written here.
fn is_read_only<'a>(scope: &Scope<'a>, v: Variable) -> bool
    ensures { read_only_by (world_of scope.now) (variable_of (table_of scope.now) (strings_of scope.now) v) (home_of v.home) ≡ result }
{
    match v.home {
        Home::ReadOnly => true,
        Home::OfModule => v.owner != scope.module_number,
        _ => false,
    }
}

// Whether it has a dynamic type.
fn is_tagged(home: Home) -> bool
    ensures { tagged_home (home_of home) ≡ result }
{
    match home {
        Home::Tagged => true,
        _ => false,
    }
}

// What may be done with it.
fn usage<'a>(scope: &Scope<'a>, v: Variable) -> Use
    ensures { use_of result ≡ (judged_whole (world_of scope.now) (variable_of (table_of scope.now) (strings_of scope.now) v)).use_ }
{
    Use::Variable {
        read_only: is_read_only(scope, v),
        tagged: is_tagged(v.home),
        narrowed: false,
    }
}

// A variable as it is declared.
fn whole_variable<'a>(scope: &Scope<'a>, v: Variable) -> Part
    ensures { IsPart scope.now result (judged_whole (world_of scope.now) (variable_of (table_of scope.now) (strings_of scope.now) v)) }
{
    Part {
        of: v.of,
        reach: Reach::Named(Place::Whole(base(v.place))),
        usage: usage(scope, v),
    }
}

/// A variable as it is declared, as an operand.
pub fn whole_operand<'a>(scope: &Scope<'a>, v: Variable) -> Operand
    ensures { Stands scope.now result (judged_whole (world_of scope.now) (variable_of (table_of scope.now) (strings_of scope.now) v)) }
{
    Operand {
        of: v.of,
        what: What::Named(Place::Whole(base(v.place))),
        usage: usage(scope, v),
    }
}

// A pointer variable that is narrowed: its value, guarded.
#[inline(never)]
fn narrowed_pointer<'a>(
    scope: &Scope<'a>,
    alloc: Global,
    v: Variable,
    n: Narrowing,
) -> Result<Part, CheckFault>
    ensures { Answers (IsPart scope.now) (narrowed_in scope.now v true n) result }
{
    let mut tags = Items::new(alloc);
    tags.push(n.tag)?;
    Ok(Part {
        of: n.of,
        reach: Reach::Guarded {
            place: Place::Whole(base(v.place)),
            own: v.of,
            tags,
        },
        usage: Use::Variable {
            read_only: false,
            tagged: false,
            narrowed: true,
        },
    })
}

// A VAR record parameter that is narrowed.
#[inline(never)]
fn narrowed_record<'a>(
    scope: &Scope<'a>,
    alloc: Global,
    v: Variable,
    n: Narrowing,
) -> Result<Part, CheckFault>
    ensures { Answers (IsPart scope.now) (narrowed_in scope.now v false n) result }
{
    let at = Place::Whole(base(v.place)).narrow(alloc, n.tag)?;
    Ok(Part {
        of: n.of,
        reach: Reach::Named(at),
        usage: Use::Variable {
            read_only: false,
            tagged: true,
            narrowed: true,
        },
    })
}

/// A variable as it is read: in a part of a CASE on types its guard.
#[inline(always)]
pub fn variable_read<'a>(scope: &Scope<'a>, alloc: Global, v: Variable) -> Result<Part, CheckFault>
    ensures { Answers (IsPart scope.now) (Keeps (judged_read scope.now.source.now (world_of scope.now) (variable_of (table_of scope.now) (strings_of scope.now) v))) result }
{
    match scope.narrowing(v.place) {
        None => Ok(whole_variable(scope, v)),
        Some(n) => {
            if v.of.is_pointer() {
                narrowed_pointer(scope, alloc, v, n)
            } else {
                narrowed_record(scope, alloc, v, n)
            }
        }
    }
}
