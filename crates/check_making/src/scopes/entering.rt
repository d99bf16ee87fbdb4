//! The scope of a procedure (Oberon-07 report, section 10).

ghost use Rattle.std.specs.Prelude.{◌≡◌, ◌<◌, ◌++◌, length, option_to_list, OnOk, IfOk};
ghost use Rattle.ob_judge.specs.Making.{Making};
ghost use Rattle.check_making.specs.Making.{AreNumbered, Makes, IsSettled};
ghost use Rattle.judged_modules.specs.steps.Frames.{entered, left};
ghost use Rattle.check_making.specs.scopes.Scopes.{deeper, IsPutAside, IsOuter};

use crate::{Declaring, Forward, Surroundings};
use check_types::TypeRef;
use check_types::names::Level;
use check_types::steps::CheckFault;
use std::collections::BTreeMap;
use std::mem::replace;

/// What belongs to the scope round a procedure's: how many scopes are open, whether In was imported, whether this is a TYPE
/// part, the procedure that is open, the names that stand, how many scalar value parameters there are, and the variables.
#[derive(Drop)]
pub struct Outer {
    pub depth: usize,
    pub imports_in: bool,
    pub is_type_part: bool,
    pub procedure: Option<u32>,
    pub standing: BTreeMap<Vec<u8>, u32>,
    pub values: u32,
    pub variables: Vec<TypeRef>,
}

/// Where declarations stand, with so many scopes round the innermost.
pub fn inside<'a>(round: &Surroundings<'a>, depth: usize) -> Surroundings<'a>
    ensures { result ≡ deeper round.now depth }
{
    Surroundings {
        alloc: round.alloc,
        source: round.source,
        texts: round.texts,
        modules: round.modules,
        module_number: round.module_number,
        depth,
    }
}

/// The innermost scope is that of a procedure from here on, without names.
pub fn enter(
    state: &mut Declaring,
    round: &Surroundings,
    procedure: u32,
) -> Result<Outer, CheckFault>
    requires { IsSettled round.now state.old }
    ensures settled { OnOk result (IsSettled (deeper round.now (length state.old.levels.items)) state.new) }
    ensures types { OnOk result (state.new.types ≡ state.old.types) }
    ensures outer { IfOk result (λ o. IsPutAside state.old o) }
    ensures makes { OnOk result ((m : Making) → Makes round.now state.old m
        → Makes (deeper round.now (length state.old.levels.items)) state.new (entered procedure m)) }
{
    let outer = Outer {
        depth: state.levels.len(),
        imports_in: state.imports_in,
        is_type_part: state.is_type_part,
        procedure: state.procedure,
        standing: replace(&mut state.standing, BTreeMap::new(round.alloc)),
        values: state.values,
        variables: replace(&mut state.variables, Vec::new(round.alloc)),
    };
    state.levels.push(Level {
        names: BTreeMap::new(round.alloc),
    })?;
    state.procedure = Some(procedure);
    state.values = 0;
    Ok(outer)
}

/// The innermost scope is the one round the procedure's again, with these pointer types whose base comes later. The names of
/// the one that was left are given.
pub fn leave(
    state: &mut Declaring,
    round: &Surroundings,
    outer: Outer,
    forward: Vec<Forward>,
) -> Option<Level>
    requires settled { IsSettled (deeper round.now outer.depth) state.old }
    requires deeper { round.now.depth < outer.depth }
    requires variables { AreNumbered state.old.types.table.entries.items outer.variables.items }
    ensures settled { IsSettled round.now state.new }
    ensures types { state.new.types ≡ state.old.types }
    ensures strings { state.new.strings ≡ state.old.strings }
    ensures names { state.old.levels.items ≡ state.new.levels.items ++ option_to_list result }
    ensures makes { (s t : Making) → Makes (deeper round.now outer.depth) state.old t → IsOuter round.now state.old outer forward.items s t
        → Makes round.now state.new (left s t) }
{
    let left = state.levels.pop();
    let Outer {
        depth: _,
        imports_in,
        is_type_part,
        procedure,
        standing,
        values,
        variables,
    } = outer;
    state.imports_in = imports_in;
    state.is_type_part = is_type_part;
    state.forward = forward;
    state.procedure = procedure;
    state.standing = standing;
    state.values = values;
    state.variables = variables;
    left
}
