//! Labels of types.

ghost use Rattle.std.specs.Prelude.{◌≡◌, [], Option, option_map, IfOk, IfErr};
ghost use Rattle.ob_judge.specs.Scopes.{Object, place};
ghost use Rattle.ob_judge.specs.Cases.{label_object as judged_object, no_high as judged_end, type_label as judged_label, type_labels as judged_labels, label_type, tag_of as tag_in, narrow};
ghost use Rattle.check_types.specs.steps.Answers.{Answers};
ghost use Rattle.check_types.specs.TypeMeaning.{type_shape};
ghost use Rattle.check_types.specs.Known.{known_of};
ghost use Rattle.check_types.specs.names.Meaning.{place_of, narrowings_before};
ghost use Rattle.check_types.specs.names.Worlds.{table_of, strings_of, world_of, IsOfType};
ghost use Rattle.check_types.specs.declared.names.scope.Scope.{Scope as TheScope};
ghost use Rattle.check_statements.specs.cases.Selecting.{IsMaybeNamed, IsNothing, label_end, type_in_label};

use crate::cases::labels::{label_symbol, qualified};
use check_types::TypeRef;
use check_types::names::{Named, Narrowing, Scope, VariablePlace};
use check_types::steps::CheckFault;
use ob_syntax::statements::{High, Label, NextRange, Range};
use std::alloc::Global;

// What a label names.
fn label_object<'a>(scope: &Scope<'a>, tree: &Label) -> Result<Option<Named>, CheckFault>
    ensures { Answers (IsMaybeNamed scope.now) (judged_object scope.now.source.now (world_of scope.now) tree.now) result }
{
    match tree {
        Label::Named(name) => {
            let named = qualified(scope, name)?;
            Ok(Some(named))
        }
        _ => Ok(None),
    }
}

// No range: else 39, once its end has been named.
fn no_high<'a>(scope: &Scope<'a>, symbol: u32, tree: &Option<High>) -> Result<(), CheckFault>
    ensures { Answers IsNothing
        (judged_end scope.now.source.now (world_of scope.now) (place scope.now.source.now symbol) tree.now) result }
{
    match tree {
        None => Ok(()),
        Some(high) => {
            label_object(scope, &high.label)?;
            Err(scope.source.fault(39, symbol))
        }
    }
}

// The type that a name stands for.
fn named_type(named: Option<Named>) -> Option<TypeRef>
    ensures { (s : TheScope) (o : Option Object) → IsMaybeNamed s named o →
        option_map (type_shape (table_of s)) result ≡ label_type o }
{
    match named {
        Some(Named::Type(of)) => Some(of),
        _ => None,
    }
}

// A label that is this type: 39 unless it extends the variable's, where it is a range, and where it isn't the first.
fn type_end<'a>(
    scope: &Scope<'a>,
    symbol: u32,
    of: TypeRef,
    is_first: bool,
    to: TypeRef,
    tree: &Option<High>,
) -> Result<TypeRef, CheckFault>
    ensures { Answers (IsOfType scope.now)
        (label_end scope.now.source.now (world_of scope.now) (place scope.now.source.now symbol)
        (type_shape (table_of scope.now) of) is_first tree.now (type_shape (table_of scope.now) to))
        result }
{
    if scope.types.extends(to, of) {
        no_high(scope, symbol, tree)?;
        if is_first {
            Ok(to)
        } else {
            Err(scope.source.fault(39, symbol))
        }
    } else {
        Err(scope.source.fault(39, symbol))
    }
}

// What a label names, as a type.
fn type_of_label<'a>(scope: &Scope<'a>, symbol: u32, tree: &Label) -> Result<TypeRef, CheckFault>
    ensures { Answers (IsOfType scope.now)
        (type_in_label scope.now.source.now (world_of scope.now) (place scope.now.source.now symbol) tree.now) result }
{
    let named = label_object(scope, tree)?;
    match named_type(named) {
        None => Err(scope.source.fault(39, symbol)),
        Some(of) => Ok(of),
    }
}

// A label that is a type.
fn type_label<'a>(
    scope: &Scope<'a>,
    of: TypeRef,
    is_first: bool,
    tree: &Range,
) -> Result<TypeRef, CheckFault>
    ensures { Answers (IsOfType scope.now)
        (judged_label scope.now.source.now (world_of scope.now) (type_shape (table_of scope.now) of) is_first tree.now) result }
{
    let symbol = label_symbol(&tree.low);
    let to = type_of_label(scope, symbol, &tree.low)?;
    type_end(scope, symbol, of, is_first, to, &tree.high)
}

/// The type of a part of a CASE on types: there is one label.
pub fn type_labels<'a>(
    scope: &Scope<'a>,
    of: TypeRef,
    first: &Range,
    more: &[NextRange],
) -> Result<TypeRef, CheckFault>
    ensures { Answers (IsOfType scope.now)
        (judged_labels scope.now.source.now (world_of scope.now) (type_shape (table_of scope.now) of) first.now more.now) result }
{
    match more {
        [] => type_label(scope, of, true, first),
        [second, ..] => {
            type_label(scope, of, true, first)?;
            type_label(scope, of, false, &second.range)
        }
    }
}

/// The record type that a part for this type is for.
pub fn tag_of<'a>(scope: &Scope<'a>, of: TypeRef) -> u32
    ensures { result ≡ tag_in (known_of scope.now.types.now) (type_shape (table_of scope.now) of) }
{
    match of {
        TypeRef::Record(record) => record,
        _ => match scope.types.target_of(of) {
            Some(record) => record,
            None => 0,
        },
    }
}

/// The narrowed variables in a part for this type: this one, and those before.
pub fn narrowed<'a>(
    scope: &Scope<'a>,
    alloc: Global,
    variable: VariablePlace,
    of: TypeRef,
) -> Result<Vec<Narrowing>, CheckFault>
    ensures ok { IfOk result (λ v. narrowings_before (table_of scope.now) (strings_of scope.now) [] v.items
        ≡ (narrow (world_of scope.now) (place_of variable) (type_shape (table_of scope.now) of)).narrowed) }
    ensures memory { IfErr result (λ e. e ≡ CheckFault.Memory) }
{
    let mut all = Vec::from_slice(alloc, scope.narrowed)?;
    all.push(Narrowing {
        variable,
        of,
        tag: tag_of(scope, of),
    })?;
    Ok(all)
}
