//! Expressions and designators.

ghost use Rattle.std.specs.Prelude.{◌≡◌, OnOk};
ghost use Rattle.check_procedures.specs.numbers.Numbering.{KeepsMeaning, numbering_of};
ghost use Rattle.check_procedures.specs.numbers.Readings.{each, accesses, expressions, links, designators, selectors, calls, arguments};

use crate::numbers::numbers::{renumbered_base, type_kind, type_number};
use check_types::names::Scope;
use items::Items;
use ob_types::{Access, Argument, Call, Characters, Designator, Expr, Link, Selector};
use outside::Memory;
use std::alloc::Global;

/// An expression.
#[cycle(expressions)]
pub fn renumber_expression<'a>(
    scope: &Scope<'a>,
    alloc: Global,
    uses: &mut Items<Characters>,
    tree: &mut Expr,
) -> Result<(), Memory>
    ensures { OnOk result (KeepsMeaning expressions (numbering_of scope.now)
        (record { tree = tree.old; made = tree.new; before = uses.old; after = uses.new })) }
{
    match tree {
        Expr::Literal(_) => Ok(()),
        Expr::Routine(_) => Ok(()),
        Expr::Load(d) => {
            renumber_designator(scope, alloc, uses, d)?;
            Ok(())
        }
        Expr::Guard(d, _tags) => {
            renumber_designator(scope, alloc, uses, d)?;
            Ok(())
        }
        Expr::Unary(_, x) => {
            renumber_expression(scope, alloc, uses, x)?;
            Ok(())
        }
        Expr::Chain(x, links) => {
            renumber_expression(scope, alloc, uses, x)?;
            renumber_links(scope, alloc, uses, links)?;
            Ok(())
        }
        Expr::Compare(_, x, y) => {
            renumber_expression(scope, alloc, uses, x)?;
            renumber_expression(scope, alloc, uses, y)?;
            Ok(())
        }
        Expr::CompareTexts(_, x, y) => {
            renumber_designator(scope, alloc, uses, x)?;
            renumber_designator(scope, alloc, uses, y)?;
            Ok(())
        }
        Expr::In(x, set) => {
            renumber_expression(scope, alloc, uses, x)?;
            renumber_expression(scope, alloc, uses, set)?;
            Ok(())
        }
        Expr::IsPointer(x, _) => {
            renumber_expression(scope, alloc, uses, x)?;
            Ok(())
        }
        Expr::IsParameter(d, _) => {
            renumber_designator(scope, alloc, uses, d)?;
            Ok(())
        }
        Expr::Byte(x) => {
            renumber_expression(scope, alloc, uses, x)?;
            Ok(())
        }
        Expr::Length(d) => {
            renumber_designator(scope, alloc, uses, d)?;
            Ok(())
        }
        Expr::Call(call) => {
            renumber_call(scope, alloc, uses, call)?;
            Ok(())
        }
    }
}

/// Links, one after the other.
#[cycle(expressions)]
fn renumber_links<'a>(
    scope: &Scope<'a>,
    alloc: Global,
    uses: &mut Items<Characters>,
    list: &mut Vec<Link>,
) -> Result<(), Memory>
    ensures { OnOk result (KeepsMeaning (each links) (numbering_of scope.now)
        (record { tree = list.old.items; made = list.new.items; before = uses.old; after = uses.new })) }
{
    for i in 0..list.len() {
        renumber_link(scope, alloc, uses, &mut list[i])?;
    }
    Ok(())
}

/// A link's operands.
#[cycle(expressions)]
fn renumber_link<'a>(
    scope: &Scope<'a>,
    alloc: Global,
    uses: &mut Items<Characters>,
    link: &mut Link,
) -> Result<(), Memory>
    ensures { OnOk result (KeepsMeaning links (numbering_of scope.now)
        (record { tree = link.old; made = link.new; before = uses.old; after = uses.new })) }
{
    match link {
        Link::Operate(_, y) => {
            renumber_expression(scope, alloc, uses, y)?;
            Ok(())
        }
        Link::And(y) => {
            renumber_expression(scope, alloc, uses, y)?;
            Ok(())
        }
        Link::Or(y) => {
            renumber_expression(scope, alloc, uses, y)?;
            Ok(())
        }
        Link::Element(y) => {
            renumber_expression(scope, alloc, uses, y)?;
            Ok(())
        }
        Link::Elements(low, high) => {
            renumber_expression(scope, alloc, uses, low)?;
            renumber_expression(scope, alloc, uses, high)?;
            Ok(())
        }
    }
}

/// A designator.
#[cycle(expressions)]
pub fn renumber_designator<'a>(
    scope: &Scope<'a>,
    alloc: Global,
    uses: &mut Items<Characters>,
    d: &mut Designator,
) -> Result<(), Memory>
    ensures { OnOk result (KeepsMeaning designators (numbering_of scope.now)
        (record { tree = d.old; made = d.new; before = uses.old; after = uses.new })) }
{
    match d {
        Designator::Whole(base, kind) => {
            *base = renumbered_base(scope, alloc, uses, *base)?;
            *kind = type_kind(scope.types, *kind);
            Ok(())
        }
        Designator::Part(access) => {
            renumber_access(scope, alloc, uses, access)?;
            Ok(())
        }
    }
}

/// A variable with selectors.
#[cycle(expressions)]
fn renumber_access<'a>(
    scope: &Scope<'a>,
    alloc: Global,
    uses: &mut Items<Characters>,
    access: &mut Access,
) -> Result<(), Memory>
    ensures { OnOk result (KeepsMeaning accesses (numbering_of scope.now)
        (record { tree = access.old; made = access.new; before = uses.old; after = uses.new })) }
{
    access.base = renumbered_base(scope, alloc, uses, access.base)?;
    access.kind = type_kind(scope.types, access.kind);
    renumber_selectors(scope, alloc, uses, &mut access.selectors)?;
    Ok(())
}

/// Selectors, one after the other.
#[cycle(expressions)]
fn renumber_selectors<'a>(
    scope: &Scope<'a>,
    alloc: Global,
    uses: &mut Items<Characters>,
    list: &mut Vec<Selector>,
) -> Result<(), Memory>
    ensures { OnOk result (KeepsMeaning (each selectors) (numbering_of scope.now)
        (record { tree = list.old.items; made = list.new.items; before = uses.old; after = uses.new })) }
{
    for i in 0..list.len() {
        renumber_selector(scope, alloc, uses, &mut list[i])?;
    }
    Ok(())
}

/// A selector.
#[cycle(expressions)]
fn renumber_selector<'a>(
    scope: &Scope<'a>,
    alloc: Global,
    uses: &mut Items<Characters>,
    selector: &mut Selector,
) -> Result<(), Memory>
    ensures { OnOk result (KeepsMeaning selectors (numbering_of scope.now)
        (record { tree = selector.old; made = selector.new; before = uses.old; after = uses.new })) }
{
    match selector {
        Selector::Index { element, index, .. } => {
            *element = type_number(scope.types, *element);
            renumber_expression(scope, alloc, uses, index)?;
            Ok(())
        }
        Selector::Field { .. } => Ok(()),
        Selector::Dereference(_) => Ok(()),
        Selector::Narrow(_) => Ok(()),
    }
}

/// A call.
#[cycle(expressions)]
pub fn renumber_call<'a>(
    scope: &Scope<'a>,
    alloc: Global,
    uses: &mut Items<Characters>,
    call: &mut Call,
) -> Result<(), Memory>
    ensures { OnOk result (KeepsMeaning calls (numbering_of scope.now)
        (record { tree = call.old; made = call.new; before = uses.old; after = uses.new })) }
{
    match call {
        Call::Direct(_, list) => {
            renumber_arguments(scope, alloc, uses, list)?;
            Ok(())
        }
        Call::Indirect(d, list) => {
            renumber_designator(scope, alloc, uses, d)?;
            renumber_arguments(scope, alloc, uses, list)?;
            Ok(())
        }
    }
}

/// Arguments, one after the other.
#[cycle(expressions)]
fn renumber_arguments<'a>(
    scope: &Scope<'a>,
    alloc: Global,
    uses: &mut Items<Characters>,
    list: &mut Vec<Argument>,
) -> Result<(), Memory>
    ensures { OnOk result (KeepsMeaning (each arguments) (numbering_of scope.now)
        (record { tree = list.old.items; made = list.new.items; before = uses.old; after = uses.new })) }
{
    for i in 0..list.len() {
        renumber_argument(scope, alloc, uses, &mut list[i])?;
    }
    Ok(())
}

/// An argument.
#[cycle(expressions)]
fn renumber_argument<'a>(
    scope: &Scope<'a>,
    alloc: Global,
    uses: &mut Items<Characters>,
    argument: &mut Argument,
) -> Result<(), Memory>
    ensures { OnOk result (KeepsMeaning arguments (numbering_of scope.now)
        (record { tree = argument.old; made = argument.new; before = uses.old; after = uses.new })) }
{
    match argument {
        Argument::ByValue(x) => {
            renumber_expression(scope, alloc, uses, x)?;
            Ok(())
        }
        Argument::ByPlace(d) => {
            renumber_designator(scope, alloc, uses, d)?;
            Ok(())
        }
        Argument::ByRecord(d) => {
            renumber_designator(scope, alloc, uses, d)?;
            Ok(())
        }
        Argument::ByOpen(d) => {
            renumber_designator(scope, alloc, uses, d)?;
            Ok(())
        }
    }
}
