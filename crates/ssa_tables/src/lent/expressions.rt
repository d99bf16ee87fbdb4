//! Expressions and designators.

ghost use Rattle.std.specs.Prelude.{◌≡◌, ◌||◌, ℕ, OnOk};
ghost use Rattle.ssa_assigned.specs.Assigned.{has};
ghost use Rattle.ssa_lowered.specs.Variables.{origin, lent, lent_link, lent_at, lent_whole, lent_by_first, lent_selector, lent_call, lent_as};
ghost use Rattle.ssa_tables.specs.lent.Lent.{lent_by_links, lent_by_selectors, lent_by_arguments, lent_by_part};

use ob_types::{Access, Argument, Base, Call, Designator, Expr, Link, Selector};
use outside::Memory;
use ssa_assigned::{note_base, note_unselected};

/// By an expression.
#[cycle(lending)]
pub fn lend(e: &Expr, found: &mut Vec<u32>) -> Result<(), Memory>
    ensures { OnOk result ((x : ℕ) → has found.new.items x ≡ (has found.old.items x || lent e.now x)) }
{
    match e {
        Expr::Literal(_) => Ok(()),
        Expr::Routine(_) => Ok(()),
        Expr::Load(d) => {
            lend_read(d, found)?;
            Ok(())
        }
        Expr::Guard(d, _) => {
            lend_read(d, found)?;
            Ok(())
        }
        Expr::Unary(_, x) => {
            lend(x, found)?;
            Ok(())
        }
        Expr::Chain(x, links) => {
            lend(x, found)?;
            lend_links(links, found)?;
            Ok(())
        }
        Expr::Compare(_, x, y) => {
            lend(x, found)?;
            lend(y, found)?;
            Ok(())
        }
        Expr::CompareTexts(_, d, e) => {
            lend_whole(d, found)?;
            lend_whole(e, found)?;
            Ok(())
        }
        Expr::In(x, s) => {
            lend(x, found)?;
            lend(s, found)?;
            Ok(())
        }
        Expr::IsPointer(x, _) => {
            lend(x, found)?;
            Ok(())
        }
        Expr::IsParameter(d, _) => {
            lend_whole(d, found)?;
            Ok(())
        }
        Expr::Byte(x) => {
            lend(x, found)?;
            Ok(())
        }
        Expr::Length(d) => {
            lend_whole(d, found)?;
            Ok(())
        }
        Expr::Call(c) => {
            lend_call(c, found)?;
            Ok(())
        }
    }
}

/// By links, one after the other.
#[cycle(lending)]
fn lend_links(links: &[Link], found: &mut Vec<u32>) -> Result<(), Memory>
    ensures { OnOk result ((x : ℕ) → has found.new.items x ≡ (has found.old.items x || lent_by_links links.now x)) }
{
    for k in links {
        lend_link(k, found)?;
    }
    Ok(())
}

/// By a link's operands.
#[cycle(lending)]
fn lend_link(k: &Link, found: &mut Vec<u32>) -> Result<(), Memory>
    ensures { OnOk result ((x : ℕ) → has found.new.items x ≡ (has found.old.items x || lent_link k.now x)) }
{
    match k {
        Link::Operate(_, y) => {
            lend(y, found)?;
            Ok(())
        }
        Link::And(y) => {
            lend(y, found)?;
            Ok(())
        }
        Link::Or(y) => {
            lend(y, found)?;
            Ok(())
        }
        Link::Element(y) => {
            lend(y, found)?;
            Ok(())
        }
        Link::Elements(y, z) => {
            lend(y, found)?;
            lend(z, found)?;
            Ok(())
        }
    }
}

/// By a designator that is read or assigned: a variable as a whole may stay in a register.
#[cycle(lending)]
pub fn lend_read(d: &Designator, found: &mut Vec<u32>) -> Result<(), Memory>
    ensures { OnOk result ((x : ℕ) → has found.new.items x ≡ (has found.old.items x || lent_at d.now x)) }
{
    match d {
        Designator::Whole(_, _) => Ok(()),
        Designator::Part(inner) => {
            let access: &Access = inner;
            lend_part(access.base, access.selectors.as_slice(), found)?;
            Ok(())
        }
    }
}

/// By a designator whose address is made.
#[cycle(lending)]
pub fn lend_whole(d: &Designator, found: &mut Vec<u32>) -> Result<(), Memory>
    ensures { OnOk result ((x : ℕ) → has found.new.items x ≡ (has found.old.items x || lent_whole d.now x)) }
{
    match d {
        Designator::Whole(base, _) => {
            note_base(*base, found)?;
            Ok(())
        }
        Designator::Part(inner) => {
            let access: &Access = inner;
            let selectors = access.selectors.as_slice();
            note_unselected(access.base, selectors, found)?;
            lend_part(access.base, selectors, found)?;
            Ok(())
        }
    }
}

/// By the selectors that lead to a part of a variable.
#[cycle(lending)]
fn lend_part(base: Base, selectors: &[Selector], found: &mut Vec<u32>) -> Result<(), Memory>
    ensures { OnOk result ((x : ℕ) → has found.new.items x ≡ (has found.old.items x || lent_by_part base selectors.now x)) }
{
    if selectors.len() > 0 {
        lend_first(base, &selectors[0], found)?;
    }
    lend_selectors(selectors, found)?;
    Ok(())
}

/// The variable itself, but where the first selector reads it as a pointer.
fn lend_first(base: Base, first: &Selector, found: &mut Vec<u32>) -> Result<(), Memory>
    ensures { OnOk result ((x : ℕ) → has found.new.items x ≡ (has found.old.items x || lent_by_first (origin base) first.now x)) }
{
    match first {
        Selector::Dereference(_) => Ok(()),
        Selector::Index { .. } => {
            note_base(base, found)?;
            Ok(())
        }
        Selector::Field { .. } => {
            note_base(base, found)?;
            Ok(())
        }
        Selector::Narrow(_) => {
            note_base(base, found)?;
            Ok(())
        }
    }
}

/// By the indices of selectors.
#[cycle(lending)]
fn lend_selectors(selectors: &[Selector], found: &mut Vec<u32>) -> Result<(), Memory>
    ensures { OnOk result ((x : ℕ) → has found.new.items x ≡ (has found.old.items x || lent_by_selectors selectors.now x)) }
{
    for s in selectors {
        lend_selector(s, found)?;
    }
    Ok(())
}

/// By the index of a selector.
#[cycle(lending)]
fn lend_selector(s: &Selector, found: &mut Vec<u32>) -> Result<(), Memory>
    ensures { OnOk result ((x : ℕ) → has found.new.items x ≡ (has found.old.items x || lent_selector s.now x)) }
{
    match s {
        Selector::Index { index, .. } => {
            lend(index, found)?;
            Ok(())
        }
        Selector::Field { .. } => Ok(()),
        Selector::Dereference(_) => Ok(()),
        Selector::Narrow(_) => Ok(()),
    }
}

/// By a call.
#[cycle(lending)]
pub fn lend_call(c: &Call, found: &mut Vec<u32>) -> Result<(), Memory>
    ensures { OnOk result ((x : ℕ) → has found.new.items x ≡ (has found.old.items x || lent_call c.now x)) }
{
    match c {
        Call::Direct(_, args) => {
            lend_arguments(args, found)?;
            Ok(())
        }
        Call::Indirect(d, args) => {
            lend_read(d, found)?;
            lend_arguments(args, found)?;
            Ok(())
        }
    }
}

/// By arguments, one after the other.
#[cycle(lending)]
fn lend_arguments(args: &[Argument], found: &mut Vec<u32>) -> Result<(), Memory>
    ensures { OnOk result ((x : ℕ) → has found.new.items x ≡ (has found.old.items x || lent_by_arguments args.now x)) }
{
    for a in args {
        lend_argument(a, found)?;
    }
    Ok(())
}

/// By an argument.
#[cycle(lending)]
fn lend_argument(a: &Argument, found: &mut Vec<u32>) -> Result<(), Memory>
    ensures { OnOk result ((x : ℕ) → has found.new.items x ≡ (has found.old.items x || lent_as a.now x)) }
{
    match a {
        Argument::ByValue(x) => {
            lend(x, found)?;
            Ok(())
        }
        Argument::ByPlace(d) => {
            lend_whole(d, found)?;
            Ok(())
        }
        Argument::ByRecord(d) => {
            lend_whole(d, found)?;
            Ok(())
        }
        Argument::ByOpen(d) => {
            lend_whole(d, found)?;
            Ok(())
        }
    }
}
