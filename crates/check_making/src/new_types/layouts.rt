//! What is known of a record type while its fields are judged (Oberon-07 report, section 6.3).

ghost use Rattle.std.specs.Prelude.{◌≡◌, ℕ, List, IfOk, IfErr, Some, None, slice_get};
ghost use Rattle.ob_judge.specs.Types.{base_layout as judged_base};
ghost use Rattle.check_making.specs.Making.{IsSettled};
ghost use Rattle.check_making.specs.Parts.{JudgesHere};
ghost use Rattle.check_making.specs.new_types.Layouts.{IsBegunFrom, IsCopy, IsBegun, IsNumber, base_number};

use crate::{Declaring, Surroundings};
use check_types::steps::CheckFault;
use check_types::{Layout, TypeRef};
use ob_syntax::types::Base;
use std::alloc::Global;
use table_builder::{blank_layout, capped, counted};

// What is known of a record type that extends this one, and adds nothing yet.
fn extended(alloc: Global, base: &Layout) -> Result<Layout, CheckFault>
    ensures begun { IfOk result (λ l. IsCopy l base.now) }
    ensures memory { IfErr result (λ e. e ≡ CheckFault.Memory) }
{
    let line = Vec::from_slice(alloc, &base.line)?;
    let fields = base.fields.extended(alloc)?;
    Ok(Layout {
        module_number: base.module_number,
        line,
        added: Vec::new(alloc),
        fields,
        cells: capped(base.cells),
        extent: counted(u64::from(base.extent.bytes), base.extent.wide),
    })
}

// The same by its number.
fn extended_at(alloc: Global, layouts: &[Layout], r: u32) -> Result<Layout, CheckFault>
    ensures begun { IfOk result (λ l. IsBegunFrom l (slice_get layouts.now r)) }
    ensures memory { IfErr result (λ e. e ≡ CheckFault.Memory) }
{
    match layouts.get(r as usize) {
        Some(base) => extended(alloc, base),
        None => Ok(blank_layout(alloc)),
    }
}

// The record type that a base names: 42 where it names none.
fn base_record(state: &Declaring, round: &Surroundings, tree: &Base) -> Result<u32, CheckFault>
    requires { IsSettled round.now state.now }
    ensures { JudgesHere IsNumber round.now state.now (base_number round.now.source.now tree.now) result }
{
    let of = state.type_at(round, 42, &tree.name)?;
    match of {
        TypeRef::Record(r) => Ok(r),
        _ => Err(round.source.fault(42, tree.name.name)),
    }
}

// What is known of a record type that extends this base: 42 at a base of the last level.
fn with_base(state: &Declaring, round: &Surroundings, tree: &Base) -> Result<Layout, CheckFault>
    requires { IsSettled round.now state.now }
    ensures { JudgesHere (IsBegun state.now) round.now state.now (judged_base round.now.source.now (Some tree.now)) result }
{
    let r = base_record(state, round, tree)?;
    let layout = extended_at(round.alloc, &state.types.table.layouts, r)?;
    if layout.line.len() > 15 {
        return Err(round.source.fault(42, tree.name.name));
    }
    Ok(layout)
}

/// What is known of a record type that extends its base, if it has one.
pub fn begun(
    state: &Declaring,
    round: &Surroundings,
    tree: &Option<Base>,
) -> Result<Layout, CheckFault>
    requires { IsSettled round.now state.now }
    ensures { JudgesHere (IsBegun state.now) round.now state.now (judged_base round.now.source.now tree.now) result }
{
    match tree {
        None => Ok(blank_layout(round.alloc)),
        Some(tree) => with_base(state, round, tree),
    }
}
