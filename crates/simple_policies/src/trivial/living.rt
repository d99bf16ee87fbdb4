//! What is live into a node.

ghost use Rattle.std.specs.Prelude.{◌≡◌, ◌++◌, map, filter, IfOk, OnOk};
ghost use Rattle.lir_core.specs.Rows.{has_bit, live_into};
ghost use Rattle.trace_needs.specs.Tables.{one_if};
ghost use Rattle.linear_scan.specs.Starts.{if_live};

use lir_core::{Items, LiveSets, next_live};
use std::alloc::{AllocError, Global};

fn if_live(live: &LiveSets, node: u32, content: Option<u32>) -> Option<u32>
    ensures { result ≡ if_live (has_bit live.now node) content }
{
    match content {
        Some(value) if live.has(node, value) => Some(value),
        _ => None,
    }
}

/// Of registers those whose values are live; the others are empty.
pub(crate) fn live_registers(
    alloc: Global,
    live: &LiveSets,
    node: u32,
    regs: &[Option<u32>],
) -> Result<Items<Option<u32>>, AllocError>
    ensures { IfOk result (λ row. row ≡ map (if_live (has_bit live.now node)) regs.now) }
{
    let mut row = Items::new(alloc);
    for content in regs {
        row.push(if_live(live, node, *content))?;
    }
    Ok(row)
}

/// What is live of some values.
pub(crate) fn live_homes(
    alloc: Global,
    live: &LiveSets,
    node: u32,
    homed: &[u32],
) -> Result<Items<u32>, AllocError>
    ensures { IfOk result (λ values. values ≡ filter (has_bit live.now node) homed.now) }
{
    let mut values = Items::new(alloc);
    for value in homed {
        push_live(&mut values, live, node, *value)?;
    }
    Ok(values)
}

/// What is live of so many values.
pub(crate) fn all_live(
    alloc: Global,
    live: &LiveSets,
    node: u32,
    count: u32,
) -> Result<Items<u32>, AllocError>
    ensures { IfOk result (λ values. values ≡ live_into count live.now node) }
{
    let mut values = Items::new(alloc);
    let mut from = 0;
    while let Some(value) = next_live(live, node, from, count) {
        values.push(value)?;
        from = value + 1;
    }
    Ok(values)
}

fn push_live(
    values: &mut Items<u32>,
    live: &LiveSets,
    node: u32,
    value: u32,
) -> Result<(), AllocError>
    ensures { OnOk result (values.new ≡ values.old ++ one_if (has_bit live.now node value) value) }
{
    if live.has(node, value) {
        values.push(value)?;
    }
    Ok(())
}
