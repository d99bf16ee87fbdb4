//! The hints for the children of a trace.

ghost use Rattle.std.specs.Prelude.{◌≡◌, ◌<◌, length, IfOk};
ghost use Rattle.pool_core.specs.Tree.{children, IsTree};
ghost use Rattle.trace_pool.specs.Sits.{HintsFit};

use pool_core::{ChildIndex, Memory, Work};
use std::alloc::Global;

// The children of a trace with this final result, in rising order, each with its hint.
pub(crate) fn hints_of<W: Work>(
    alloc: Global,
    index: &ChildIndex,
    work: &W,
    trace: u32,
    done: &W::Done,
) -> Result<Vec<(u32, W::Hint)>, Memory>
    requires index { index.now ≡ W.parents work.now }
    requires trace { trace < length (W.parents work.now) }
    requires result { W.is_final work.now trace done.now }
    ensures { IfOk result (λ v. HintsFit (W.is_hint work.now) (children (W.parents work.now) trace) v.items) }
{
    let mut hints = Vec::new(alloc);
    let mut next = index.first_child(trace);
    while let Some(child) = next {
        let hint = work.hint(alloc, done, child)?;
        hints.push((child, hint))?;
        next = index.next_sibling(child);
    }
    Ok(hints)
}
