//! The slots of a flow.

ghost use Rattle.std.specs.Prelude.{◌≡◌, map};
ghost use Rattle.lir_core.specs.Flows.{operation_of, code_nodes};
ghost use Rattle.lir_core.specs.Lines.{slots_used, slots_in, slots_of};

use crate::walk::is_call;
use lir_core::{Lir, Node, is_aimed};

// How many slots a call uses; 0 for what isn't one.
fn slots_used(op: &Lir) -> usize
    ensures { result ≡ slots_used (operation_of op.now) }
{
    if !is_call(op.template) {
        return 0;
    }
    let uses = op.uses.as_slice();
    if !is_aimed(op.template) {
        return uses.len().saturating_sub(4);
    }
    match uses {
        [] => 0,
        [_aim, arguments @ ..] => arguments.len().saturating_sub(4),
    }
}

fn slots_in(lirs: &[Lir]) -> usize
    ensures { result ≡ slots_in (map operation_of lirs.now) }
{
    let mut most: usize = 0;
    let mut at = lirs.len();
    while at > 0 {
        at -= 1;
        most = slots_used(&lirs[at]).max(most);
    }
    most
}

/// The greatest number of slots that some call uses.
pub(crate) fn slots_of(nodes: &[Node]) -> usize
    ensures { result ≡ slots_of (code_nodes nodes.now) }
{
    let mut most: usize = 0;
    let mut at = nodes.len();
    while at > 0 {
        at -= 1;
        most = slots_in(nodes[at].lirs.as_slice()).max(most);
    }
    most
}
