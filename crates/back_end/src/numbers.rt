//! Numbers of operations have 64 bits, and kinds of traps 16, as their types say: each is read once, so that clauses may say so
//! of the whole flow.

ghost use Rattle.std.specs.Prelude.{◌≡◌, true};
ghost use Rattle.std.specs.List.{list_all};
ghost use Rattle.link_blocks.specs.Fits.{trap_fits};
ghost use Rattle.back_end.specs.Numbers.{has_number, lirs_number, node_numbers};

use block_runs::{Code, End};
use lir_core::{Lir, Node};

/// All operations and ends of nodes.
pub fn read_nodes(nodes: &[Node])
    ensures { node_numbers nodes.now ≡ true }
{
    for node in nodes {
        read_kind(&node.end);
        read_lirs(node.lirs.as_slice());
    }
}

fn read_kind(end: &End)
    ensures { trap_fits end.now ≡ true }
{
    if let End::Trap(kind) = end {
        let _kind: u16 = *kind;
    }
}

fn read_lirs(lirs: &[Lir])
    ensures { lirs_number lirs.now ≡ true }
{
    for lir in lirs {
        read_number(lir.template);
    }
}

fn read_number(code: Code)
    ensures { has_number code ≡ true }
{
    if let Code::Const(number) = code {
        let _number: u64 = number;
    }
}
