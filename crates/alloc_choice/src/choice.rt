//! What is chosen, and by what a trace's result is made.

ghost use Rattle.std.specs.Prelude.{◌≡◌, slice_get};
ghost use Rattle.std.specs.List.{list_any};
ghost use Rattle.linear_scan.specs.Inputs.{lent};
ghost use Rattle.alloc_choice.specs.Choice.{used, is_trivial, is_bare, is_often, freq_of};

use lir_core::{Flow, Leave, Node, Trace};
use trace_build::Builder;

/// How traces are given places.
#[derive(Clone, Copy, PartialEq, Eq, Debug)]
pub enum Policy {
    /// Every value stays in its home.
    Plain,
    /// Linear scan, and the hint alone for trivial traces.
    Linear,
    /// Bottom-up, and the hint alone for trivial traces.
    BottomUp,
    /// Linear scan for traces that run as often as their procedure's entry, bottom-up for the others, and the hint alone
    /// for trivial traces.
    Mixed,
}

/// By what a trace's result is made.
#[derive(Clone, Copy, PartialEq, Eq, Debug)]
pub enum Used {
    Plain,
    Trivial,
    Linear,
    BottomUp,
}

/// A policy, how traces are cut, how many registers there are, 4 to 16, and how many workers, 1 to 64.
#[derive(Clone, Copy, Debug)]
pub struct Choice {
    pub policy: Policy,
    pub builder: Builder,
    pub regs: u8,
    pub jobs: u32,
}

/// By what a trace's result is made. Takes no memory, and time in proportion to the trace's nodes.
pub fn policy_of(choice: &Choice, flow: &Flow, trace: &Trace) -> Used
    ensures { result ≡ used choice.now.policy flow.now.nodes trace.now.nodes }
{
    let nodes = trace.nodes.as_slice();
    match choice.policy {
        Policy::Plain => Used::Plain,
        _ if is_trivial(flow, nodes) => Used::Trivial,
        Policy::Linear => Used::Linear,
        Policy::BottomUp => Used::BottomUp,
        Policy::Mixed if is_often(flow, nodes) => Used::Linear,
        Policy::Mixed => Used::BottomUp,
    }
}

// One node without parameters and operations that ends with a jump.
fn is_trivial(flow: &Flow, nodes: &[u32]) -> bool
    ensures { result ≡ is_trivial flow.now.nodes nodes.now }
{
    match nodes {
        [number] => is_bare(flow.nodes.as_slice().get(*number as usize)),
        _ => false,
    }
}

fn is_bare(node: Option<&Node>) -> bool
    ensures { result ≡ is_bare (lent node.entry) }
{
    match node {
        Some(node) => {
            matches!(node.end, Leave::Jump { .. })
                && node.params.as_slice().is_empty()
                && node.lirs.as_slice().is_empty()
        }
        None => false,
    }
}

// Some node runs at least 2^20 times.
fn is_often(flow: &Flow, nodes: &[u32]) -> bool
    ensures { result ≡ is_often flow.now.nodes nodes.now }
{
    for number in nodes {
        if freq_of(flow, *number) >= 1 << 20 {
            return true;
        }
    }
    false
}

fn freq_of(flow: &Flow, number: u32) -> u64
    ensures { result ≡ freq_of (slice_get flow.now.nodes number) }
{
    match flow.nodes.as_slice().get(number as usize) {
        Some(node) => node.freq,
        None => 0,
    }
}
