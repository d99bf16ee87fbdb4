//! The children of each trace, found without a search.

ghost use Rattle.std.specs.Prelude.{◌≡◌, ℕ, ◌+◌, ◌<◌, ◌≤◌, ◌↔◌, List, length, IfOk, IsTrue, Option, Some, None, replicate, slice_get};
ghost use Rattle.pool_core.specs.Tree.{children, IsTree};
ghost use Rattle.pool_core.specs.Chains.{IsIndex, IsIndexFrom};

use std::alloc::{AllocError, Global};
use std::marker::Model;

/// Whether each trace's parent has a number below its own.
pub fn is_tree(parents: &[Option<u32>]) -> bool
    ensures { IsTrue result ↔ IsTree parents.now }
{
    for trace in 0..parents.len() {
        if let Some(parent) = parents[trace] {
            if parent as usize >= trace {
                return false;
            }
        }
    }
    true
}

/// The traces by their parents, with the first child of each and the next child of its parent after each. It is seen
/// as the list of parents.
#[derive(Drop)]
pub struct ChildIndex {
    parents: Vec<Option<u32>>,
    first: Vec<Option<u32>>,
    next: Vec<Option<u32>>,
}

impl Model for ChildIndex {
    ghost Value = { List (Option ℕ) };

    ghost view = { λ c. c.parents.items };

    ghost invariant = { λ c. IsIndex c.parents.items c.first.items c.next.items };
}

impl ChildIndex {
    /// Takes the parent of each trace, whose number is below its own. In time linear in the number of traces.
    pub fn new(alloc: Global, parents: Vec<Option<u32>>) -> Result<ChildIndex, AllocError>
        requires tree { IsTree parents.items }
        requires small { length parents.items ≤ 262144 }
        ensures { IfOk result (λ c. c ≡ parents.items) }
    {
        let count = parents.len();
        let mut first = no_links(alloc, count)?;
        let mut next = no_links(alloc, count)?;
        let mut trace = count;
        while trace > 0 {
            trace -= 1;
            put_first(&parents, &mut first, &mut next, trace);
        }
        Ok(ChildIndex {
            parents,
            first,
            next,
        })
    }

    /// The parent of each trace.
    pub fn parents(&self) -> &[Option<u32>]
        ensures { result.now ≡ self.now }
    {
        self.parents.as_slice()
    }

    /// The lowest child of a trace.
    pub fn first_child(&self, trace: u32) -> Option<u32>
        requires { trace < length self.now }
        ensures { result ≡ slice_get (children self.now trace) 0 }
    {
        self.first[trace as usize]
    }

    /// The next child of the same parent.
    pub fn next_sibling(&self, child: u32) -> Option<u32>
        requires { child < length self.now }
        ensures { (t k : ℕ) → slice_get (children self.now t) k ≡ Some child
            → result ≡ slice_get (children self.now t) (k + 1) }
    {
        self.next[child as usize]
    }
}

// As many places for a number, each empty.
fn no_links(alloc: Global, count: usize) -> Result<Vec<Option<u32>>, AllocError>
    ensures { IfOk result (λ v. v.items ≡ replicate count None) }
{
    let mut links = Vec::with_capacity(alloc, count)?;
    for _ in 0..count {
        links.push(None)?;
    }
    Ok(links)
}

// Puts a trace before the other children of its parent.
fn put_first(
    parents: &[Option<u32>],
    first: &mut [Option<u32>],
    next: &mut [Option<u32>],
    trace: usize,
)
    requires tree { IsTree parents.now }
    requires small { length parents.now ≤ 262144 }
    requires trace { trace < length parents.now }
    requires later { IsIndexFrom (trace + 1) parents.now first.old next.old }
    ensures { IsIndexFrom trace parents.now first.new next.new }
{
    if let Some(parent) = parents[trace] {
        next[trace] = first[parent as usize];
        first[parent as usize] = Some(trace as u32);
    }
}
