//! The blocks of nodes.

ghost use Rattle.std.specs.Prelude.{◌≡◌, ℕ, ◌-◌, [], ◌∷◌, ◌++◌, map, drop, length, IsTrue, true, OnOk, IfOk};
ghost use Rattle.block_runs.specs.Valid.{is_call};
ghost use Rattle.lir_core.specs.Flows.{operation_of, code_node};
ghost use Rattle.lir_core.specs.Lines.{names, is_aimed, slots_used, slots_in, slots_of};
ghost use Rattle.lir_core.specs.Flows.{code_nodes};
ghost use Rattle.link_layout.specs.Spots as layout;
ghost use Rattle.link_blocks.specs.Fits.{node_fits, register_in, number_fits};
ghost use Rattle.link_blocks.specs.Plans.{cell_in, block_in, plain_operation, plain_end};
ghost use Rattle.link_blocks.specs.Ahead.{block_ahead, behind_block, cells_ahead, AreAllDistinct};

use crate::fits::register_in;
use crate::plans::{Block, Cell};
use crate::reading::{push_body, push_edges};
use boundary_resolve::CodeLine;
use items::Items;
use link_layout::Copy;
use link_words::Registers;
use lir_core::{Leave, Lir, Node, Numbers, Template};
use outside::Memory;
use std::alloc::Global;

/// The block of a node with the registers named for it, whose lines stand from a line on, and the line behind them.
pub(crate) fn block_of(
    alloc: Global,
    node: &Node,
    row: &[u8],
    lines: &[CodeLine],
    from: usize,
) -> Result<(Block, usize), Memory>
    requires { node_fits node.now ≡ true }
    ensures block { AreAllDistinct lines.now → IfOk result (λ made. block_in made.0 ≡ block_ahead (code_node node.now) row.now (drop from lines.now)) }
    ensures behind { IfOk result (λ made. drop made.1 lines.now ≡ behind_block (code_node node.now) (drop from lines.now)) }
{
    let mut copies = Vec::new(alloc);
    let mut at = push_edges(&mut copies, lines, from)?;
    let mut cells = Vec::with_capacity(alloc, node.lirs.len())?;
    let mut named = row;
    for lir in node.lirs.as_slice() {
        at = push_body(alloc, &mut copies, lines, at)?;
        cells.push(cell(copies, lir, named))?;
        copies = Vec::new(alloc);
        named = behind(named, names(lir));
    }
    at = push_body(alloc, &mut copies, lines, at)?;
    at = push_edges(&mut copies, lines, at)?;
    let block = Block {
        cells: Items::from_vec(cells),
        copies: Items::from_vec(copies),
        end: without_arguments(alloc, &node.end),
        a: register_in(named, 0),
        b: register_in(named, 1),
    };
    Ok((block, next(lines, at)))
}

/// The line behind a line, or the end of all.
fn next(lines: &[CodeLine], at: usize) -> usize
    ensures { drop result lines.now ≡ drop 1 (drop at lines.now) }
{
    if at < lines.len() { at + 1 } else { at }
}

/// An operation with the copies before it.
fn cell(copies: Vec<Copy>, lir: &Lir, named: &[u8]) -> Cell
    requires { IsTrue (number_fits lir.now.template) }
    ensures { cell_in result ≡ record {
      copies = map layout.copy_of copies.items;
      op = plain_operation lir.now.template;
      named = register_in named.now 0 ∷ register_in named.now 1 ∷ register_in named.now 2 ∷ register_in named.now (length lir.now.uses) ∷ [];
    } }
{
    let registers = Registers {
        a: register_in(named, 0),
        b: register_in(named, 1),
        c: register_in(named, 2),
        d: register_in(named, lir.uses.as_slice().len()),
    };
    Cell {
        copies: Items::from_vec(copies),
        code: lir.template,
        registers,
    }
}

/// The registers behind the first so many.
fn behind(named: &[u8], count: usize) -> &[u8]
    ensures { result.now ≡ drop count named.now }
{
    &named[count.min(named.len())..]
}

/// An end as it is, but for a jump's arguments. Takes no memory.
fn without_arguments(alloc: Global, end: &Leave) -> Leave
    ensures { result ≡ plain_end end.now }
{
    match end {
        Leave::Jump { to, .. } => Leave::Jump {
            to: *to,
            args: Numbers::new(alloc),
        },
        Leave::Branch {
            cond,
            a,
            b,
            yes,
            no,
        } => Leave::Branch {
            cond: *cond,
            a: *a,
            b: *b,
            yes: *yes,
            no: *no,
        },
        Leave::Nonzero { a, yes, no } => Leave::Nonzero {
            a: *a,
            yes: *yes,
            no: *no,
        },
        Leave::Return(value) => Leave::Return(*value),
        Leave::Trap(kind) => Leave::Trap(*kind),
    }
}

fn is_call(code: Template) -> bool
    ensures { result ≡ is_call code }
{
    match code {
        Template::Call(_) => true,
        Template::CallAt => true,
        Template::Copy => true,
        Template::Zero => true,
        Template::Compare => true,
        Template::Svc(_) => true,
        _ => false,
    }
}

/// How many registers are named for an operation.
fn names(lir: &Lir) -> usize
    ensures { result ≡ names (operation_of lir.now) }
{
    if is_call(lir.template) {
        return 0;
    }
    let uses = lir.uses.as_slice().len();
    match lir.def {
        None => uses,
        Some(_) => uses + 1,
    }
}

/// How many slots the arguments of an operation take.
fn slots_used(lir: &Lir) -> usize
    ensures { result ≡ slots_used (operation_of lir.now) }
{
    if !is_call(lir.template) {
        return 0;
    }
    let uses = lir.uses.as_slice().len();
    match lir.template {
        Template::CallAt => uses.saturating_sub(1).saturating_sub(4),
        _ => uses.saturating_sub(4),
    }
}

fn slots_in(lirs: &[Lir]) -> usize
    ensures { result ≡ slots_in (map operation_of lirs.now) }
{
    let mut slots = 0;
    let mut i = lirs.len();
    while i > 0 {
        i -= 1;
        slots = slots_used(&lirs[i]).max(slots);
    }
    slots
}

/// The most slots that the arguments of some call take.
pub(crate) fn slots_of(nodes: &[Node]) -> usize
    ensures { result ≡ slots_of (code_nodes nodes.now) }
{
    let mut slots = 0;
    let mut i = nodes.len();
    while i > 0 {
        i -= 1;
        slots = slots_in(nodes[i].lirs.as_slice()).max(slots);
    }
    slots
}
