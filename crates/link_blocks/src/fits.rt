//! Whether numbers and registers fit the fields of instructions.

ghost use Rattle.std.specs.Prelude.{◌≡◌};
ghost use Rattle.link_blocks.specs.Fits.{number_fits, numbers_fit, registers_fit, node_fits, lirs_fit, trap_fits, row_fits, rows_fit, register_in};

use a64_instr::{Bits, Reg};
use lir_core::{Flow, Leave, Lir, Node, RegisterList, Template, TraceOut};

/// Whether an operation's number fits its instructions: 24 bits of addresses and distances, 12 bits of a level, an argument
/// word up to the 25th, and 16 bits of a service.
pub fn number_fits(code: Template) -> bool
    ensures { result ≡ number_fits code }
{
    match code {
        Template::Global(number) => number < 16_777_216,
        Template::Local(number) => number < 16_777_216,
        Template::Plus(number) => number < 16_777_216,
        Template::Arg(word) => word < 25,
        Template::IsPtr(level) => level < 4096,
        Template::IsTag(level) => level < 4096,
        Template::GuardPtr(level) => level < 4096,
        Template::GuardTag(level) => level < 4096,
        Template::Svc(number) => u32::from(number) < 65_536,
        _ => true,
    }
}

/// Whether the numbers of all operations of a flow fit, and its kinds of traps.
pub fn numbers_fit(flow: &Flow) -> bool
    ensures { result ≡ numbers_fit flow.now }
{
    flow.nodes.as_slice().iter().all(|node| node_fits(node))
}

fn node_fits(node: &Node) -> bool
    ensures { result ≡ node_fits node.now }
{
    let numbers = lirs_fit(node.lirs.as_slice());
    let kind = trap_fits(&node.end);
    kind && numbers
}

fn lirs_fit(lirs: &[Lir]) -> bool
    ensures { result ≡ lirs_fit lirs.now }
{
    lirs.iter().all(|lir| number_fits(lir.template))
}

fn trap_fits(end: &Leave) -> bool
    ensures { result ≡ trap_fits end.now }
{
    match end {
        Leave::Trap(kind) => u32::from(*kind) < 65_536,
        _ => true,
    }
}

/// Whether all registers that results name are below 16.
pub fn registers_fit(outs: &[TraceOut]) -> bool
    ensures { result ≡ registers_fit outs.now }
{
    outs.iter().all(|out| rows_fit(out.regs.as_slice()))
}

fn rows_fit(rows: &[RegisterList]) -> bool
    ensures { result ≡ rows_fit rows.now }
{
    rows.iter().all(|row| row_fits(row.as_slice()))
}

fn row_fits(row: &[u8]) -> bool
    ensures { result ≡ row_fits row.now }
{
    row.iter().all(|register| *register < 16)
}

/// The register that is named there, where it is one below 16; else X0.
pub(crate) fn register_in(named: &[u8], index: usize) -> Reg
    ensures { result ≡ register_in named.now index }
{
    match named.get(index) {
        Some(number) if *number < 16 => Bits::new(u32::from(*number)),
        _ => Bits::new(0),
    }
}
