//! The lines of a node.

ghost use Rattle.std.specs.Prelude.{◌≡◌, ℕ, ◌++◌, ◌∷◌, [], drop, length, IfOk, OnOk};
ghost use Rattle.block_runs.specs.Live.{has};
ghost use Rattle.lir_core.specs.Lines.{end_reads};
ghost use Rattle.simple_policies.specs.plain.Plain.{index_of, with_load, load_of, loads, load_regs, argument_moves, aiming, passing, call_lines, stores, def_regs, lir_lines, lir_regs, lirs_lines, lirs_regs, node_lines, node_regs};

use lir_core::{Items, Leave, Line, Lir, Move, Node, Place, argument_place, is_aimed};
use outside::Memory;
use std::alloc::{AllocError, Global};
use std::mem::replace;

/// The lines of a node so far, and the registers that are named for its operations and its end. The memory for the registers,
/// and for the values that an operation or an end has loaded, is used again from node to node.
#[derive(Drop)]
pub(crate) struct Written {
    lines: Vec<Line>,
    pub(crate) regs: Vec<u8>,
    loaded: Vec<u32>,
}

impl Written {
    /// No lines and no registers; takes no memory.
    pub(crate) fn new(alloc: Global) -> Written {
        Written {
            lines: Vec::new(alloc),
            regs: Vec::new(alloc),
            loaded: Vec::new(alloc),
        }
    }

    /// The lines of a node; its registers are there behind.
    pub(crate) fn write(&mut self, alloc: Global, node: &Node) -> Result<Vec<Line>, Memory>
        ensures lines { IfOk result (λ lines. lines.items ≡ node_lines node.now) }
        ensures regs { OnOk result (self.new.regs.items ≡ node_regs node.now) }
    {
        self.lines = Vec::with_capacity(alloc, most_lines(node))?;
        self.regs.clear();
        for (i, lir) in node.lirs.as_slice().iter().enumerate() {
            let Ok(index) = u32::try_from(i) else {
                return Err(Memory);
            };
            self.push_operation(alloc, index, lir)?;
        }
        self.push_end(&node.end)?;
        Ok(replace(&mut self.lines, Vec::new(alloc)))
    }

    fn push_operation(&mut self, alloc: Global, index: u32, lir: &Lir) -> Result<(), Memory>
        ensures lines { OnOk result (self.new.lines.items ≡ self.old.lines.items ++ lir_lines index lir.now) }
        ensures regs { OnOk result (self.new.regs.items ≡ self.old.regs.items ++ lir_regs lir.now) }
    {
        let uses = lir.uses.as_slice();
        if lir.call {
            self.push_call(alloc, is_aimed(lir.template), uses)?;
            self.lines.push(Line::Lir(index))?;
            self.push_store(lir.def)?;
            return Ok(());
        }
        self.push_loads(uses)?;
        self.lines.push(Line::Lir(index))?;
        if lir.def.is_some() {
            self.regs.push(0)?;
        }
        self.push_store(lir.def)?;
        Ok(())
    }

    fn push_end(&mut self, end: &Leave) -> Result<(), Memory>
        ensures lines { OnOk result (self.new.lines.items ≡ self.old.lines.items ++ loads [] (end_reads end.now)) }
        ensures regs { OnOk result (self.new.regs.items ≡ self.old.regs.items ++ load_regs [] (end_reads end.now)) }
    {
        match end {
            Leave::Branch { a, b, .. } => self.push_two(*a, *b),
            Leave::Nonzero { a, .. } | Leave::Return(Some(a)) => self.push_one(*a),
            Leave::Jump { .. } | Leave::Return(None) | Leave::Trap(_) => Ok(()),
        }
    }

    // What is made is made in X0.
    fn push_store(&mut self, def: Option<u32>) -> Result<(), AllocError>
        ensures lines { OnOk result (self.new.lines.items ≡ self.old.lines.items ++ stores def) }
        ensures regs { self.new.regs ≡ self.old.regs }
    {
        if let Some(value) = def {
            self.lines.push(Line::Store { reg: 0, value })?;
        }
        Ok(())
    }

    // Most operations read one value or two.
    fn push_loads(&mut self, values: &[u32]) -> Result<(), Memory>
        ensures lines { OnOk result (self.new.lines.items ≡ self.old.lines.items ++ loads [] values.now) }
        ensures regs { OnOk result (self.new.regs.items ≡ self.old.regs.items ++ load_regs [] values.now) }
    {
        match values.len() {
            0 => Ok(()),
            1 => self.push_one(values[0]),
            2 => self.push_two(values[0], values[1]),
            _ => self.push_each(values),
        }
    }

    fn push_one(&mut self, value: u32) -> Result<(), Memory>
        ensures lines { OnOk result (self.new.lines.items ≡ self.old.lines.items ++ loads [] (value ∷ [])) }
        ensures regs { OnOk result (self.new.regs.items ≡ self.old.regs.items ++ load_regs [] (value ∷ [])) }
    {
        self.regs.push(0)?;
        self.lines.push(Line::Load { reg: 0, value })?;
        Ok(())
    }

    fn push_two(&mut self, first: u32, second: u32) -> Result<(), Memory>
        ensures lines { OnOk result (self.new.lines.items ≡ self.old.lines.items ++ loads [] (first ∷ second ∷ [])) }
        ensures regs { OnOk result (self.new.regs.items ≡ self.old.regs.items ++ load_regs [] (first ∷ second ∷ [])) }
    {
        self.push_one(first)?;
        if first == second {
            self.regs.push(0)?;
            return Ok(());
        }
        self.regs.push(1)?;
        self.lines.push(Line::Load {
            reg: 1,
            value: second,
        })?;
        Ok(())
    }

    fn push_each(&mut self, values: &[u32]) -> Result<(), Memory>
        ensures lines { OnOk result (self.new.lines.items ≡ self.old.lines.items ++ loads [] values.now) }
        ensures regs { OnOk result (self.new.regs.items ≡ self.old.regs.items ++ load_regs [] values.now) }
    {
        self.loaded.clear();
        for value in values {
            self.push_load(*value)?;
        }
        Ok(())
    }

    fn push_load(&mut self, value: u32) -> Result<(), Memory>
        ensures lines { OnOk result (self.new.lines.items ≡ self.old.lines.items ++ load_of self.old.loaded.items value) }
        ensures regs { OnOk result (self.new.regs.items ≡ self.old.regs.items ++ index_of self.old.loaded.items value ∷ []) }
        ensures loaded { OnOk result (self.new.loaded.items ≡ with_load self.old.loaded.items value) }
    {
        let index = index_of(self.loaded.as_slice(), value);
        let Ok(reg) = u8::try_from(index) else {
            return Err(Memory);
        };
        self.regs.push(reg)?;
        if index == self.loaded.len() {
            self.lines.push(Line::Load { reg, value })?;
            self.loaded.push(value)?;
        }
        Ok(())
    }

    fn push_call(&mut self, alloc: Global, aimed: bool, values: &[u32]) -> Result<(), Memory>
        ensures lines { OnOk result (self.new.lines.items ≡ self.old.lines.items ++ call_lines aimed values.now) }
        ensures regs { self.new.regs ≡ self.old.regs }
    {
        if !aimed {
            return self.push_arguments(alloc, values);
        }
        match values.split_first() {
            Some((target, arguments)) => {
                self.lines.push(Line::Target(Place::Home(*target)))?;
                self.push_arguments(alloc, arguments)
            }
            None => Ok(()),
        }
    }

    fn push_arguments(&mut self, alloc: Global, values: &[u32]) -> Result<(), Memory>
        ensures lines { OnOk result (self.new.lines.items ≡ self.old.lines.items ++ passing values.now) }
        ensures regs { self.new.regs ≡ self.old.regs }
    {
        if !values.is_empty() {
            let moves = argument_moves(alloc, values)?;
            self.lines.push(Line::Moves(Items::from_vec(moves)))?;
        }
        Ok(())
    }
}

// How many lines a node has at most: each load for itself.
fn most_lines(node: &Node) -> usize {
    let mut count = match &node.end {
        Leave::Branch { .. } => 2usize,
        Leave::Nonzero { .. } | Leave::Return(Some(_)) => 1,
        Leave::Jump { .. } | Leave::Return(None) | Leave::Trap(_) => 0,
    };
    for lir in node.lirs.as_slice() {
        count = count.wrapping_add(most_of(lir));
    }
    count
}

// The same of an operation. A call has a line for its arguments, and one for its target.
fn most_of(lir: &Lir) -> usize {
    let reads = if lir.call {
        lir.uses.len().min(2)
    } else {
        lir.uses.len()
    };
    reads.wrapping_add(2)
}

// The place of a value among some, or how many these are.
fn index_of(values: &[u32], value: u32) -> usize
    ensures { result ≡ index_of values.now value }
{
    for (index, other) in values.iter().enumerate() {
        if *other == value {
            return index;
        }
    }
    values.len()
}

fn argument_moves(alloc: Global, values: &[u32]) -> Result<Vec<Move>, Memory>
    ensures { IfOk result (λ moves. moves.items ≡ argument_moves 0 values.now) }
{
    let mut moves = Vec::with_capacity(alloc, values.len())?;
    for (i, value) in values.iter().enumerate() {
        let Ok(number) = u32::try_from(i) else {
            return Err(Memory);
        };
        moves.push(Move {
            to: argument_place(number),
            from: Place::Home(*value),
        })?;
    }
    Ok(moves)
}
