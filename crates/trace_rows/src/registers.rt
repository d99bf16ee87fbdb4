//! Which value each register has behind a line.

ghost use Rattle.std.specs.Prelude.{◌≡◌, ◌++◌, None, map, slice_get, slice_set, flat_map, OnOk, IfOk};
ghost use Rattle.block_runs.specs.Valid.{is_call};
ghost use Rattle.lir_core.specs.Spots.{get};
ghost use Rattle.lir_core.specs.Walks.{without};
ghost use Rattle.lir_core.specs.Flows.{operation_of};
ghost use Rattle.lir_core.specs.Lines.{names};
ghost use Rattle.trace_rows.specs.Registers.{left_by, made, def_register, performed, held_at, given, moved, behind, names_of, register_at, register_to, result_register, named_by, hits, step_hits};

use lir_core::{Line, Lir, Move, Place, RegisterList, Template};
use parallel_move::Step;
use std::alloc::{AllocError, Global};

// What the register of a number has; nothing where there is none.
fn value_in(regs: &[Option<u32>], at: usize) -> Option<u32>
    ensures { result ≡ get regs.now at }
{
    match regs.get(at) {
        Some(held) => *held,
        None => None,
    }
}

// Writes a register, if there is such a one.
#[tactic(auto, using(std::proofs::lemmas::List::set_past))]
fn write(regs: &mut [Option<u32>], at: usize, held: Option<u32>)
    ensures { regs.new ≡ slice_set regs.old at held }
{
    if at >= regs.len() {
        return;
    }
    regs[at] = held;
}

// Empties all.
fn clear_all(regs: &mut [Option<u32>])
    ensures { regs.new ≡ map (λ x. None) regs.old }
{
    for held in regs.iter_mut() {
        *held = None;
    }
}

// What is left without a value.
fn without(held: Option<u32>, value: u32) -> Option<u32>
    ensures { result ≡ without value held }
{
    match held {
        Some(v) if v == value => None,
        other => other,
    }
}

// Empties what has a value.
fn clear(regs: &mut [Option<u32>], value: u32)
    ensures { regs.new ≡ map (without value) regs.old }
{
    for held in regs.iter_mut() {
        *held = without(*held, value);
    }
}

// Whether an operation leaves nothing in registers.
fn is_call(code: Template) -> bool
    ensures { result ≡ is_call code }
{
    match code {
        Template::Call(_)
        | Template::CallAt
        | Template::Copy
        | Template::Zero
        | Template::Compare
        | Template::Svc(_) => true,
        _ => false,
    }
}

// Behind an operation, before it makes a value.
fn leave(regs: &mut [Option<u32>], call: bool)
    ensures { regs.new ≡ left_by call regs.old }
{
    if call {
        clear_all(regs);
    }
}

// A register has the value that is made, and no other does.
fn make(regs: &mut [Option<u32>], reg: usize, def: Option<u32>)
    ensures { regs.new ≡ made reg def regs.old }
{
    let Some(value) = def else {
        return;
    };
    clear(regs, value);
    write(regs, reg, Some(value));
}

// The register of an operation's value, where these registers are named for what comes.
fn def_register(op: &Lir, named: &[u8]) -> usize
    ensures { result ≡ def_register op.now named.now }
{
    if is_call(op.template) {
        return 0;
    }
    match named.get(op.uses.len()) {
        Some(reg) => *reg as usize,
        None => 0,
    }
}

fn perform(regs: &mut [Option<u32>], named: &[u8], ops: &[Lir], index: u32)
    ensures { regs.new ≡ performed named.now (slice_get ops.now index) regs.old }
{
    let Some(op) = ops.get(index as usize) else {
        return;
    };
    leave(regs, is_call(op.template));
    make(regs, def_register(op, named), op.def);
}

fn held_at(regs: &[Option<u32>], place: Place) -> Option<u32>
    ensures { result ≡ held_at regs.now place }
{
    match place {
        Place::Reg(reg) => value_in(regs, reg as usize),
        Place::Home(value) => Some(value),
        Place::Out(_) => None,
    }
}

fn give(regs: &mut [Option<u32>], place: Place, held: Option<u32>)
    ensures { regs.new ≡ given place held regs.old }
{
    match place {
        Place::Reg(reg) => write(regs, reg as usize, held),
        Place::Home(_) | Place::Out(_) => {}
    }
}

// Makes moves, all at once: the last first, from what registers had.
fn make_moves(alloc: Global, regs: &mut [Option<u32>], moves: &[Move]) -> Result<(), AllocError>
    ensures { OnOk result (regs.new ≡ moved regs.old moves.now) }
{
    let old = Vec::from_slice(alloc, regs)?;
    let mut at = moves.len();
    while at > 0 {
        at -= 1;
        give(regs, moves[at].to, held_at(old.as_slice(), moves[at].from));
    }
    Ok(())
}

fn take_result(regs: &mut [Option<u32>], reg: u8)
    ensures { regs.new ≡ slice_set (slice_set regs.old reg (get regs.old 0)) 0 None }
{
    let held = value_in(regs, 0);
    write(regs, reg as usize, held);
    write(regs, 0, None);
}

/// The registers go on behind a line.
pub(crate) fn go_behind(
    alloc: Global,
    regs: &mut [Option<u32>],
    ops: &[Lir],
    named: &[u8],
    line: &Line,
) -> Result<(), AllocError>
    ensures { OnOk result (regs.new ≡ behind ops.now named.now line.now regs.old) }
{
    match line {
        Line::Lir(index) => perform(regs, named, ops, *index),
        Line::Load { reg, value } => write(regs, *reg as usize, Some(*value)),
        Line::Moves(moves) => make_moves(alloc, regs, moves.as_slice())?,
        Line::Result(reg) => take_result(regs, *reg),
        Line::Store { .. } | Line::Target(_) => {}
    }
    Ok(())
}

// How many registers are named for an operation.
fn names(op: &Lir) -> usize
    ensures { result ≡ names (operation_of op.now) }
{
    if is_call(op.template) {
        return 0;
    }
    let uses = op.uses.as_slice().len();
    match op.def {
        Some(_) => uses + 1,
        None => uses,
    }
}

/// How many registers are named for the operation of a number.
pub(crate) fn names_of(ops: &[Lir], index: u32) -> usize
    ensures { result ≡ names_of (slice_get ops.now index) }
{
    match ops.get(index as usize) {
        Some(op) => names(op),
        None => 0,
    }
}

fn push_place(list: &mut RegisterList, place: Place) -> Result<(), AllocError>
    ensures { OnOk result (list.new ≡ list.old ++ register_at place) }
{
    match place {
        Place::Reg(reg) => list.push(reg),
        Place::Home(_) | Place::Out(_) => Ok(()),
    }
}

fn destinations(alloc: Global, moves: &[Move]) -> Result<RegisterList, AllocError>
    ensures { IfOk result (λ list. list ≡ flat_map register_to moves.now) }
{
    let mut list = RegisterList::new(alloc);
    for next in moves {
        push_place(&mut list, next.to)?;
    }
    Ok(list)
}

fn one(alloc: Global, place: Place) -> Result<RegisterList, AllocError>
    ensures { IfOk result (λ list. list ≡ register_at place) }
{
    let mut list = RegisterList::new(alloc);
    push_place(&mut list, place)?;
    Ok(list)
}

fn result_register(alloc: Global, def: Option<u32>) -> Result<RegisterList, AllocError>
    ensures { IfOk result (λ list. list ≡ result_register def) }
{
    match def {
        Some(_) => one(alloc, Place::Reg(0)),
        None => Ok(RegisterList::new(alloc)),
    }
}

fn named_by(
    alloc: Global,
    named: &[u8],
    ops: &[Lir],
    index: u32,
) -> Result<RegisterList, AllocError>
    ensures { IfOk result (λ list. list ≡ named_by named.now (slice_get ops.now index)) }
{
    let Some(op) = ops.get(index as usize) else {
        return Ok(RegisterList::new(alloc));
    };
    if is_call(op.template) {
        return result_register(alloc, op.def);
    }
    let count = names(op).min(named.len());
    RegisterList::from_slice(alloc, &named[..count])
}

/// The registers that a line names.
pub(crate) fn hits(
    alloc: Global,
    ops: &[Lir],
    named: &[u8],
    line: &Line,
) -> Result<RegisterList, AllocError>
    ensures { IfOk result (λ list. list ≡ hits ops.now named.now line.now) }
{
    match line {
        Line::Lir(index) => named_by(alloc, named, ops, *index),
        Line::Store { reg, .. } | Line::Load { reg, .. } | Line::Result(reg) => one(
            alloc,
            Place::Reg(*reg),
        ),
        Line::Moves(moves) => destinations(alloc, moves.as_slice()),
        Line::Target(place) => one(alloc, *place),
    }
}

/// The registers that a step of an edge names.
pub(crate) fn step_hits(alloc: Global, step: Step) -> Result<RegisterList, AllocError>
    ensures { IfOk result (λ list. list ≡ step_hits step) }
{
    match step {
        Step::Copy { to, .. } | Step::Restore(to) => one(alloc, to),
        Step::Save(from) => one(alloc, from),
    }
}
