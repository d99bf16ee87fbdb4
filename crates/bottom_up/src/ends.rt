//! The end of a node.

ghost use Rattle.std.specs.Prelude.{◌≡◌, ◌≤◌, ◌++◌, [], ◌∷◌, length, map, None, IfOk, OnOk, slice_get};
ghost use Rattle.lir_core.specs.Spots.{get};
ghost use Rattle.block_runs.specs.Blocks.{successors};
ghost use Rattle.trace_needs.specs.Needs.{is_next, live_off};
ghost use Rattle.loc_state.specs.Homed.{all_inserted};
ghost use Rattle.loc_back.specs.Steps.{no_param};
ghost use Rattle.bottom_up.specs.Policy.{is_empty};
ghost use Rattle.bottom_up.specs.Ends.{param_register, argument_register, given, without_register, not_given, given_at, passed_home};

use lir_core::{Leave, LiveSets};
use loc_back::{leave_params, seat_new_one};
use loc_state::{has_register, register_of};
use std::alloc::{AllocError, Global};
use value_sets::ValueSet;

/// The trace's next node, if there is one, its parameters, and the registers at its start.
#[derive(Clone, Copy)]
pub(crate) struct Following<'a> {
    pub(crate) node: Option<u32>,
    pub(crate) params: &'a [u32],
    pub(crate) regs: &'a [Option<u32>],
}

/// The registers that an end's arguments are given, and those of them that are homed: rooms that are kept from end to end.
#[derive(Drop)]
pub(crate) struct PassedOn {
    pub(crate) args: Vec<Option<u8>>,
    pub(crate) homes: Vec<u32>,
}

impl PassedOn {
    /// Nothing; takes no memory.
    pub(crate) fn new(alloc: Global) -> PassedOn {
        PassedOn {
            args: Vec::new(alloc),
            homes: Vec::new(alloc),
        }
    }

    /// What an end passes on by its arguments.
    pub(crate) fn pass(
        &mut self,
        alloc: Global,
        next: &Following,
        end: &Leave,
    ) -> Result<(), AllocError>
        requires { length next.now.regs.now ≤ 16 }
        ensures args { OnOk result (self.new.args.items ≡ given_at next.now.node next.now.params.now next.now.regs.now end.now) }
        ensures homes { OnOk result (self.new.homes.items ≡ passed_home next.now.node next.now.params.now next.now.regs.now end.now) }
    {
        self.clear();
        match end {
            Leave::Jump { to, args } => {
                if args.as_slice().is_empty() {
                    Ok(())
                } else if is_next(next.node, *to) {
                    self.to_next(alloc, next, args.as_slice())
                } else {
                    self.elsewhere(args.as_slice())
                }
            }
            Leave::Branch { .. } => Ok(()),
            Leave::Nonzero { .. } => Ok(()),
            Leave::Return(_) => Ok(()),
            Leave::Trap(_) => Ok(()),
        }
    }

    fn clear(&mut self)
        ensures args { self.new.args.items ≡ [] }
        ensures homes { self.new.homes.items ≡ [] }
    {
        self.args.clear();
        self.homes.clear();
    }

    // All arguments of a jump out of the trace are homed.
    fn elsewhere(&mut self, values: &[u32]) -> Result<(), AllocError>
        requires args { self.old.args.items ≡ [] }
        requires homes { self.old.homes.items ≡ [] }
        ensures args { OnOk result (self.new.args.items ≡ map (λ a. None) values.now) }
        ensures homes { OnOk result (self.new.homes.items ≡ values.now) }
    {
        for value in values {
            self.args.push(None)?;
            self.homes.push(*value)?;
        }
        Ok(())
    }

    // Each argument of a jump to the trace's next node takes its parameter's register where that is empty, or is homed.
    fn to_next(&mut self, alloc: Global, next: &Following, values: &[u32]) -> Result<(), AllocError>
        requires few { length next.now.regs.now ≤ 16 }
        requires args { self.old.args.items ≡ [] }
        requires homes { self.old.homes.items ≡ [] }
        ensures args { OnOk result (self.new.args.items ≡ given next.now.regs.now next.now.params.now 0 values.now (map (no_param next.now.params.now) next.now.regs.now)) }
        ensures homes { OnOk result (self.new.homes.items ≡ not_given next.now.regs.now next.now.params.now 0 values.now (map (no_param next.now.params.now) next.now.regs.now)) }
    {
        let mut regs = leave_params(alloc, next.regs, next.params)?;
        for (i, value) in values.iter().enumerate() {
            let reg = argument_register(next.regs, param_at(next.params, i), regs.as_slice());
            self.args.push(reg)?;
            add_without(&mut self.homes, *value, reg, regs.as_slice())?;
            seat_new_one(&mut regs, *value, reg);
        }
        Ok(())
    }
}

fn param_at(params: &[u32], index: usize) -> Option<u32>
    ensures { result ≡ slice_get params.now index }
{
    let param = params.get(index)?;
    Some(*param)
}

fn argument_register(behind: &[Option<u32>], param: Option<u32>, regs: &[Option<u32>]) -> Option<u8>
    requires { length behind.now ≤ 16 }
    ensures { result ≡ argument_register behind.now param regs.now }
{
    param_register(behind, param?, regs)
}

fn param_register(behind: &[Option<u32>], param: u32, regs: &[Option<u32>]) -> Option<u8>
    requires { length behind.now ≤ 16 }
    ensures { result ≡ param_register behind.now param regs.now }
{
    if has_register(behind, param) {
        let reg = register_of(behind, param);
        if is_empty(regs, reg) {
            return Some(reg);
        }
    }
    None
}

fn is_empty(regs: &[Option<u32>], reg: u8) -> bool
    ensures { result ≡ is_empty (get regs.now reg) }
{
    match regs.get(reg as usize) {
        Some(content) => content.is_none(),
        None => true,
    }
}

// An argument that is in no register and is given none is homed.
fn add_without(
    homes: &mut Vec<u32>,
    value: u32,
    reg: Option<u8>,
    regs: &[Option<u32>],
) -> Result<(), AllocError>
    ensures { OnOk result (homes.new.items ≡ homes.old.items ++ without_register value reg regs.now) }
{
    if has_register(regs, value) || reg.is_some() {
        return Ok(());
    }
    homes.push(value)?;
    Ok(())
}

/// What is live into nodes to which an end leads out of the trace is homed.
pub(crate) fn home_off(
    homed: &mut ValueSet,
    live: &LiveSets,
    values: u32,
    next: Option<u32>,
    end: &Leave,
) -> Result<(), AllocError>
    ensures { OnOk result (homed.new ≡ all_inserted (live_off values live.now next (successors end.now)) homed.old) }
{
    match end {
        Leave::Jump { to, .. } => home_unless_next(homed, live, values, next, *to),
        Leave::Branch { yes, no, .. } => home_both(homed, live, values, next, *yes, *no),
        Leave::Nonzero { yes, no, .. } => home_both(homed, live, values, next, *yes, *no),
        Leave::Return(_) => Ok(()),
        Leave::Trap(_) => Ok(()),
    }
}

#[tactic(auto, using(loc_state::proofs::Homing::inserted_append))]
fn home_both(
    homed: &mut ValueSet,
    live: &LiveSets,
    values: u32,
    next: Option<u32>,
    yes: u32,
    no: u32,
) -> Result<(), AllocError>
    ensures { OnOk result (homed.new ≡ all_inserted (live_off values live.now next (yes ∷ no ∷ [])) homed.old) }
{
    home_unless_next(homed, live, values, next, yes)?;
    home_unless_next(homed, live, values, next, no)
}

fn home_unless_next(
    homed: &mut ValueSet,
    live: &LiveSets,
    values: u32,
    next: Option<u32>,
    node: u32,
) -> Result<(), AllocError>
    ensures { OnOk result (homed.new ≡ all_inserted (live_off values live.now next (node ∷ [])) homed.old) }
{
    if is_next(next, node) {
        return Ok(());
    }
    homed.insert_live(live, node, values)
}

fn is_next(next: Option<u32>, node: u32) -> bool
    ensures { result ≡ is_next next node }
{
    match next {
        Some(next) => next == node,
        None => false,
    }
}
