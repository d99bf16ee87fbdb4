//! The moves of an edge.

ghost use Rattle.std.specs.Prelude.{◌≡◌, ◌<◌, ◌≤◌, ◌++◌, false, length, IfOk, OnOk};
ghost use Rattle.lir_core.specs.Spots.{argument_of, TakesOver};
ghost use Rattle.parallel_move.specs.Steps.{steps_source};
ghost use Rattle.parallel_move.specs.Order.{order_of};
ghost use Rattle.boundary_resolve.specs.Moves.{reg_moves, home_moves, edge_moves, FewRegs, Covers};
ghost use Rattle.boundary_resolve.specs.Before.{IsBefore, HasHomes, HasArguments, HasFew, Rises, argument_before, place_before, homed_before, stays_before, moves_before};

use crate::near::{found_in, register_or_home};
use lir_core::{Move, Place, Places};
use outside::Memory;
use rising_lists::{Finder, is_rising};
use std::alloc::{AllocError, Global};
use std::collections::{BTreeMap, BTreeSet};

/// The moves of an edge from a node's end places to a node's start places, where the edge gives arguments to parameters.
/// Takes n log n for n places, parameters and arguments, where the homed values behind the edge rise.
pub fn edge_moves(
    alloc: Global,
    from: &Places,
    to: &Places,
    params: &[u32],
    args: &[u32],
) -> Result<Vec<Move>, Memory>
    ensures moves { FewRegs from.now → FewRegs to.now → IfOk result (λ moves. moves.items ≡ edge_moves from.now to.now (argument_of params.now args.now)) }
    ensures over { FewRegs from.now → FewRegs to.now → Covers from.now to.now (argument_of params.now args.now)
        → IfOk result (λ moves. TakesOver from.now to.now (argument_of params.now args.now) (steps_source (order_of moves.items))) }
{
    let before = Before::new(alloc, from, params, args)?;
    Ok(moves_to(alloc, &before, to)?)
}

/// The moves to where the next node wants values.
pub(crate) fn moves_to(alloc: Global, before: &Before, to: &Places) -> Result<Vec<Move>, AllocError>
    ensures { HasFew before.now → Rises before.now → FewRegs to.now → IfOk result (λ moves. moves.items ≡ moves_before before.now to.now) }
{
    let mut moves = Vec::new(alloc);
    push_registers(&mut moves, before, to.regs.as_slice())?;
    push_homes(&mut moves, before, to.homed.as_slice())?;
    Ok(moves)
}

/// The most parameters among which is searched for one without a table.
pub(crate) const FEW: usize = 8;

/// Where values are before an edge.
#[derive(Drop)]
pub(crate) struct Before<'a> {
    regs: &'a [Option<u32>],
    homed: &'a [u32],
    /// Whether the homed values rise.
    rises: bool,
    /// The homed values as a set, where they don't rise.
    set: BTreeSet<u32>,
    params: &'a [u32],
    args: &'a [u32],
    /// The arguments by their parameters, where these are more than a few.
    arguments: BTreeMap<u32, u32>,
}

impl<'a> Before<'a> {
    pub(crate) fn new(
        alloc: Global,
        places: &'a Places,
        params: &'a [u32],
        args: &'a [u32],
    ) -> Result<Before<'a>, AllocError>
        ensures { IfOk result (λ before. IsBefore places.now params.now args.now before) }
    {
        let homed = places.homed.as_slice();
        let rises = is_rising(homed);
        Ok(Before {
            regs: places.regs.as_slice(),
            homed,
            rises,
            set: set(alloc, homed, rises)?,
            params,
            args,
            arguments: table(alloc, params, args)?,
        })
    }

    // What a value behind the edge was before it.
    fn argument(&self, value: u32) -> u32
        ensures { result ≡ argument_before self.now value }
    {
        if self.params.len() <= FEW {
            return argument_of(self.params, self.args, value);
        }
        match self.arguments.get(&value) {
            Some(argument) => *argument,
            None => value,
        }
    }

    // Where a value behind the edge is before it.
    fn place(&self, value: u32) -> Place
        ensures { HasFew self.now → result ≡ place_before self.now value }
    {
        let value = self.argument(value);
        register_or_home(found_in(self.regs, value), value)
    }

    // A value stays in its home.
    fn stays(&self, finder: &mut Finder<'_>, value: u32) -> bool
        ensures stays { Rises self.now → finder.old ≡ self.now.homed.now → result ≡ stays_before self.now value }
        ensures list { finder.new ≡ finder.old }
    {
        self.was_homed(finder, value) && self.argument(value) == value
    }

    // A value was homed before the edge.
    fn was_homed(&self, finder: &mut Finder<'_>, value: u32) -> bool
        ensures homed { Rises self.now → finder.old ≡ self.now.homed.now → result ≡ homed_before self.now value }
        ensures list { finder.new ≡ finder.old }
    {
        if self.rises {
            finder.has(value)
        } else {
            self.set.contains(&value)
        }
    }
}

// The set of values, where they don't rise.
fn set(alloc: Global, values: &[u32], rises: bool) -> Result<BTreeSet<u32>, AllocError>
    ensures { rises ≡ false → IfOk result (λ set. HasHomes values.now set) }
{
    if rises {
        return Ok(BTreeSet::new(alloc));
    }
    set_of(alloc, values)
}

fn set_of(alloc: Global, values: &[u32]) -> Result<BTreeSet<u32>, AllocError>
    ensures { IfOk result (λ set. HasHomes values.now set) }
{
    let mut set = BTreeSet::new(alloc);
    for value in values {
        set.insert(*value)?;
    }
    Ok(set)
}

/// A parameter's argument, of the first of two for one parameter; any other value is its own.
pub(crate) fn argument_of(params: &[u32], args: &[u32], value: u32) -> u32
    ensures { result ≡ argument_of params.now args.now value }
{
    for (i, param) in params.iter().enumerate() {
        if i >= args.len() {
            return value;
        }
        if *param == value {
            return args[i];
        }
    }
    value
}

// The arguments by their parameters, where these are more than a few.
fn table(alloc: Global, params: &[u32], args: &[u32]) -> Result<BTreeMap<u32, u32>, AllocError>
    ensures { 8 < length params.now → IfOk result (λ arguments. HasArguments params.now args.now arguments) }
{
    if params.len() <= FEW {
        return Ok(BTreeMap::new(alloc));
    }
    arguments(alloc, params, args)
}

// The arguments by their parameters; the first of two for one parameter.
fn arguments(alloc: Global, params: &[u32], args: &[u32]) -> Result<BTreeMap<u32, u32>, AllocError>
    ensures { IfOk result (λ arguments. HasArguments params.now args.now arguments) }
{
    let mut arguments = BTreeMap::new(alloc);
    let mut i = params.len().min(args.len());
    while i > 0 {
        i -= 1;
        arguments.insert(params[i], args[i])?;
    }
    Ok(arguments)
}

fn push_registers(
    moves: &mut Vec<Move>,
    before: &Before,
    regs: &[Option<u32>],
) -> Result<(), AllocError>
    ensures { HasFew before.now → length regs.now ≤ 16 → OnOk result (moves.new.items ≡ moves.old.items ++ reg_moves (place_before before.now) 0 regs.now) }
{
    for (register, held) in regs.iter().enumerate() {
        if let Some(value) = held
            && let Ok(register) = u8::try_from(register)
        {
            moves.push(Move {
                to: Place::Reg(register),
                from: before.place(*value),
            })?;
        }
    }
    Ok(())
}

fn push_homes(moves: &mut Vec<Move>, before: &Before, homed: &[u32]) -> Result<(), AllocError>
    ensures { HasFew before.now → Rises before.now → OnOk result (moves.new.items ≡ moves.old.items ++ home_moves (stays_before before.now) (place_before before.now) homed.now) }
{
    let mut finder = Finder::new(before.homed);
    for value in homed {
        if !before.stays(&mut finder, *value) {
            moves.push(Move {
                to: Place::Home(*value),
                from: before.place(*value),
            })?;
        }
    }
    Ok(())
}
