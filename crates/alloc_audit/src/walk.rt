//! A walk through a node's lines by the names of values.

ghost use Rattle.std.specs.Prelude.{◌≡◌, ℕ, List, ◌≤◌, ◌<◌, ◌&&◌, nat_lt, nat_le, false, true, cond, None, length, map, drop, take, IfOk, IfSome, OnOk};
ghost use Rattle.block_runs.specs.Blocks.{Operation};
ghost use Rattle.block_runs.specs.Valid.{is_call};
ghost use Rattle.lir_core.specs.Flows.{operation_of};
ghost use Rattle.lir_core.specs.Spots.{spot, get};
ghost use Rattle.lir_core.specs.Lines.{is_aimed, names, argument_spot, argument_spots, use_spots};
ghost use Rattle.block_runs.specs.Live.{has};
ghost use Rattle.alloc_audit.specs.Tests.{is_value, is_in_range, can_take, can_move, stand, are_below, is_ready, first_unfit};
ghost use Rattle.alloc_audit.specs.Holdings.{holdings_of, view_at, room_at, room_in, walker_of, given, all_given, left_by, maybe_made, def_register};
ghost use Rattle.lir_core.specs.declared.places.Line.TheVariants.{Store, Load, Moves, Target};
ghost use Rattle.lir_core.specs.declared.places.Line.TheVariants.{Result as Gives};
ghost use Rattle.lir_core.specs.declared.places.Line.TheVariants.{Lir as Does};
ghost use Rattle.lir_core.specs.Walks.{walk as walked_by};
ghost use Rattle.alloc_audit.specs.Parts.{can_read};
ghost use Rattle.alloc_audit.specs.Moving.{HasMoved, HasDefinition, Takes, loaded};

use crate::destinations::are_distinct;
use crate::values::{
    are_below, clear, clear_all, is_value, registers_have, value_in, without, write,
};
use lir_core::{Line, Lir, Move, Place, Template, is_aimed};
use loc_state::Homes;
use std::alloc::{AllocError, Global};

/// What the registers, X25 and the slots have, which values are homed, which operation comes next, and how many of the
/// registers named for the node are used up.
#[derive(Drop)]
pub(crate) struct Walk {
    pub(crate) regs: Vec<Option<u32>>,
    pub(crate) slots: Vec<Option<u32>>,
    pub(crate) aim: Option<u32>,
    pub(crate) homes: Homes,
    pub(crate) next: usize,
    pub(crate) used: usize,
}

/// Whether an operation leaves nothing in registers.
pub(crate) fn is_call(code: Template) -> bool
    ensures { result ≡ is_call code }
{
    match code {
        Template::Call(_)
        | Template::CallAt
        | Template::Copy
        | Template::Zero
        | Template::Compare
        | Template::Svc(_) => true,
        _ => false,
    }
}

impl Walk {
    // What a place has, where it is in range.
    fn value(&self, values: u32, place: Place) -> Option<u32>
        ensures { result ≡ cond (is_in_range (room_in values self.now) (spot place)) (view_at (holdings_of self.now) (spot place)) None }
    {
        match place {
            Place::Reg(reg) => value_in(&self.regs, reg as usize),
            Place::Home(value) if value < values && self.homes.has(value) => Some(value),
            Place::Home(_) => None,
            Place::Out(slot) => value_in(&self.slots, slot as usize),
        }
    }

    // Whether a place can take a value.
    fn can_take(&self, values: u32, place: Place, value: u32) -> bool
        ensures { result ≡ can_take (room_in values self.now) (spot place) (Some value) }
    {
        match place {
            Place::Reg(reg) => (reg as usize) < self.regs.len(),
            Place::Home(home) => home == value && home < values,
            Place::Out(slot) => (slot as usize) < self.slots.len(),
        }
    }

    // A value comes to a place, if there is such a place.
    fn give(&mut self, place: Place, value: u32) -> Result<(), AllocError>
        ensures holdings { OnOk result (holdings_of self.new ≡ given place value (holdings_of self.old)) }
        ensures next { OnOk result (self.new.next ≡ self.old.next) }
        ensures used { OnOk result (self.new.used ≡ self.old.used) }
    {
        match place {
            Place::Reg(reg) => write(&mut self.regs, reg as usize, value),
            Place::Home(home) => self.homes.insert(home)?,
            Place::Out(slot) => write(&mut self.slots, slot as usize, value),
        }
        Ok(())
    }

    // Whether a register has a value, and there is such a value.
    fn has_value(&self, values: u32, reg: u8, value: u32) -> bool
        ensures { result ≡ (is_value (get self.now.regs.items reg) value && nat_lt value values) }
    {
        is_value(value_in(&self.regs, reg as usize), value) && value < values
    }

    // Whether a value is homed, and there is such a value.
    fn is_homed(&self, values: u32, value: u32) -> bool
        ensures { result ≡ (nat_lt value values && has self.now.homes value) }
    {
        value < values && self.homes.has(value)
    }

    // A value that a register has goes to its home.
    #[tactic(auto, using(crate::proofs::Lines::not_stored))]
    fn store(&mut self, values: u32, reg: u8, value: u32) -> Result<bool, AllocError>
        ensures { (ops : List Operation) (named : List ℕ) → Takes values ops named (Store reg value) self.old self.new result }
    {
        if !self.has_value(values, reg, value) {
            return Ok(false);
        }
        self.homes.insert(value)?;
        Ok(true)
    }

    // A homed value comes to a register.
    #[tactic(auto, using(crate::proofs::Lines::loaded_to, crate::proofs::Lines::not_loaded, crate::proofs::Lines::not_homed))]
    fn load(&mut self, values: u32, reg: u8, value: u32) -> bool
        ensures { (ops : List Operation) (named : List ℕ) → Takes values ops named (Load reg value) self.old self.new (loaded result) }
    {
        if reg as usize >= self.regs.len() {
            return false;
        }
        if !self.is_homed(values, value) {
            return false;
        }
        self.regs[reg as usize] = Some(value);
        true
    }

    // What X0 has goes to a register.
    #[tactic(auto, using(crate::proofs::Lines::result_to, crate::proofs::Lines::no_result))]
    fn take_result(&mut self, values: u32, reg: u8) -> bool
        ensures { (ops : List Operation) (named : List ℕ) → Takes values ops named (Gives reg) self.old self.new (loaded result) }
    {
        if reg as usize >= self.regs.len() {
            return false;
        }
        self.regs[reg as usize] = value_in(&self.regs, 0);
        self.regs[0] = None;
        true
    }

    // What a place has goes to X25.
    #[tactic(auto, using(crate::proofs::Lines::aimed_at, crate::proofs::Lines::not_aimed))]
    fn aim_at(&mut self, values: u32, place: Place) -> bool
        ensures { (ops : List Operation) (named : List ℕ) → Takes values ops named (Target place) self.old self.new (loaded result) }
    {
        let Some(value) = self.value(values, place) else {
            return false;
        };
        self.aim = Some(value);
        true
    }

    // The values that stand where moves take them, if all can be made.
    fn moved(
        &self,
        alloc: Global,
        values: u32,
        moves: &[Move],
    ) -> Result<Option<Vec<u32>>, AllocError>
        ensures { IfOk result (HasMoved (room_in values self.now) (view_at (holdings_of self.now)) moves.now) }
    {
        let mut found = Vec::with_capacity(alloc, moves.len())?;
        for m in moves {
            let Some(value) = self.value(values, m.from) else {
                return Ok(None);
            };
            if !self.can_take(values, m.to, value) {
                return Ok(None);
            }
            found.push(value)?;
        }
        Ok(Some(found))
    }

    // Values come to the destinations of moves, the last first.
    fn give_all(&mut self, moves: &[Move], given: &[u32]) -> Result<(), AllocError>
        requires { length given.now ≡ length moves.now }
        ensures holdings { OnOk result (holdings_of self.new ≡ all_given moves.now given.now (holdings_of self.old)) }
        ensures next { OnOk result (self.new.next ≡ self.old.next) }
        ensures used { OnOk result (self.new.used ≡ self.old.used) }
    {
        let mut at = moves.len();
        while at > 0 {
            at -= 1;
            self.give(moves[at].to, given[at])?;
        }
        Ok(())
    }

    // Makes moves, all at once.
    #[tactic(auto, using(crate::proofs::Lines::moves_made, crate::proofs::Lines::not_made, crate::proofs::Lines::not_distinct))]
    fn make_moves(&mut self, alloc: Global, values: u32, moves: &[Move]) -> Result<bool, AllocError>
        ensures { (ops : List Operation) (named : List ℕ) → Takes values ops named (Moves moves.now) self.old self.new result }
    {
        let Some(given) = self.moved(alloc, values, moves)? else {
            return Ok(false);
        };
        if !are_distinct(alloc, moves)? {
            return Ok(false);
        }
        self.give_all(moves, given.as_slice())?;
        Ok(true)
    }

    // What stands where a call takes its argument of a number.
    #[tactic(auto, using(crate::proofs::Lines::spot_of))]
    fn argument(&self, at: usize) -> Option<u32>
        ensures { result ≡ view_at (holdings_of self.now) (argument_spot at) }
    {
        if at < 4 {
            value_in(&self.regs, at)
        } else {
            value_in(&self.slots, at - 4)
        }
    }

    // Whether the arguments of a call stand where it takes them.
    fn arguments_have(&self, arguments: &[u32]) -> bool
        ensures { result ≡ stand (view_at (holdings_of self.now)) (argument_spots 0 arguments.now) arguments.now }
    {
        for (at, value) in arguments.iter().enumerate() {
            if !is_value(self.argument(at), *value) {
                return false;
            }
        }
        true
    }

    // Whether the uses of a call stand where it reads them.
    fn call_has(&self, op: &Lir) -> bool
        ensures { (named : List ℕ) → is_call op.now.template ≡ true → result ≡ stand (view_at (holdings_of self.now)) (use_spots (operation_of op.now) named) op.now.uses }
    {
        let uses = op.uses.as_slice();
        if !is_aimed(op.template) {
            return self.arguments_have(uses);
        }
        match uses {
            [] => false,
            [aim, arguments @ ..] => is_value(self.aim, *aim) && self.arguments_have(arguments),
        }
    }

    // Behind a call, or another operation.
    fn leave(&mut self, call: bool)
        ensures holdings { holdings_of self.new ≡ left_by call (holdings_of self.old) }
        ensures next { self.new.next ≡ self.old.next }
        ensures used { self.new.used ≡ self.old.used }
    {
        if !call {
            return;
        }
        clear_all(&mut self.regs);
        clear_all(&mut self.slots);
        self.aim = None;
    }

    // A register has the value that was made, and nothing else has it.
    fn make(&mut self, register: usize, def: Option<u32>)
        ensures holdings { holdings_of self.new ≡ maybe_made register def (holdings_of self.old) }
        ensures next { self.new.next ≡ self.old.next }
        ensures used { self.new.used ≡ self.old.used }
    {
        let Some(value) = def else {
            return;
        };
        clear(&mut self.regs, value);
        clear(&mut self.slots, value);
        self.aim = without(self.aim, value);
        self.homes.remove(value);
        write(&mut self.regs, register, value);
    }

    // Whether an operation that is no call can read its uses, where these registers are named for what comes.
    fn can_read(&self, op: &Lir, rest: &[u8]) -> bool
        requires { is_call op.now.template ≡ false }
        ensures { result ≡ can_read self.now op.now rest.now }
    {
        let uses = op.uses.as_slice();
        let count = names_of(op);
        if count > rest.len() {
            return false;
        }
        if !are_below(&rest[..count], self.regs.len()) {
            return false;
        }
        registers_have(&self.regs, &rest[..uses.len()], uses)
    }

    // Whether an operation is ready.
    fn is_ready(&self, op: &Lir, named: &[u8]) -> bool
        requires { self.now.used ≤ length named.now }
        ensures { result ≡ is_ready (length self.now.regs.items) (operation_of op.now) (walker_of named.now self.now) }
    {
        if is_call(op.template) {
            return self.call_has(op);
        }
        self.can_read(op, &named[self.used..])
    }

    // The register of an operation's definition; 0 where it has none.
    fn def_register(&self, op: &Lir, named: &[u8]) -> usize
        requires used { self.now.used ≤ length named.now }
        requires ready { is_ready (length self.now.regs.items) (operation_of op.now) (walker_of named.now self.now) ≡ true }
        ensures { HasDefinition op.now → result ≡ def_register (operation_of op.now) (drop self.now.used named.now) }
    {
        if is_call(op.template) || op.def.is_none() {
            return 0;
        }
        named[self.used + op.uses.len()] as usize
    }

    // An operation of the node is done.
    #[tactic(auto, using(crate::proofs::Lines::operation_done, crate::proofs::Lines::none_there, crate::proofs::Lines::not_next, crate::proofs::Lines::not_ready))]
    fn do_operation(&mut self, values: u32, lirs: &[Lir], named: &[u8], index: u32) -> bool
        requires used { self.old.used ≤ length named.now }
        requires some { 0 < length self.old.regs.items }
        ensures { Takes values (map operation_of lirs.now) named.now (Does index) self.old self.new (loaded result) }
    {
        let Some(op) = lirs.get(index as usize) else {
            return false;
        };
        if index as usize != self.next {
            return false;
        }
        if !self.is_ready(op, named) {
            return false;
        }
        let register = self.def_register(op, named);
        let count = names_of(op);
        self.leave(is_call(op.template));
        self.make(register, op.def);
        self.next = index as usize + 1;
        self.used += count;
        true
    }

    /// Takes a line, if it can be taken.
    pub(crate) fn take(
        &mut self,
        alloc: Global,
        values: u32,
        lirs: &[Lir],
        named: &[u8],
        line: &Line,
    ) -> Result<bool, AllocError>
        requires used { self.old.used ≤ length named.now }
        requires some { 0 < length self.old.regs.items }
        ensures { Takes values (map operation_of lirs.now) named.now line.now self.old self.new result }
    {
        match line {
            Line::Lir(index) => Ok(self.do_operation(values, lirs, named, *index)),
            Line::Store { reg, value } => self.store(values, *reg, *value),
            Line::Load { reg, value } => Ok(self.load(values, *reg, *value)),
            Line::Moves(moves) => self.make_moves(alloc, values, moves.as_slice()),
            Line::Result(reg) => Ok(self.take_result(values, *reg)),
            Line::Target(place) => Ok(self.aim_at(values, *place)),
        }
    }
}

// How many registers are named for an operation.
fn names_of(op: &Lir) -> usize
    ensures { result ≡ names (operation_of op.now) }
{
    if is_call(op.template) {
        return 0;
    }
    match op.def {
        Some(_) => op.uses.as_slice().len() + 1,
        None => op.uses.as_slice().len(),
    }
}

/// Takes a node's lines; answers the number of the first that can't be taken, counted from 1.
pub(crate) fn walk_lines(
    state: &mut Walk,
    alloc: Global,
    values: u32,
    lirs: &[Lir],
    named: &[u8],
    lines: &[Line],
) -> Result<Option<usize>, AllocError>
    requires used { state.old.used ≤ length named.now }
    requires some { 0 < length state.old.regs.items }
    ensures first { IfOk result (λ o. o ≡ first_unfit (room_in values state.old) (map operation_of lirs.now) 1 lines.now (walker_of named.now state.old)) }
    ensures used { IfOk result (λ o. o ≡ None → state.new.used ≤ length named.now) }
    ensures room { IfOk result (λ o. o ≡ None → room_in values state.new ≡ room_in values state.old) }
    ensures walked { IfOk result (λ o. o ≡ None → walker_of named.now state.new ≡ walked_by (map operation_of lirs.now) lines.now (walker_of named.now state.old)) }
{
    let mut at: usize = 0;
    for line in lines {
        at += 1;
        if !state.take(alloc, values, lirs, named, line)? {
            return Ok(Some(at));
        }
    }
    Ok(None)
}
