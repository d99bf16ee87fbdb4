//! A procedure in the making.

ghost use Rattle.std.specs.Prelude.{◌≡◌, ℕ, suc, ◌+◌, ◌<◌, List, [], ◌∷◌, ◌++◌, Option, Some, None, OnOk, IfOk, length, min, not, IsTrue, drop, take, slice_set, slice_index};
ghost use Rattle.block_runs.specs.declared.code.Code.{Code as CodeOf};
ghost use Rattle.ssa_lowered.specs.Limits.{too_many};
ghost use Rattle.ssa_lowered.specs.Pieces.{emits, does, variable, numbers};
ghost use Rattle.ssa_exprs.specs.Changes.{changed, undone, rewound, numbered_from, values_of, joined};
ghost use Rattle.ssa_exprs.specs.Making.{View, Gives, asked, bound, closed};

use block_runs::{Code, End, Numbers};
use outside::Memory;
use size_limits::{MOST_BLOCKS, MOST_VALUES};
use ssa_core::Op;
use std::alloc::Global;
use std::marker::Model;

/// An operation, or the end of a block and the beginning of the next. Ends name blocks by labels.
#[derive(Drop)]
pub enum Piece {
    Adds(Op),
    Ends {
        end: End,
        params: Numbers,
        freq: u64,
        enter: Option<u32>,
    },
}

/// A label, and the block that it stands for.
#[derive(Clone, Copy)]
pub struct Bound {
    pub label: u32,
    pub block: u32,
}

/// A variable, and the value that it had before it was assigned.
#[derive(Clone, Copy)]
pub struct Undo {
    pub variable: u32,
    pub value: u32,
}

/// The limits of values and of blocks, by their numbers.
const VALUES: u8 = 50;

const BLOCKS: u8 = 51;

/// How many pieces, changes of variables and labels most procedures have at most.
const PIECES: usize = 64;

const CHANGES: usize = 16;

const LABELS: usize = 16;

/// The code that is made so far, and what lowering knows where it stands. Where a limit is passed no more code is made.
#[derive(Drop)]
pub struct Making {
    alloc: Global,
    made: Vec<Piece>,
    block: u32,
    freq: u64,
    values: u32,
    env: Vec<u32>,
    log: Vec<Undo>,
    labels: u32,
    bounds: Vec<Bound>,
    over: Option<u8>,
}

impl Model for Making {
    ghost use Rattle.ssa_exprs.specs.Making.{View};

    ghost Value = { View };

    ghost view = { λ m. record {
      made = m.made.items;
      block = m.block;
      freq = m.freq;
      values = m.values;
      known = record { env = m.env.items; log = m.log.items };
      labels = m.labels;
      bounds = m.bounds.items;
      over = m.over;
    } };
}

impl Making {
    /// An operation that makes a value, whose number is the result.
    pub fn emit(&mut self, code: Code, uses: &[u32]) -> Result<u32, Memory>
        ensures { IfOk result (λ v. Gives self.old self.new (emits code uses.now) v) }
    {
        let v = self.values;
        if self.over.is_some() {
            return Ok(v);
        }
        if v >= MOST_VALUES {
            self.over = Some(VALUES);
            return Ok(v);
        }
        let uses = Numbers::from_slice(self.alloc, uses)?;
        self.made.push(Piece::Adds(Op {
            code,
            uses,
            def: Some(v),
        }))?;
        self.values = v + 1;
        Ok(v)
    }

    /// An operation that makes none.
    pub fn act(&mut self, code: Code, uses: &[u32]) -> Result<(), Memory>
        ensures { OnOk result (Gives self.old self.new (does code uses.now) tt) }
    {
        if self.over.is_some() {
            return Ok(());
        }
        let uses = Numbers::from_slice(self.alloc, uses)?;
        self.made.push(Piece::Adds(Op {
            code,
            uses,
            def: None,
        }))?;
        Ok(())
    }

    /// The value of a register variable; 0 where there is no such variable.
    pub fn variable(&mut self, x: u32) -> Result<u32, Memory>
        ensures { IfOk result (λ v. Gives self.old self.new (variable x) v) }
    {
        if (x as usize) < self.env.len() {
            Ok(self.env[x as usize])
        } else {
            self.emit(Code::Const(0), &[])
        }
    }

    /// A register variable gets a value; nothing is done where there is no such variable.
    pub fn assign(&mut self, x: u32, v: u32) -> Result<(), Memory>
        ensures { OnOk result (self.new ≡ record self.old { known = changed self.old.known x v }) }
    {
        change(&mut self.env, &mut self.log, x, v)?;
        Ok(())
    }

    /// How many variables there are.
    pub fn variables(&self) -> usize
        ensures { result ≡ length self.now.known.env }
    {
        self.env.len()
    }

    /// How often variables got values.
    pub fn moment(&self) -> usize
        ensures { result ≡ length self.now.known.log }
    {
        self.log.len()
    }

    /// The variables get back the values that they had at a moment.
    pub fn back(&mut self, moment: usize)
        ensures { self.new ≡ record self.old { known = rewound self.old.known moment } }
    {
        rewind(&mut self.env, &mut self.log, moment);
    }

    /// The values of variables, for a jump; none where a limit is passed.
    pub fn picked(&self, vars: &[u32]) -> Result<Numbers, Memory>
        ensures { IfOk result (λ list. self.now.over ≡ None → list ≡ values_of self.now.known.env vars.now) }
    {
        if self.over.is_some() {
            return Ok(Numbers::new(self.alloc));
        }
        values(self.alloc, self.env.as_slice(), vars)
    }

    /// The open block ends, and the next begins with parameters that become the values of variables.
    pub fn join(
        &mut self,
        end: End,
        vars: &[u32],
        freq: u64,
        enter: Option<u32>,
    ) -> Result<(), Memory>
        ensures { OnOk result (self.new ≡ joined self.old end vars.now freq enter) }
    {
        let first = self.values;
        self.close(end, vars.len(), freq, enter)?;
        if self.over.is_none() {
            renumber(&mut self.env, &mut self.log, vars, first)?;
        }
        Ok(())
    }

    /// The first values of the variables.
    pub fn enter(&mut self, env: Vec<u32>)
        ensures { self.new ≡ record self.old { known = record { env = env.items; log = self.old.known.log } } }
    {
        self.env = env;
    }

    /// Takes room for the code of most procedures at once.
    pub fn reserve(&mut self) -> Result<(), Memory>
        ensures { OnOk result (self.new ≡ self.old) }
    {
        self.made.reserve(PIECES)?;
        self.log.reserve(CHANGES)?;
        self.bounds.reserve(LABELS)?;
        Ok(())
    }

    /// The number of the open block.
    pub fn block(&self) -> u32
        ensures { result ≡ self.now.block }
    {
        self.block
    }

    /// A label for a block that isn't begun yet.
    pub fn label(&mut self) -> Result<u32, Memory>
        ensures given { OnOk result (self.new ≡ asked self.old) }
        ensures number { IfOk result (λ t. t ≡ self.old.labels) }
    {
        let label = self.labels;
        if label == u32::MAX {
            return Err(Memory);
        }
        self.labels = label + 1;
        Ok(label)
    }

    /// The label stands for the open block.
    pub fn bind(&mut self, label: u32) -> Result<(), Memory>
        ensures { OnOk result (self.new ≡ bound self.old label) }
    {
        let block = self.block;
        self.bounds.push(Bound { label, block })?;
        Ok(())
    }

    /// The open block ends, and the next begins, with the next so many values as parameters.
    pub fn close(
        &mut self,
        end: End,
        count: usize,
        freq: u64,
        enter: Option<u32>,
    ) -> Result<(), Memory>
        ensures closed { OnOk result (self.new ≡ closed self.old end count freq enter) }
        ensures fits { OnOk result (self.new.over ≡ None → self.old.values + count < 4294967296) }
    {
        self.freq = freq;
        if self.over.is_some() {
            return Ok(());
        }
        if self.block >= MOST_BLOCKS - 1 {
            self.over = Some(BLOCKS);
            return Ok(());
        }
        if !has_room(self.values, count) {
            self.over = Some(VALUES);
            return Ok(());
        }
        let params = numbered(self.alloc, self.values, count)?;
        self.made.push(Piece::Ends {
            end,
            params,
            freq,
            enter,
        })?;
        self.block += 1;
        self.values += count as u32;
        Ok(())
    }

    /// How often the open block runs.
    pub fn freq(&self) -> u64
        ensures { result ≡ self.now.freq }
    {
        self.freq
    }

    /// How many values there are: the number of the next one.
    pub fn values(&self) -> u32
        ensures { result ≡ self.now.values }
    {
        self.values
    }

    /// No values.
    pub fn none(&self) -> Numbers
        ensures { result ≡ [] }
    {
        Numbers::new(self.alloc)
    }

    /// One value.
    pub fn one(&self, v: u32) -> Result<Numbers, Memory>
        ensures { IfOk result (λ list. list ≡ v ∷ []) }
    {
        Ok(Numbers::from_slice(self.alloc, &[v])?)
    }

    /// Where memory is taken from.
    pub fn allocator(&self) -> Global {
        self.alloc
    }

    /// A procedure with so many argument words, of which the first four are parameters of its first block.
    pub fn new(alloc: Global, words: u32) -> Making
        ensures { result ≡ record { made = []; block = 0; freq = 1048576; values = min words 4; known = record { env = []; log = [] }; labels = 0; bounds = []; over = None } }
    {
        Making {
            alloc,
            made: Vec::new(alloc),
            block: 0,
            freq: 1048576,
            values: words.min(4),
            env: Vec::new(alloc),
            log: Vec::new(alloc),
            labels: 0,
            bounds: Vec::new(alloc),
            over: None,
        }
    }

    /// The code that is made.
    pub fn into_pieces(self) -> Vec<Piece>
        ensures { result.items ≡ self.made }
    {
        let Making { made, .. } = self;
        made
    }

    /// How many labels are given out.
    pub fn labels(&self) -> u32
        ensures { result ≡ self.now.labels }
    {
        self.labels
    }

    /// The labels that have blocks, in the order in which they got them.
    pub fn bounds(&self) -> &[Bound]
        ensures { result.now ≡ self.now.bounds }
    {
        self.bounds.as_slice()
    }

    /// The limit that is passed.
    pub fn over(&self) -> Option<u8>
        ensures { result ≡ self.now.over }
    {
        self.over
    }
}

/// Whether the next so many values are none past the last one.
fn has_room(values: u32, count: usize) -> bool
    ensures room { result ≡ not (too_many (numbers values count)) }
    ensures fits { IsTrue result → values + count < 4294967296 }
{
    if count == 0 {
        return true;
    }
    if count > MOST_VALUES as usize {
        return false;
    }
    values <= MOST_VALUES - count as u32
}

/// The next so many values.
fn numbered(alloc: Global, values: u32, count: usize) -> Result<Numbers, Memory>
    requires { values + count < 4294967296 }
    ensures { IfOk result (λ list. list ≡ numbers values count) }
{
    let mut list = Numbers::new(alloc);
    for i in 0..count {
        list.push(values + i as u32)?;
    }
    Ok(list)
}

/// A variable that is there gets a value.
fn change(env: &mut Vec<u32>, log: &mut Vec<Undo>, x: u32, v: u32) -> Result<(), Memory>
    ensures { OnOk result (record { env = env.new.items; log = log.new.items } ≡ changed (record { env = env.old.items; log = log.old.items }) x v) }
{
    let at = x as usize;
    if at < env.len() {
        log.push(Undo {
            variable: x,
            value: env[at],
        })?;
        env[at] = v;
    }
    Ok(())
}

/// Variables get the values from one on.
fn renumber(env: &mut Vec<u32>, log: &mut Vec<Undo>, vars: &[u32], first: u32) -> Result<(), Memory>
    requires { first + length vars.now < 4294967296 }
    ensures { OnOk result (record { env = env.new.items; log = log.new.items } ≡ numbered_from (record { env = env.old.items; log = log.old.items }) vars.now first) }
{
    for i in 0..vars.len() {
        change(env, log, vars[i], first + i as u32)?;
    }
    Ok(())
}

/// All changes but the first so many are taken back, the latest first.
fn rewind(env: &mut Vec<u32>, log: &mut Vec<Undo>, moment: usize)
    ensures env { env.new.items ≡ undone (drop moment log.old.items) env.old.items }
    ensures log { log.new.items ≡ take moment log.old.items }
{
    while log.len() > moment {
        let at = log.len() - 1;
        let last = log[at];
        log.truncate(at);
        take_back(env, last);
    }
}

/// A change is taken back.
fn take_back(env: &mut Vec<u32>, last: Undo)
    ensures { env.new.items ≡ slice_set env.old.items last.variable last.value }
{
    let at = last.variable as usize;
    if at < env.len() {
        env[at] = last.value;
    }
}

/// The values of variables.
fn values(alloc: Global, env: &[u32], vars: &[u32]) -> Result<Numbers, Memory>
    ensures { IfOk result (λ list. list ≡ values_of env.now vars.now) }
{
    let mut list = Numbers::new(alloc);
    for x in vars {
        list.push(value_in(env, *x))?;
    }
    Ok(list)
}

/// The value of a variable; 0 where there is none.
fn value_in(env: &[u32], x: u32) -> u32
    ensures { result ≡ slice_index env.now x }
{
    if (x as usize) < env.len() {
        env[x as usize]
    } else {
        0
    }
}
