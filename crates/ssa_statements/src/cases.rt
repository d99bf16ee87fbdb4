//! The tests of CASE, and the blocks between its parts.

ghost use Rattle.std.specs.Prelude.{◌≡◌, ℕ, ◌+◌, ◌<◌, ◌≤◌, Option, Some, None, [], ◌∷◌, slice_index, OnOk, IfOk};
ghost use Rattle.wrapping_numbers.specs.Numbers.{unsigned};
ghost use Rattle.block_runs.specs.declared.end.End.TheVariants.{Jump};
ghost use Rattle.ob_types.specs.declared.program.Program.{Program};
ghost use Rattle.ssa_lowered.specs.Control.{fork_branch};
ghost use Rattle.ssa_lowered.specs.Lowered.{Here};
ghost use Rattle.ssa_lowered.specs.Pieces.{give, numbers};
ghost use Rattle.ssa_lowered.specs.Values.{const};
ghost use Rattle.ssa_exprs.specs.Making.{Tests, asked, bound, closed};
ghost use Rattle.ssa_exprs.specs.Tables.{Serves};
ghost use Rattle.ssa_statements.specs.Cases.{Climbs, OpensCase, ends, Enters, Leaves};
ghost use Rattle.ssa_statements.specs.Rungs.{label_in, choice_in, rungs_in};

use crate::control::Frame;
use block_runs::{Code, End, Numbers};
use ob_types::Label;
use outside::Memory;
use ssa_exprs::{Making, Tables, fork, half, is_pointer, is_tag};

/// What a part of CASE is chosen by.
#[derive(Clone, Copy)]
pub enum Choice {
    /// A label of CASE on INTEGER or CHAR.
    Value(Label),
    /// The record type of a pointer's object.
    Pointer(u32),
    /// The record type of a VAR record parameter.
    Parameter(u32),
}

/// A test of CASE, and the part that it leads to.
#[derive(Clone, Copy)]
pub struct Rung {
    pub choice: Choice,
    pub part: usize,
}

/// A CASE whose tests are made: its choice, and the labels of its parts.
#[derive(Drop)]
pub struct Opened {
    pub frame: Frame,
    pub starts: Vec<u32>,
}

/// So many labels, one after the other.
pub fn labels(b: &mut Making, count: usize) -> Result<Vec<u32>, Memory>
    ensures given { OnOk result (b.new ≡ record b.old { labels = b.old.labels + count }) }
    ensures numbers { IfOk result (λ list. list.items ≡ numbers b.old.labels count) }
{
    let mut list = Vec::new(b.allocator());
    for i in 0..count {
        let label = b.label()?;
        list.push(label)?;
    }
    Ok(list)
}

/// The open block ends with a relation of a value to a number.
fn related(
    b: &mut Making,
    cond: u8,
    v: u32,
    n: i64,
    yes: u32,
    no: u32,
    next: u64,
) -> Result<(), Memory>
    ensures { OnOk result (Tests b.old b.new (fork_branch cond (give v) (const (unsigned n))) yes no next) }
{
    let k = b.emit(Code::Const(n.cast_unsigned()), &[])?;
    b.close(
        End::Branch {
            cond,
            a: v,
            b: k,
            yes,
            no,
        },
        0,
        next,
        None,
    )?;
    Ok(())
}

/// Whether the value is one of a label's.
fn labelled(
    b: &mut Making,
    v: u32,
    label: &Label,
    yes: u32,
    no: u32,
    next: u64,
) -> Result<(), Memory>
    ensures { OnOk result ((p : Program) (here : Here) → Tests b.old b.new (label_in p here v label.now) yes no next) }
{
    match label {
        Label::One(n) => {
            let n = *n;
            related(b, 0, v, n, yes, no, next)?;
            Ok(())
        }
        Label::Range(first, last) => {
            let freq = b.freq();
            let middle = b.label()?;
            related(b, 10, v, *first, middle, no, freq)?;
            b.bind(middle)?;
            related(b, 13, v, *last, yes, no, next)?;
            Ok(())
        }
    }
}

/// Whether the value is what a part is chosen by.
fn tested(
    t: &Tables<'_>,
    b: &mut Making,
    v: u32,
    choice: &Choice,
    yes: u32,
    no: u32,
    next: u64,
) -> Result<(), Memory>
    ensures { OnOk result ((p : Program) (here : Here) → Serves t.now p here → Tests b.old b.new (choice_in p here v choice.now) yes no next) }
{
    match choice {
        Choice::Value(label) => {
            labelled(b, v, label, yes, no, next)?;
            Ok(())
        }
        Choice::Pointer(r) => {
            let a = is_pointer(b, t.program.descriptor(*r), t.program.level(*r), v)?;
            fork(b, a, yes, no, next)?;
            Ok(())
        }
        Choice::Parameter(r) => {
            let a = is_tag(b, t.program.descriptor(*r), t.program.level(*r), v)?;
            fork(b, a, yes, no, next)?;
            Ok(())
        }
    }
}

/// The label of a part; 0 where there is no such part.
pub fn label_at(starts: &[u32], part: usize) -> u32
    ensures { result ≡ slice_index starts.now part }
{
    if part < starts.len() { starts[part] } else { 0 }
}

/// The tests of CASE, which lead to the labels of parts; the block without a match runs so often.
pub fn ladder(
    t: &Tables<'_>,
    b: &mut Making,
    v: u32,
    rungs: &[Rung],
    starts: &[u32],
    last: u64,
) -> Result<(), Memory>
    ensures { OnOk result ((p : Program) (here : Here) → Serves t.now p here → Climbs b.old b.new last (λ i. slice_index starts.now i) (rungs_in p here v rungs.now)) }
{
    if rungs.len() == 0 {
        bare_ladder(b, last)?;
        return Ok(());
    }
    let freq = b.freq();
    for i in 0..rungs.len() {
        let rung = &rungs[i];
        let next = freq_behind(i + 1, rungs.len(), freq, last);
        let no = b.label()?;
        tested(t, b, v, &rung.choice, label_at(starts, rung.part), no, next)?;
        b.bind(no)?;
    }
    Ok(())
}

/// The tests of a CASE of so many parts are made, whose join has these variables as parameters; the block without a match is
/// open.
pub fn open_parts(
    t: &Tables<'_>,
    b: &mut Making,
    v: u32,
    tests: &[Rung],
    count: usize,
    vars: Vec<u32>,
) -> Result<Opened, Memory>
    ensures { IfOk result (λ o. (p : Program) (here : Here) → Serves t.now p here → OpensCase b.old b.new o vars.items count (rungs_in p here v tests.now)) }
{
    let freq = b.freq();
    let moment = b.moment();
    let starts = labels(b, count)?;
    let out = b.label()?;
    ladder(t, b, v, tests, starts.as_slice(), half(freq))?;
    let frame = Frame {
        out,
        vars,
        moment,
        freq,
    };
    Ok(Opened { frame, starts })
}

/// How often the block behind a test or a guard runs, where so many of all are made: the last one leads to another block.
pub fn freq_behind(made: usize, all: usize, inside: u64, last: u64) -> u64
    ensures inside { made < all → result ≡ inside }
    ensures last { all ≤ made → result ≡ last }
{
    if made < all { inside } else { last }
}

/// Without tests the open block jumps to the one without a match.
fn bare_ladder(b: &mut Making, last: u64) -> Result<(), Memory>
    ensures { OnOk result (b.new ≡ bound (closed (asked b.old) (Jump b.old.labels []) 0 last None) b.old.labels) }
{
    let to = b.label()?;
    let args = b.none();
    b.close(End::Jump { to, args }, 0, last, None)?;
    b.bind(to)?;
    Ok(())
}

/// How the block before a part ends.
fn end_of(leave: Option<Numbers>, to: u32) -> End
    ensures { result ≡ ends leave to }
{
    match leave {
        None => End::Trap(6),
        Some(args) => End::Jump { to, args },
    }
}

/// The open block ends, and a part begins with the variables as they were at the choice.
pub fn enter_part(
    b: &mut Making,
    leave: Option<Numbers>,
    frame: &Frame,
    start: u32,
) -> Result<(), Memory>
    ensures { OnOk result (Enters frame.now b.old b.new leave start) }
{
    b.close(end_of(leave, frame.out), 0, half(frame.freq), None)?;
    b.back(frame.moment);
    b.bind(start)?;
    Ok(())
}

/// The open block ends, and the join of all parts begins.
pub fn leave_parts(b: &mut Making, leave: Option<Numbers>, frame: &Frame) -> Result<(), Memory>
    ensures { OnOk result (Leaves frame.now b.old b.new leave) }
{
    b.back(frame.moment);
    b.join(
        end_of(leave, frame.out),
        frame.vars.as_slice(),
        frame.freq,
        None,
    )?;
    b.bind(frame.out)?;
    Ok(())
}
