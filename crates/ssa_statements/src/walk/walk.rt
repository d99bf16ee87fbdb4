//! The walk over statements.

ghost use Rattle.std.specs.Prelude.{◌≡◌, OnOk, IfOk};
ghost use Rattle.ob_types.specs.declared.program.Program.{Program};
ghost use Rattle.ssa_lowered.specs.Lowered.{Here};
ghost use Rattle.ssa_lowered.specs.Statements.{Deed};
ghost use Rattle.ssa_exprs.specs.Making.{View};
ghost use Rattle.ssa_exprs.specs.Tables.{Serves, expr_in};
ghost use Rattle.ssa_statements.specs.Meeting.{FinishesAll};
ghost use Rattle.ssa_statements.specs.Steps.{Steps, deed_in};
ghost use Rattle.ssa_statements.specs.walk.Lists.{deeds_in, alternatives_in, round_in, loop_in};
ghost use Rattle.ssa_statements.specs.walk.Lists.{repeat_in, count_in, case_in, types_in, case_bodies_in, type_bodies_in};
ghost use Rattle.ssa_statements.specs.walk.Frames.{Opens, Turns, Takes};

use crate::cases::{enter_part, freq_behind, label_at, leave_parts, open_parts};
use crate::control::{Frame, finish, head, jump};
use crate::simple::{
    advance, alter, assert, assign, copy_array, copy_record, in_char, invoke, make, out_char,
    out_int, out_line, out_string, reached, step,
};
use crate::walk::joins::{of_body, of_branches, of_cases, of_suffix, of_suffixes, of_types};
use crate::walk::rungs::{self, Dynamic};
use block_runs::Numbers;
use ob_types::{Binary, Branch, CasePart, Checked, Designator, ForLoop, Stmt, TypePart};
use outside::Memory;
use ssa_assigned::note_whole;
use ssa_exprs::{Making, Tables, cond, designated, half, second, value};

/// Statements, one after the other.
#[cycle(walk)]
pub fn statements(t: &Tables<'_>, b: &mut Making, list: &[Stmt]) -> Result<(), Memory>
    ensures { OnOk result ((p : Program) (here : Here) → Serves t.now p here → Steps b.old b.new (deeds_in p here list.now)) }
{
    for s in list {
        statement(t, b, s)?;
    }
    Ok(())
}

/// A statement. Where a limit is passed nothing is made any more.
#[cycle(walk)]
fn statement(t: &Tables<'_>, b: &mut Making, s: &Stmt) -> Result<(), Memory>
    ensures { OnOk result ((p : Program) (here : Here) → Serves t.now p here → Steps b.old b.new (deed_in p here s.now)) }
{
    if b.over().is_some() {
        return Ok(());
    }
    match s {
        Stmt::Assign(d, x) => assign(t, b, d, x),
        Stmt::CopyArray(d, e) => copy_array(t, b, d, e),
        Stmt::CopyRecord(d, e) => copy_record(t, b, d, e),
        Stmt::Increase(d, x) => step(t, b, Binary::Add, d, x),
        Stmt::Decrease(d, x) => step(t, b, Binary::Subtract, d, x),
        Stmt::Include(d, x) => alter(t, b, Binary::Union, d, x),
        Stmt::Exclude(d, x) => alter(t, b, Binary::Difference, d, x),
        Stmt::New(d) => make(t, b, d),
        Stmt::Assert(x) => assert(t, b, x),
        Stmt::OutChar(x) => out_char(t, b, x),
        Stmt::OutInt(x, n) => out_int(t, b, x, n),
        Stmt::OutString(d) => out_string(t, b, d),
        Stmt::OutLn => out_line(b),
        Stmt::InChar(d) => in_char(t, b, d),
        Stmt::Call(c) => invoke(t, b, c),
        Stmt::If(parts, other) => {
            let frames = alternatives(t, b, parts, other)?;
            statements(t, b, other)?;
            finish(b, frames)
        }
        Stmt::While(parts) => looped(t, b, parts),
        Stmt::Repeat(body, x) => repeated(t, b, body, x),
        Stmt::For(inner) => {
            let for_loop: &ForLoop = inner;
            assign(t, b, &for_loop.variable, &for_loop.first)?;
            let last = value(t, b, &for_loop.limit.form)?;
            counted(
                t,
                b,
                for_loop.body.as_slice(),
                &for_loop.variable,
                last,
                for_loop.step,
            )
        }
        Stmt::Case(x, parts) => {
            let v = value(t, b, &x.form)?;
            case(t, b, parts, v)
        }
        Stmt::CasePointer(x, parts) => {
            let v = value(t, b, &x.form)?;
            case_types(t, b, parts, v, Dynamic::Pointer)
        }
        Stmt::CaseParameter(d, parts) => {
            let h = designated(t, b, d)?;
            let v = second(b, h)?;
            case_types(t, b, parts, v, Dynamic::Parameter)
        }
    }
}

/// The branches of IF; what is left are the part behind them and their joins. The variables that this part assigns are
/// parameters of the joins too. Where a limit is passed the branches that are left are gone past.
#[cycle(walk)]
fn alternatives(
    t: &Tables<'_>,
    b: &mut Making,
    parts: &[Branch],
    other: &[Stmt],
) -> Result<Vec<Frame>, Memory>
    ensures { IfOk result (λ frames. (p : Program) (here : Here) → Serves t.now p here →
        (g : Deed) (w z : View) → Steps b.new w g → FinishesAll frames.items w z →
        Steps b.old z (alternatives_in p here parts.now other.now g)) }
{
    let all = of_suffixes(t, b, parts, other)?;
    let mut frames = Vec::new(b.allocator());
    for i in 0..parts.len() {
        if b.over().is_some() {
            return Ok(frames);
        }
        let vars = of_suffix(b.allocator(), &all, i)?;
        let frame = alternative(t, b, &parts[i], vars)?;
        frames.push(frame)?;
    }
    Ok(frames)
}

/// A branch of IF; what is left are the part where its condition doesn't hold and the join.
#[cycle(walk)]
fn alternative(
    t: &Tables<'_>,
    b: &mut Making,
    part: &Branch,
    vars: Vec<u32>,
) -> Result<Frame, Memory>
    ensures opens { IfOk result (λ f. (p : Program) (here : Here) → Serves t.now p here →
        Opens b.old b.new f (expr_in p here part.now.condition.form).test (deeds_in p here part.now.body.items)) }
    ensures vars { IfOk result (λ f. f.vars.items ≡ vars.items) }
{
    let freq = b.freq();
    let each = half(freq);
    let moment = b.moment();
    let yes = b.label()?;
    let no = b.label()?;
    let out = b.label()?;
    cond(t, b, &part.condition.form, yes, no, each)?;
    b.bind(yes)?;
    statements(t, b, &part.body)?;
    jump(b, out, vars.as_slice(), each)?;
    b.back(moment);
    b.bind(no)?;
    Ok(Frame {
        out,
        vars,
        moment,
        freq,
    })
}

/// WHILE.
#[cycle(walk)]
fn looped(t: &Tables<'_>, b: &mut Making, parts: &[Branch]) -> Result<(), Memory>
    ensures { OnOk result ((p : Program) (here : Here) → Serves t.now p here → Steps b.old b.new (loop_in p here parts.now)) }
{
    let vars = of_branches(t, b, parts, &[])?;
    let outside = b.freq();
    let header = head(b, vars.as_slice())?;
    let inside = b.freq();
    for i in 0..parts.len() {
        let next = freq_behind(i + 1, parts.len(), inside, outside);
        turn(t, b, &parts[i], header, vars.as_slice(), next)?;
    }
    Ok(())
}

/// A guard of WHILE, with what is done where it holds; the block behind it runs so often.
#[cycle(walk)]
fn turn(
    t: &Tables<'_>,
    b: &mut Making,
    part: &Branch,
    header: u32,
    vars: &[u32],
    next: u64,
) -> Result<(), Memory>
    ensures { OnOk result ((p : Program) (here : Here) → Serves t.now p here → Turns b.old b.new header vars.now next (round_in p here part.now)) }
{
    let freq = b.freq();
    let moment = b.moment();
    let yes = b.label()?;
    let no = b.label()?;
    cond(t, b, &part.condition.form, yes, no, freq)?;
    b.bind(yes)?;
    statements(t, b, &part.body)?;
    jump(b, header, vars, next)?;
    b.back(moment);
    b.bind(no)?;
    Ok(())
}

/// REPEAT.
#[cycle(walk)]
fn repeated(t: &Tables<'_>, b: &mut Making, body: &[Stmt], x: &Checked) -> Result<(), Memory>
    ensures { OnOk result ((p : Program) (here : Here) → Serves t.now p here → Steps b.old b.new (repeat_in p here body.now x.now)) }
{
    let vars = of_body(t, b, body, &[])?;
    let outside = b.freq();
    let header = head(b, vars.as_slice())?;
    let inside = b.freq();
    statements(t, b, body)?;
    let yes = b.label()?;
    let no = b.label()?;
    cond(t, b, &x.form, yes, no, inside)?;
    b.bind(no)?;
    jump(b, header, vars.as_slice(), outside)?;
    b.bind(yes)?;
    Ok(())
}

/// The loop of FOR, behind the first assignment and the limit.
#[cycle(walk)]
fn counted(
    t: &Tables<'_>,
    b: &mut Making,
    body: &[Stmt],
    variable: &Designator,
    last: u32,
    step: i64,
) -> Result<(), Memory>
    ensures { OnOk result ((p : Program) (here : Here) → Serves t.now p here → Steps b.old b.new (count_in p here variable.now step body.now last)) }
{
    let mut assigned = Vec::new(b.allocator());
    note_whole(variable, &mut assigned)?;
    let vars = of_body(t, b, body, assigned.as_slice())?;
    let outside = b.freq();
    let header = head(b, vars.as_slice())?;
    let moment = b.moment();
    let yes = b.label()?;
    let no = b.label()?;
    reached(t, b, variable, last, step, yes, no)?;
    b.bind(yes)?;
    statements(t, b, body)?;
    advance(t, b, variable, step)?;
    jump(b, header, vars.as_slice(), outside)?;
    b.back(moment);
    b.bind(no)?;
    Ok(())
}

/// CASE on a value.
#[cycle(walk)]
fn case(t: &Tables<'_>, b: &mut Making, parts: &[CasePart], v: u32) -> Result<(), Memory>
    ensures { OnOk result ((p : Program) (here : Here) → Serves t.now p here → Steps b.old b.new (case_in p here parts.now v)) }
{
    let vars = of_cases(t, b, parts)?;
    let tests = rungs::of_cases(b.allocator(), parts)?;
    let opened = open_parts(t, b, v, tests.as_slice(), parts.len(), vars)?;
    let starts = opened.starts.as_slice();
    let leave = case_parts(t, b, parts, None, &opened.frame, starts)?;
    leave_parts(b, leave, &opened.frame)
}

/// The parts of CASE; the result is how the last one's block ends.
#[cycle(walk)]
fn case_parts(
    t: &Tables<'_>,
    b: &mut Making,
    parts: &[CasePart],
    leave: Option<Numbers>,
    frame: &Frame,
    starts: &[u32],
) -> Result<Option<Numbers>, Memory>
    ensures { IfOk result (λ last. (p : Program) (here : Here) → Serves t.now p here →
        Takes b.old b.new frame.now leave last starts.now 0 (case_bodies_in p here parts.now)) }
{
    let mut leave = leave;
    for i in 0..parts.len() {
        enter_part(b, leave, frame, label_at(starts, i))?;
        statements(t, b, &parts[i].body)?;
        leave = Some(b.picked(frame.vars.as_slice())?);
    }
    Ok(leave)
}

/// CASE on a dynamic type.
#[cycle(walk)]
fn case_types(
    t: &Tables<'_>,
    b: &mut Making,
    parts: &[TypePart],
    v: u32,
    kind: Dynamic,
) -> Result<(), Memory>
    ensures { OnOk result ((p : Program) (here : Here) → Serves t.now p here → Steps b.old b.new (types_in p here kind parts.now v)) }
{
    let vars = of_types(t, b, parts)?;
    let tests = rungs::of_types(b.allocator(), kind, parts)?;
    let opened = open_parts(t, b, v, tests.as_slice(), parts.len(), vars)?;
    let unmatched = b.picked(opened.frame.vars.as_slice())?;
    let starts = opened.starts.as_slice();
    let leave = type_parts(t, b, parts, Some(unmatched), &opened.frame, starts)?;
    leave_parts(b, leave, &opened.frame)
}

/// The parts of CASE on types; the result is how the last one's block ends.
#[cycle(walk)]
fn type_parts(
    t: &Tables<'_>,
    b: &mut Making,
    parts: &[TypePart],
    leave: Option<Numbers>,
    frame: &Frame,
    starts: &[u32],
) -> Result<Option<Numbers>, Memory>
    ensures { IfOk result (λ last. (p : Program) (here : Here) → Serves t.now p here →
        Takes b.old b.new frame.now leave last starts.now 0 (type_bodies_in p here parts.now)) }
{
    let mut leave = leave;
    for i in 0..parts.len() {
        enter_part(b, leave, frame, label_at(starts, i))?;
        statements(t, b, &parts[i].body)?;
        leave = Some(b.picked(frame.vars.as_slice())?);
    }
    Ok(leave)
}
