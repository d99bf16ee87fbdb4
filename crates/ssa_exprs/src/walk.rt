//! The walk over expressions and designators.

ghost use Rattle.std.specs.Prelude.{◌≡◌, ◌≤◌, ℕ, None, suc, length, IfSome, List, [], ◌∷◌, IfOk, OnOk};
ghost use Rattle.ob_types.specs.declared.program.Program.{Program};
ghost use Rattle.ob_types.specs.Meaning.{kind_in, length_of_kind, record_of_kind};
ghost use Rattle.ssa_lowered.specs.Lowered.{Here, based, select, argument};
ghost use Rattle.ssa_exprs.specs.Making.{View, Gives, Passed, Tests, asked, closed};
ghost use Rattle.block_runs.specs.declared.end.End.TheVariants.{Nonzero, Branch};
ghost use Rattle.ssa_lowered.specs.Control.{Lowers, Test, half, flag};
ghost use Rattle.ssa_exprs.specs.Named.{named_of};
ghost use Rattle.ssa_exprs.specs.Steps.{Fulfils, Taken, AllTaken, operand_of};
ghost use Rattle.ssa_exprs.specs.Walk.{load_in, select_in, selected_in, link_in, linked_in, texts_in, argument_in, arguments_in, called_in, guarded_in, is_plain};
ghost use Rattle.ssa_lowered.specs.Pieces.{Low};
ghost use Rattle.ssa_lowered.specs.Values.{Named as NamedThing};
ghost use Rattle.ssa_exprs.specs.Tables.{Serves, expr_in, named_in, based_in, passed_in, own_in};
ghost use Rattle.ssa_lowered.specs.Values.{data_at, local_at, as_byte, with_result};
ghost use Rattle.ssa_lowered.specs.Values.{length_of as length_of_named};

use crate::making::Making;
use crate::named::{
    Named, address_in, bytes_in, condition, guard, is_pointer, is_tag, length_in, one_operand,
    read, second, tag_in, two_operands,
};
use crate::steps::{Step, Steps, Wanted, Ways, half, planned};
use crate::tables::Tables;
use crate::widths::{CHARACTER_BYTES, takes_a_byte};
use block_runs::{Code, End};
use ob_types::{
    Access, Argument, Base, Call, Designator, Expr, Link, Relation, Selector, TypeKind, Unary,
};
use outside::Memory;

/// The type that a designator has.
pub fn kind_in(d: &Designator) -> TypeKind
    ensures { result ≡ kind_in d.now }
{
    match d {
        Designator::Whole(_, kind) => *kind,
        Designator::Part(access) => access.kind,
    }
}

/// The length of an array or a string, where the type has one.
pub fn length_of_kind(kind: TypeKind) -> Option<u64>
    ensures is { result ≡ length_of_kind kind }
    ensures few { IfSome result (λ n. n ≤ 4294967296) }
{
    match kind {
        TypeKind::Array {
            length: Some(n),
            ..
        } => Some(u64::from(n)),
        TypeKind::Text(n) => Some(u64::from(n) + 1),
        _ => None,
    }
}

/// An address behind the start of the globals.
fn data_at(b: &mut Making, n: u32) -> Result<Named, Memory>
    ensures { IfOk result (λ h. Gives b.old b.new (data_at n) (named_of h)) }
{
    let a = b.emit(Code::Global(n), &[])?;
    Ok(Named::At(a))
}

/// An address before the end of the local data.
fn local_at(b: &mut Making, n: u32) -> Result<Named, Memory>
    ensures { IfOk result (λ h. Gives b.old b.new (local_at n) (named_of h)) }
{
    let a = b.emit(Code::Local(n), &[])?;
    Ok(Named::At(a))
}

/// What a parameter names.
fn parameter(t: &Tables<'_>, b: &mut Making, k: u32) -> Result<Named, Memory>
    ensures { IfOk result (λ h. (p : Program) (here : Here) → Serves t.now p here → Gives b.old b.new (passed_in p here k) (named_of h)) }
{
    let parameters = t.parameters.as_slice();
    if (k as usize) < parameters.len() {
        Ok(parameters[k as usize])
    } else {
        let a = b.emit(Code::Const(0), &[])?;
        Ok(Named::At(a))
    }
}

/// A local variable.
fn local(t: &Tables<'_>, b: &mut Making, x: u32) -> Result<Named, Memory>
    ensures { IfOk result (λ h. (p : Program) (here : Here) → Serves t.now p here → Gives b.old b.new (own_in p here x) (named_of h)) }
{
    let locals = t.locals.as_slice();
    let site = if (x as usize) < locals.len() {
        locals[x as usize]
    } else {
        None
    };
    match site {
        None => Ok(Named::Held(x)),
        Some(n) => local_at(b, n),
    }
}

/// Where a designator begins.
fn base(t: &Tables<'_>, b: &mut Making, at: Base) -> Result<Named, Memory>
    ensures { IfOk result (λ h. (p : Program) (here : Here) → Serves t.now p here → Gives b.old b.new (based_in p here at) (named_of h)) }
{
    match at {
        Base::Done => data_at(b, 0),
        Base::Global { module, variable } => data_at(b, t.program.global(module, variable)),
        Base::Local(x) => local(t, b, x),
        Base::Parameter(k) => parameter(t, b, k),
        Base::Text(k) => data_at(b, t.text(k)),
    }
}

/// The value of a scalar variable that a designator names.
#[cycle(walk)]
pub fn load(t: &Tables<'_>, b: &mut Making, d: &Designator) -> Result<u32, Memory>
    ensures { IfOk result (λ v. (p : Program) (here : Here) → Serves t.now p here → Gives b.old b.new (load_in p here d.now) v) }
{
    let h = named(t, b, d)?;
    let v = read(b, h, takes_a_byte(kind_in(d)))?;
    Ok(v)
}

/// What a designator names.
#[cycle(walk)]
pub fn named(t: &Tables<'_>, b: &mut Making, d: &Designator) -> Result<Named, Memory>
    ensures { IfOk result (λ h. (p : Program) (here : Here) → Serves t.now p here → Gives b.old b.new (named_in p here d.now) (named_of h)) }
{
    match d {
        Designator::Whole(at, _) => {
            let h = base(t, b, *at)?;
            Ok(h)
        }
        Designator::Part(inner) => {
            let access: &Access = inner;
            let first = base(t, b, access.base)?;
            let h = selected(t, b, access.selectors.as_slice(), first)?;
            Ok(h)
        }
    }
}

/// What selectors lead to, one after the other.
#[cycle(walk)]
fn selected(
    t: &Tables<'_>,
    b: &mut Making,
    selectors: &[Selector],
    first: Named,
) -> Result<Named, Memory>
    ensures { IfOk result (λ h. (p : Program) (here : Here) → Serves t.now p here → (v : View) (d : Low NamedThing)
        → Gives v b.old d (named_of first) → Gives v b.new (selected_in p here selectors.now d) (named_of h)) }
{
    let mut h = first;
    for s in selectors {
        h = select(t, b, s, h)?;
    }
    Ok(h)
}

/// What a selector leads to.
#[cycle(walk)]
fn select(t: &Tables<'_>, b: &mut Making, s: &Selector, h: Named) -> Result<Named, Memory>
    ensures { IfOk result (λ r. (p : Program) (here : Here) → Serves t.now p here → (v : View) (d : Low NamedThing)
        → Gives v b.old d (named_of h) → Gives v b.new (select_in p here s.now d) (named_of r)) }
{
    match s {
        Selector::Index {
            length,
            element,
            index,
        } => {
            let a = address_in(b, h, 0)?;
            let i = value(t, b, index)?;
            let n = length_in(b, known(*length), h)?;
            b.act(Code::Below, &[i, n])?;
            let size = b.emit(Code::Const(u64::from(t.program.size(*element))), &[])?;
            let e = b.emit(Code::MulAdd, &[i, size, a])?;
            Ok(Named::At(e))
        }
        Selector::Field { record, field } => {
            let a = address_in(b, h, t.program.offset(*record, *field))?;
            Ok(Named::At(a))
        }
        Selector::Dereference(types) => {
            let p = read(b, h, false)?;
            guard_all(t, b, types.as_slice(), p)?;
            b.act(Code::NotNil, &[p])?;
            Ok(Named::Object(p))
        }
        Selector::Narrow(r) => {
            let x = second(b, h)?;
            let g = b.emit(Code::Global(t.program.descriptor(*r)), &[])?;
            b.act(Code::GuardTag(t.program.level(*r)), &[x, g])?;
            Ok(h)
        }
    }
}

/// The value of an expression.
#[cycle(walk)]
pub fn value(t: &Tables<'_>, b: &mut Making, e: &Expr) -> Result<u32, Memory>
    ensures { IfOk result (λ v. (p : Program) (here : Here) → Serves t.now p here → Gives b.old b.new (expr_in p here e.now).value v) }
{
    match e {
        Expr::Literal(n) => b.emit(Code::Const(*n), &[]),
        Expr::Routine(g) => b.emit(Code::Code(*g), &[]),
        Expr::Load(d) => load(t, b, d),
        Expr::Guard(d, types) => guarded(t, b, d, types.as_slice()),
        Expr::Unary(op, x) => {
            let a = value(t, b, x)?;
            one_operand(b, *op, a)
        }
        Expr::Chain(x, links) => chain(t, b, links, x, Wanted::Value),
        Expr::Compare(r, x, y) => {
            let a = value(t, b, x)?;
            let c = value(t, b, y)?;
            b.emit(Code::Set(condition(*r)), &[a, c])
        }
        Expr::CompareTexts(r, d, e) => compared_texts(t, b, *r, d, e),
        Expr::In(x, s) => {
            let a = value(t, b, x)?;
            b.act(Code::Elem, &[a])?;
            let c = value(t, b, s)?;
            b.emit(Code::Has, &[a, c])
        }
        Expr::IsPointer(x, r) => {
            let a = value(t, b, x)?;
            is_pointer(b, t.program.descriptor(*r), t.program.level(*r), a)
        }
        Expr::IsParameter(d, r) => {
            let h = named(t, b, d)?;
            let tag = second(b, h)?;
            is_tag(b, t.program.descriptor(*r), t.program.level(*r), tag)
        }
        Expr::Byte(x) => tested_byte(t, b, x),
        Expr::Length(d) => array_length(t, b, d),
        Expr::Call(c) => called(t, b, c),
    }
}

/// The value of a pointer variable, guarded by these record types one after the other.
#[cycle(walk)]
fn guarded(t: &Tables<'_>, b: &mut Making, d: &Designator, types: &[u32]) -> Result<u32, Memory>
    ensures { IfOk result (λ v. (p : Program) (here : Here) → Serves t.now p here → Gives b.old b.new (guarded_in p here types.now (load_in p here d.now)) v) }
{
    let v = load(t, b, d)?;
    guard_all(t, b, types, v)?;
    Ok(v)
}

/// A relation of two texts.
#[cycle(walk)]
fn compared_texts(
    t: &Tables<'_>,
    b: &mut Making,
    r: Relation,
    d: &Designator,
    e: &Designator,
) -> Result<u32, Memory>
    ensures { IfOk result (λ v. (p : Program) (here : Here) → Serves t.now p here → Gives b.old b.new (texts_in p here r d.now e.now) v) }
{
    let x = named(t, b, d)?;
    let a = address_in(b, x, 0)?;
    let i = bytes_in(b, CHARACTER_BYTES, length_of_kind(kind_in(d)), x)?;
    let y = named(t, b, e)?;
    let c = address_in(b, y, 0)?;
    let j = bytes_in(b, CHARACTER_BYTES, length_of_kind(kind_in(e)), y)?;
    let k = b.emit(Code::Compare, &[a, i, c, j])?;
    let z = b.emit(Code::Const(0), &[])?;
    let v = b.emit(Code::Set(condition(r)), &[k, z])?;
    Ok(v)
}

/// A value that becomes a BYTE.
#[cycle(walk)]
fn tested_byte(t: &Tables<'_>, b: &mut Making, x: &Expr) -> Result<u32, Memory>
    ensures { IfOk result (λ v. (p : Program) (here : Here) → Serves t.now p here → Gives b.old b.new (as_byte (expr_in p here x.now).value) v) }
{
    let v = value(t, b, x)?;
    b.act(Code::Byte, &[v])?;
    Ok(v)
}

/// LEN.
#[cycle(walk)]
fn array_length(t: &Tables<'_>, b: &mut Making, d: &Designator) -> Result<u32, Memory>
    ensures { IfOk result (λ v. (p : Program) (here : Here) → Serves t.now p here
        → Gives b.old b.new (length_of_named (named_in p here d.now) (length_of_kind (kind_in d.now))) v) }
{
    let h = named(t, b, d)?;
    address_in(b, h, 0)?;
    let v = length_in(b, length_of_kind(kind_in(d)), h)?;
    Ok(v)
}

/// The result of a call.
#[cycle(walk)]
fn called(t: &Tables<'_>, b: &mut Making, c: &Call) -> Result<u32, Memory>
    ensures { IfOk result (λ v. (p : Program) (here : Here) → Serves t.now p here → Gives b.old b.new (with_result (called_in p here c.now)) v) }
{
    let r = prepared(t, b, c)?;
    let v = b.emit(r.code, r.words.as_slice())?;
    Ok(v)
}

/// The pointer is tested to be of these record types, one after the other.
fn guard_all(t: &Tables<'_>, b: &mut Making, types: &[u32], p: u32) -> Result<(), Memory>
    ensures { OnOk result ((program : Program) (here : Here) → Serves t.now program here → (v : View) (m : Low ℕ) → Gives v b.old m p
        → Gives v b.new (guarded_in program here types.now m) p) }
{
    for r in types {
        guard(b, t.program.descriptor(*r), t.program.level(*r), p)?;
    }
    Ok(())
}

/// A length of 32 bits.
pub fn known(length: Option<u32>) -> Option<u64>
    ensures { result ≡ length }
{
    match length {
        Some(n) => Some(u64::from(n)),
        None => None,
    }
}

/// A call that is ready to be made: its operation, and the values that it reads.
#[derive(Drop)]
pub struct Request {
    pub code: Code,
    pub words: Vec<u32>,
}

/// A call, its arguments evaluated.
#[cycle(walk)]
pub fn prepared(t: &Tables<'_>, b: &mut Making, c: &Call) -> Result<Request, Memory>
    ensures { IfOk result (λ r. (p : Program) (here : Here) → Serves t.now p here → Gives b.old b.new (called_in p here c.now) (record { code = r.code; words = r.words.items })) }
{
    match c {
        Call::Direct(g, args) => {
            let mut words = Vec::new(b.allocator());
            arguments(t, b, args, &mut words)?;
            Ok(Request {
                code: Code::Call(*g),
                words,
            })
        }
        Call::Indirect(d, args) => {
            let x = load(t, b, d)?;
            let mut words = Vec::new(b.allocator());
            words.push(x)?;
            arguments(t, b, args, &mut words)?;
            b.act(Code::NotNil, &[x])?;
            Ok(Request {
                code: Code::CallAt,
                words,
            })
        }
    }
}

/// The words of arguments, one after the other.
#[cycle(walk)]
fn arguments(
    t: &Tables<'_>,
    b: &mut Making,
    args: &[Argument],
    words: &mut Vec<u32>,
) -> Result<(), Memory>
    ensures { OnOk result ((p : Program) (here : Here) → Serves t.now p here → Passed b.old b.new (arguments_in p here args.now) words.old.items words.new.items) }
{
    for a in args {
        argument(t, b, a, words)?;
    }
    Ok(())
}

/// The words of an argument: one or two.
#[cycle(walk)]
fn argument(
    t: &Tables<'_>,
    b: &mut Making,
    a: &Argument,
    words: &mut Vec<u32>,
) -> Result<(), Memory>
    ensures { OnOk result ((p : Program) (here : Here) → Serves t.now p here → Passed b.old b.new (argument_in p here a.now) words.old.items words.new.items) }
{
    match a {
        Argument::ByValue(x) => {
            let v = value(t, b, x)?;
            words.push(v)?;
        }
        Argument::ByPlace(d) => {
            let h = named(t, b, d)?;
            let v = address_in(b, h, 0)?;
            words.push(v)?;
        }
        Argument::ByRecord(d) => {
            let h = named(t, b, d)?;
            let v = address_in(b, h, 0)?;
            let tag = tag_in(b, t.program.descriptor(record_of_kind(kind_in(d))), h)?;
            words.push(v)?;
            words.push(tag)?;
        }
        Argument::ByOpen(d) => {
            let h = named(t, b, d)?;
            let v = address_in(b, h, 0)?;
            let n = length_in(b, length_of_kind(kind_in(d)), h)?;
            words.push(v)?;
            words.push(n)?;
        }
    }
    Ok(())
}

/// The record type of a record, or of a pointer's objects.
pub fn record_of_kind(kind: TypeKind) -> u32
    ensures { result ≡ record_of_kind kind }
{
    match kind {
        TypeKind::Record(r) => r,
        TypeKind::Pointer(r) => r,
        _ => 0,
    }
}

/// A chain of links behind an expression, as it is wanted; the result is its value, where that is wanted. The links are gone
/// through from the last one to the first, and then from the first one to the last, in loops: what this takes of the stack
/// doesn't depend on how many there are.
#[cycle(walk)]
fn chain(
    t: &Tables<'_>,
    b: &mut Making,
    links: &[Link],
    x: &Expr,
    wanted: Wanted,
) -> Result<u32, Memory>
    ensures { IfOk result (λ r. (p : Program) (here : Here) → Serves t.now p here → Fulfils wanted b.old b.new (linked_in p here links.now (expr_in p here x.now)) r) }
{
    let plan = planned(b, links, wanted)?;
    let a = as_wanted(t, b, x, plan.first)?;
    let r = take_all(t, b, links, plan.steps, a)?;
    Ok(r)
}

/// An expression, as it is wanted; the result is its value, where that is wanted.
#[cycle(walk)]
fn as_wanted(t: &Tables<'_>, b: &mut Making, e: &Expr, wanted: Wanted) -> Result<u32, Memory>
    ensures { IfOk result (λ r. (p : Program) (here : Here) → Serves t.now p here → Fulfils wanted b.old b.new (expr_in p here e.now) r) }
{
    match wanted {
        Wanted::Value => {
            let v = value(t, b, e)?;
            Ok(v)
        }
        Wanted::Condition(ways) => {
            cond(t, b, e, ways.yes, ways.no, ways.next)?;
            Ok(0)
        }
    }
}

/// Steps are taken, the last of them first, from one number to another.
#[cycle(walk)]
fn take_all(
    t: &Tables<'_>,
    b: &mut Making,
    links: &[Link],
    steps: Steps,
    first: u32,
) -> Result<u32, Memory>
    ensures { IfOk result (λ r. (p : Program) (here : Here) → Serves t.now p here → AllTaken p here links.now steps.items b.old b.new first r) }
{
    let mut steps = steps;
    let mut a = first;
    while let Some(step) = steps.pop() {
        a = take(t, b, links, step, a)?;
    }
    Ok(a)
}

/// A step is taken, from one number to another.
#[cycle(walk)]
fn take(t: &Tables<'_>, b: &mut Making, links: &[Link], step: Step, a: u32) -> Result<u32, Memory>
    ensures { IfOk result (λ r. (p : Program) (here : Here) → Serves t.now p here → Taken p here links.now step b.old b.new a r) }
{
    match step {
        Step::Apply(i) => {
            if i >= links.len() {
                return Err(Memory);
            }
            let r = applied(t, b, &links[i], a)?;
            Ok(r)
        }
        Step::Fork(ways) => {
            fork(b, a, ways.yes, ways.no, ways.next)?;
            Ok(a)
        }
        Step::Part { link, label, ways } => {
            if link >= links.len() {
                return Err(Memory);
            }
            b.bind(label)?;
            operand_cond(t, b, &links[link], ways)?;
            Ok(a)
        }
        Step::Flag { yes, no, freq } => {
            let r = flagged(b, yes, no, freq)?;
            Ok(r)
        }
    }
}

/// The value with one link more.
#[cycle(walk)]
fn applied(t: &Tables<'_>, b: &mut Making, link: &Link, a: u32) -> Result<u32, Memory>
    ensures { IfOk result (λ r. (p : Program) (here : Here) → Serves t.now p here → (v : View) (x : Lowers) → Gives v b.old x.value a → Gives v b.new (link_in p here link.now x).value r) }
{
    match link {
        Link::Operate(op, y) => {
            let c = value(t, b, y)?;
            let v = two_operands(b, *op, a, c)?;
            Ok(v)
        }
        Link::Element(y) => {
            let c = value(t, b, y)?;
            b.act(Code::Elem, &[c])?;
            let bit = b.emit(Code::Bit, &[c])?;
            let v = b.emit(Code::Or, &[a, bit])?;
            Ok(v)
        }
        Link::Elements(y, z) => {
            let c = value(t, b, y)?;
            b.act(Code::Elem, &[c])?;
            let d = value(t, b, z)?;
            b.act(Code::Elem, &[d])?;
            let bits = b.emit(Code::Span, &[c, d])?;
            let v = b.emit(Code::Or, &[a, bits])?;
            Ok(v)
        }
        _ => Err(Memory),
    }
}

/// A link's last operand, as a condition.
#[cycle(walk)]
fn operand_cond(t: &Tables<'_>, b: &mut Making, link: &Link, ways: Ways) -> Result<(), Memory>
    ensures { OnOk result ((p : Program) (here : Here) → Serves t.now p here → Tests b.old b.new (expr_in p here (operand_of link.now)).test ways.yes ways.no ways.next) }
{
    match link {
        Link::Operate(_, y) | Link::And(y) | Link::Or(y) | Link::Element(y) => {
            cond(t, b, y, ways.yes, ways.no, ways.next)?;
            Ok(())
        }
        Link::Elements(_, y) => {
            cond(t, b, y, ways.yes, ways.no, ways.next)?;
            Ok(())
        }
    }
}

/// An expression as a condition: to one label where it holds, to another where it doesn't.
#[cycle(walk)]
pub fn cond(
    t: &Tables<'_>,
    b: &mut Making,
    e: &Expr,
    yes: u32,
    no: u32,
    next: u64,
) -> Result<(), Memory>
    ensures { OnOk result ((p : Program) (here : Here) → Serves t.now p here → Tests b.old b.new (expr_in p here e.now).test yes no next) }
{
    if is_plain(e) {
        let a = value(t, b, e)?;
        fork(b, a, yes, no, next)?;
        return Ok(());
    }
    match e {
        Expr::Unary(_, x) => {
            cond(t, b, x, no, yes, next)?;
            Ok(())
        }
        Expr::Chain(x, links) => {
            chain(t, b, links, x, Wanted::Condition(Ways { yes, no, next }))?;
            Ok(())
        }
        Expr::Compare(r, x, y) => {
            let a = value(t, b, x)?;
            let c = value(t, b, y)?;
            branch(b, condition(*r), a, c, yes, no, next)?;
            Ok(())
        }
        _ => Err(Memory),
    }
}

/// Whether an expression is a condition by its value alone.
fn is_plain(e: &Expr) -> bool
    ensures { result ≡ is_plain e.now }
{
    match e {
        Expr::Unary(op, _) => !matches!(op, Unary::Not),
        Expr::Chain(_, _) => false,
        Expr::Compare(_, _, _) => false,
        _ => true,
    }
}

/// The open block ends with a test of a value.
pub fn fork(b: &mut Making, a: u32, yes: u32, no: u32, next: u64) -> Result<(), Memory>
    ensures { OnOk result (b.new ≡ closed b.old (Nonzero a yes no) 0 next None) }
{
    b.close(End::Nonzero { a, yes, no }, 0, next, None)?;
    Ok(())
}

/// The open block ends with a relation of two values.
fn branch(
    b: &mut Making,
    cond: u8,
    x: u32,
    y: u32,
    yes: u32,
    no: u32,
    next: u64,
) -> Result<(), Memory>
    ensures { OnOk result (b.new ≡ closed b.old (Branch cond x y yes no) 0 next None) }
{
    b.close(
        End::Branch {
            cond,
            a: x,
            b: y,
            yes,
            no,
        },
        0,
        next,
        None,
    )?;
    Ok(())
}

/// A condition's two ways become 1 and 0: behind the labels and the test.
fn flagged(b: &mut Making, yes: u32, no: u32, freq: u64) -> Result<u32, Memory>
    ensures { IfOk result (λ r. (v : View) (t : Test) → yes ≡ v.labels → no ≡ suc v.labels → freq ≡ v.freq
        → Tests (asked (asked v)) b.old t yes no (half v.freq) → Gives v b.new (flag t) r) }
{
    b.bind(yes)?;
    let one = b.emit(Code::Const(1), &[])?;
    let out = b.label()?;
    let given = b.one(one)?;
    b.close(
        End::Jump {
            to: out,
            args: given,
        },
        0,
        half(freq),
        None,
    )?;
    b.bind(no)?;
    let zero = b.emit(Code::Const(0), &[])?;
    let v = b.values();
    let given = b.one(zero)?;
    b.close(
        End::Jump {
            to: out,
            args: given,
        },
        1,
        freq,
        None,
    )?;
    b.bind(out)?;
    Ok(v)
}
