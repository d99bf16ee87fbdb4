//! Statements without blocks of their own.

ghost use Rattle.std.specs.Prelude.{◌≡◌, OnOk, IfOk, [], ◌∷◌, if◌then◌else◌};
ghost use Rattle.block_runs.specs.declared.code.Code.TheVariants.{Byte};
ghost use Rattle.ssa_lowered.specs.Pieces.{skip, does};
ghost use Rattle.ob_types.specs.Meaning.{element_kind};
ghost use Rattle.ob_types.specs.declared.statements.Stmt.{Assign, CopyArray, CopyRecord, Increase, Decrease, Include, Exclude, New, Assert, OutChar, OutInt, OutString, InChar};
ghost use Rattle.ob_types.specs.declared.statements.Stmt.{Call as Invoke};
ghost use Rattle.ob_types.specs.declared.tree.Binary.{Binary as BinaryOf};
ghost use Rattle.ob_types.specs.declared.program.Program.{Program};
ghost use Rattle.ssa_lowered.specs.Lowered.{Here};
ghost use Rattle.ssa_lowered.specs.Statements.{fits, change_number, change_set};
ghost use Rattle.ssa_lowered.specs.Values.{home_of};
ghost use Rattle.ssa_exprs.specs.Making.{Gives, Tests};
ghost use Rattle.ssa_exprs.specs.Named.{named_of};
ghost use Rattle.ssa_exprs.specs.Tables.{Serves, small_in, named_in, expr_in};
ghost use Rattle.ssa_statements.specs.Homes.{home_value};
ghost use Rattle.ssa_statements.specs.Meeting.{reached_in, advance_in, limit_condition};
ghost use Rattle.ssa_statements.specs.Steps.{Steps, deed_in};

use crate::homes::{Home, change, current, home_at};
use block_runs::{Code, End};
use ob_types::{Binary, Call, Checked, Designator, TypeKind};
use outside::Memory;
use ssa_exprs::{
    CHARACTER_BYTES, Making, Named, Tables, address_in, bytes_in, designated, kind_in, length_in,
    length_of_kind, prepared, record_of_kind, store_code, takes_a_byte, two_operands, value,
};

/// Where the scalar variable is that a designator names.
pub fn place(t: &Tables<'_>, b: &mut Making, d: &Designator) -> Result<Home, Memory>
    ensures { IfOk result (λ h. (p : Program) (here : Here) → Serves t.now p here → Gives b.old b.new (home_of (named_in p here d.now) (small_in p d.now)) (home_value h)) }
{
    let h = designated(t, b, d)?;
    let r = home_at(b, h, takes_a_byte(kind_in(d)))?;
    Ok(r)
}

/// `:=` of a scalar.
pub fn assign(t: &Tables<'_>, b: &mut Making, d: &Designator, x: &Checked) -> Result<(), Memory>
    ensures { OnOk result ((p : Program) (here : Here) → Serves t.now p here → Steps b.old b.new (deed_in p here (Assign d.now x.now))) }
{
    let h = place(t, b, d)?;
    let v = value(t, b, &x.form)?;
    change(b, h, v)?;
    Ok(())
}

/// INC and DEC: the variable is read behind the number.
pub fn step(
    t: &Tables<'_>,
    b: &mut Making,
    op: Binary,
    d: &Designator,
    x: &Checked,
) -> Result<(), Memory>
    ensures { OnOk result ((p : Program) (here : Here) → Serves t.now p here
        → Steps b.old b.new (change_number op (home_of (named_in p here d.now) (small_in p d.now)) (expr_in p here x.now.form).value
        (Rattle.ob_types.specs.Meaning.is_byte (Rattle.ob_types.specs.Meaning.kind_in d.now)))) }
{
    let h = place(t, b, d)?;
    let n = value(t, b, &x.form)?;
    let v = current(b, h)?;
    let w = two_operands(b, op, v, n)?;
    test_byte(b, is_byte(kind_in(d)), w)?;
    change(b, h, w)?;
    Ok(())
}

/// The new value of a BYTE is tested.
fn test_byte(b: &mut Making, small: bool, w: u32) -> Result<(), Memory>
    ensures { OnOk result (Gives b.old b.new (if small then does Byte (w ∷ []) else skip) tt) }
{
    if small {
        b.act(Code::Byte, &[w])?;
    }
    Ok(())
}

/// Whether a type is BYTE.
fn is_byte(kind: TypeKind) -> bool
    ensures { result ≡ Rattle.ob_types.specs.Meaning.is_byte kind }
{
    matches!(kind, TypeKind::Byte)
}

/// INCL and EXCL: the variable is read behind the element.
pub fn alter(
    t: &Tables<'_>,
    b: &mut Making,
    op: Binary,
    d: &Designator,
    x: &Checked,
) -> Result<(), Memory>
    ensures { OnOk result ((p : Program) (here : Here) → Serves t.now p here
        → Steps b.old b.new (change_set op (home_of (named_in p here d.now) (small_in p d.now)) (expr_in p here x.now.form).value)) }
{
    let h = place(t, b, d)?;
    let a = value(t, b, &x.form)?;
    b.act(Code::Elem, &[a])?;
    let e = b.emit(Code::Bit, &[a])?;
    let v = current(b, h)?;
    let w = two_operands(b, op, v, e)?;
    change(b, h, w)?;
    Ok(())
}

/// NEW.
pub fn make(t: &Tables<'_>, b: &mut Making, d: &Designator) -> Result<(), Memory>
    ensures { OnOk result ((p : Program) (here : Here) → Serves t.now p here → Steps b.old b.new (deed_in p here (New d.now))) }
{
    let r = record_of_kind(kind_in(d));
    let cells = u64::from(t.program.record_cells(r));
    let bytes = u64::from(t.program.record(r));
    let h = place(t, b, d)?;
    let n = b.emit(Code::Const(cells + 1), &[])?;
    let m = b.emit(Code::Const((bytes + 7) / 8 * 8 + 8), &[])?;
    let g = b.emit(Code::Global(t.program.descriptor(r)), &[])?;
    let p = b.emit(Code::New, &[n, m, g])?;
    change(b, h, p)?;
    Ok(())
}

/// The element type of an array.
fn element_kind(kind: TypeKind) -> u32
    ensures { result ≡ element_kind kind }
{
    match kind {
        TypeKind::Array { element, .. } => element,
        _ => 0,
    }
}

/// The lengths are tested, where one isn't known.
fn fit(b: &mut Making, n: Option<u64>, to: Named, m: Option<u64>, from: Named) -> Result<(), Memory>
    ensures { OnOk result (Gives b.old b.new (fits n (named_of to) m (named_of from)) tt) }
{
    match (n, m) {
        (Some(_), Some(_)) => Ok(()),
        (None, _) => fit_lengths(b, n, to, m, from),
        (Some(_), None) => fit_lengths(b, n, to, m, from),
    }
}

/// The lengths are tested.
fn fit_lengths(
    b: &mut Making,
    n: Option<u64>,
    to: Named,
    m: Option<u64>,
    from: Named,
) -> Result<(), Memory>
    ensures { OnOk result (Gives b.old b.new (Rattle.ssa_statements.specs.Steps.tested n (named_of to) m (named_of from)) tt) }
{
    let a = length_in(b, n, to)?;
    let c = length_in(b, m, from)?;
    b.act(Code::Fits, &[c, a])?;
    Ok(())
}

/// `:=` of an array or a string.
pub fn copy_array(
    t: &Tables<'_>,
    b: &mut Making,
    d: &Designator,
    e: &Designator,
) -> Result<(), Memory>
    ensures { OnOk result ((p : Program) (here : Here) → Serves t.now p here → Steps b.old b.new (deed_in p here (CopyArray d.now e.now))) }
{
    let n = length_of_kind(kind_in(d));
    let m = length_of_kind(kind_in(e));
    let size = u64::from(t.program.size(element_kind(kind_in(d))));
    let to = designated(t, b, d)?;
    let a = address_in(b, to, 0)?;
    let from = designated(t, b, e)?;
    let c = address_in(b, from, 0)?;
    fit(b, n, to, m, from)?;
    let bytes = bytes_in(b, size, m, from)?;
    b.act(Code::Copy, &[a, c, bytes])?;
    Ok(())
}

/// `:=` of a record.
pub fn copy_record(
    t: &Tables<'_>,
    b: &mut Making,
    d: &Designator,
    e: &Designator,
) -> Result<(), Memory>
    ensures { OnOk result ((p : Program) (here : Here) → Serves t.now p here → Steps b.old b.new (deed_in p here (CopyRecord d.now e.now))) }
{
    let size = u64::from(t.program.record(record_of_kind(kind_in(d))));
    let to = designated(t, b, d)?;
    let a = address_in(b, to, 0)?;
    let from = designated(t, b, e)?;
    let c = address_in(b, from, 0)?;
    let bytes = b.emit(Code::Const(size), &[])?;
    b.act(Code::Copy, &[a, c, bytes])?;
    Ok(())
}

/// ASSERT.
pub fn assert(t: &Tables<'_>, b: &mut Making, x: &Checked) -> Result<(), Memory>
    ensures { OnOk result ((p : Program) (here : Here) → Serves t.now p here → Steps b.old b.new (deed_in p here (Assert x.now))) }
{
    let a = value(t, b, &x.form)?;
    b.act(Code::True, &[a])?;
    Ok(())
}

/// Out.Char.
pub fn out_char(t: &Tables<'_>, b: &mut Making, x: &Checked) -> Result<(), Memory>
    ensures { OnOk result ((p : Program) (here : Here) → Serves t.now p here → Steps b.old b.new (deed_in p here (OutChar x.now))) }
{
    let a = value(t, b, &x.form)?;
    b.act(Code::Svc(1), &[a])?;
    Ok(())
}

/// Out.Ln.
pub fn out_line(b: &mut Making) -> Result<(), Memory>
    ensures { OnOk result ((p : Program) (here : Here) → Steps b.old b.new (deed_in p here Rattle.ob_types.specs.declared.statements.Stmt.OutLn)) }
{
    let a = b.emit(Code::Const(10), &[])?;
    b.act(Code::Svc(1), &[a])?;
    Ok(())
}

/// Out.Int.
pub fn out_int(t: &Tables<'_>, b: &mut Making, x: &Checked, n: &Checked) -> Result<(), Memory>
    ensures { OnOk result ((p : Program) (here : Here) → Serves t.now p here → Steps b.old b.new (deed_in p here (OutInt x.now n.now))) }
{
    let a = value(t, b, &x.form)?;
    let c = value(t, b, &n.form)?;
    b.act(Code::Svc(2), &[a, c])?;
    Ok(())
}

/// Out.String.
pub fn out_string(t: &Tables<'_>, b: &mut Making, d: &Designator) -> Result<(), Memory>
    ensures { OnOk result ((p : Program) (here : Here) → Serves t.now p here → Steps b.old b.new (deed_in p here (OutString d.now))) }
{
    let h = designated(t, b, d)?;
    let a = address_in(b, h, 0)?;
    let l = length_in(b, length_of_kind(kind_in(d)), h)?;
    let s = b.emit(Code::Const(CHARACTER_BYTES), &[])?;
    b.act(Code::Svc(3), &[a, l, s])?;
    Ok(())
}

/// In.Char: whether there was a character goes to the start of the globals, then the character to the variable.
pub fn in_char(t: &Tables<'_>, b: &mut Making, d: &Designator) -> Result<(), Memory>
    ensures { OnOk result ((p : Program) (here : Here) → Serves t.now p here → Steps b.old b.new (deed_in p here (InChar d.now))) }
{
    let h = designated(t, b, d)?;
    let a = address_in(b, h, 0)?;
    let c = b.emit(Code::Svc(4), &[])?;
    let z = b.emit(Code::Const(0), &[])?;
    let done = b.emit(Code::Set(10), &[c, z])?;
    let g = b.emit(Code::Global(0), &[])?;
    b.act(store_code(takes_a_byte(TypeKind::Bool)), &[g, done])?;
    let v = b.emit(Code::Max0, &[c])?;
    b.act(store_code(takes_a_byte(kind_in(d))), &[a, v])?;
    Ok(())
}

/// A call, whose result is dropped if there is one.
pub fn invoke(t: &Tables<'_>, b: &mut Making, c: &Call) -> Result<(), Memory>
    ensures { OnOk result ((p : Program) (here : Here) → Serves t.now p here → Steps b.old b.new (deed_in p here (Invoke c.now))) }
{
    let r = prepared(t, b, c)?;
    b.act(r.code, r.words.as_slice())?;
    Ok(())
}

/// FOR: whether the variable has not passed the limit.
pub fn reached(
    t: &Tables<'_>,
    b: &mut Making,
    d: &Designator,
    last: u32,
    step: i64,
    yes: u32,
    no: u32,
) -> Result<(), Memory>
    ensures { OnOk result ((p : Program) (here : Here) → Serves t.now p here → Tests b.old b.new (reached_in p here d.now last step) yes no b.old.freq) }
{
    let freq = b.freq();
    let h = place(t, b, d)?;
    let a = current(b, h)?;
    b.close(
        End::Branch {
            cond: bound(step),
            a,
            b: last,
            yes,
            no,
        },
        0,
        freq,
        None,
    )?;
    Ok(())
}

/// The condition under which FOR goes on, by the step's sign.
fn bound(step: i64) -> u8
    ensures { result ≡ limit_condition step }
{
    if step > 0 { 13 } else { 10 }
}

/// FOR: the variable's step.
pub fn advance(t: &Tables<'_>, b: &mut Making, d: &Designator, step: i64) -> Result<(), Memory>
    ensures { OnOk result ((p : Program) (here : Here) → Serves t.now p here → Steps b.old b.new (advance_in p here d.now step)) }
{
    let h = place(t, b, d)?;
    let from = place(t, b, d)?;
    let v = current(b, from)?;
    let k = b.emit(Code::Const(step.cast_unsigned()), &[])?;
    let w = two_operands(b, Binary::Add, v, k)?;
    change(b, h, w)?;
    Ok(())
}
