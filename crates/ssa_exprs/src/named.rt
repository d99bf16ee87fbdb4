//! What designators name, and the small parts of their code.

ghost use Rattle.std.specs.Prelude.{◌≡◌, ℕ, ◌+◌, ◌*◌, ◌<◌, ◌≤◌, ◌^◌, IfSome, List, [], ◌∷◌, IfOk, OnOk, Option, None};
ghost use Rattle.ssa_lowered.specs.Values.{past, address_in, second, length_in, bytes_in, tag_in, is_pointer, is_tag, two_operands, one_operand, home_of, load, guarded};
ghost use Rattle.ssa_lowered.specs.Values.{Named as NamedThing};
ghost use Rattle.block_runs.specs.declared.code.Code.TheVariants.{Plus};
ghost use Rattle.ssa_lowered.specs.Pieces.{Low, emits};
ghost use Rattle.ssa_exprs.specs.Making.{View, Gives};
ghost use Rattle.ssa_exprs.specs.Named.{named_of, held_in};

use crate::making::Making;
use crate::widths::load_code;
use block_runs::Code;
use ob_types::{Binary, Relation, Unary};
use outside::Memory;

/// What a designator names. Values go by their numbers.
#[derive(Clone, Copy)]
pub enum Named {
    /// An address.
    At(u32),
    /// A parameter's address, and the length or tag in the word behind it.
    Beside(u32, u32),
    /// The object of a pointer, whose address isn't made yet.
    Object(u32),
    /// A variable that is in a register.
    Held(u32),
}

/// The address so many bytes further.
fn past(b: &mut Making, a: u32, n: u32) -> Result<u32, Memory>
    ensures { IfOk result (λ v. Gives b.old b.new (past a n) v) }
{
    if n == 0 {
        Ok(a)
    } else {
        b.emit(Code::Plus(n), &[a])
    }
}

// The address so many bytes into an object's record, which stands behind its tag.
fn object_at(b: &mut Making, p: u32, n: u32) -> Result<u32, Memory>
    ensures { IfOk result (λ v. 8 + n < 4294967296 → Gives b.old b.new (emits (Plus (8 + n)) (p ∷ [])) v) }
{
    if n < 4294967288 {
        let a = b.emit(Code::Plus(8 + n), &[p])?;
        Ok(a)
    } else {
        Ok(p)
    }
}

/// The address so many bytes into what is named.
pub fn address_in(b: &mut Making, h: Named, n: u32) -> Result<u32, Memory>
    ensures { IfOk result (λ v. 8 + n < 4294967296 → Gives b.old b.new (address_in (named_of h) n) v) }
{
    match h {
        Named::At(a) => past(b, a, n),
        Named::Beside(a, _) => past(b, a, n),
        Named::Object(p) => object_at(b, p, n),
        Named::Held(_) => b.emit(Code::Const(0), &[]),
    }
}

/// The length of an array or the tag of a record, where its type doesn't say.
pub fn second(b: &mut Making, h: Named) -> Result<u32, Memory>
    ensures { IfOk result (λ v. Gives b.old b.new (second (named_of h)) v) }
{
    match h {
        Named::At(_) => b.emit(Code::Const(0), &[]),
        Named::Beside(_, s) => Ok(s),
        Named::Object(p) => b.emit(Code::Load, &[p]),
        Named::Held(_) => b.emit(Code::Const(0), &[]),
    }
}

/// An array's length.
pub fn length_in(b: &mut Making, n: Option<u64>, h: Named) -> Result<u32, Memory>
    ensures { IfOk result (λ v. Gives b.old b.new (length_in n (named_of h)) v) }
{
    match n {
        Some(n) => b.emit(Code::Const(n), &[]),
        None => second(b, h),
    }
}

/// The bytes of an array's elements.
pub fn bytes_in(b: &mut Making, size: u64, n: Option<u64>, h: Named) -> Result<u32, Memory>
    requires small { size < 4294967296 }
    requires few { IfSome n (λ n. n ≤ 4294967296) }
    ensures { IfOk result (λ v. Gives b.old b.new (bytes_in size n (named_of h)) v) }
{
    match n {
        Some(n) => b.emit(Code::Const(n * size), &[]),
        None => open_bytes(b, size, h),
    }
}

// Of an open array.
fn open_bytes(b: &mut Making, size: u64, h: Named) -> Result<u32, Memory>
    ensures { IfOk result (λ v. Gives b.old b.new (bytes_in size None (named_of h)) v) }
{
    let length = second(b, h)?;
    let element = b.emit(Code::Const(size), &[])?;
    b.emit(Code::Mul, &[length, element])
}

/// The tag that goes with a record.
pub fn tag_in(b: &mut Making, descriptor: u32, h: Named) -> Result<u32, Memory>
    ensures { IfOk result (λ v. Gives b.old b.new (tag_in descriptor (named_of h)) v) }
{
    match h {
        Named::At(_) => b.emit(Code::Global(descriptor), &[]),
        _ => second(b, h),
    }
}

/// Whether a pointer's object is of a record type.
pub fn is_pointer(b: &mut Making, descriptor: u32, level: u32, p: u32) -> Result<u32, Memory>
    ensures { IfOk result (λ v. Gives b.old b.new (is_pointer descriptor level p) v) }
{
    let d = b.emit(Code::Global(descriptor), &[])?;
    b.emit(Code::IsPtr(level), &[p, d])
}

/// Whether a tag is of a record type.
pub fn is_tag(b: &mut Making, descriptor: u32, level: u32, t: u32) -> Result<u32, Memory>
    ensures { IfOk result (λ v. Gives b.old b.new (is_tag descriptor level t) v) }
{
    let d = b.emit(Code::Global(descriptor), &[])?;
    b.emit(Code::IsTag(level), &[t, d])
}

/// An operator of one operand.
pub fn one_operand(b: &mut Making, op: Unary, x: u32) -> Result<u32, Memory>
    ensures { IfOk result (λ v. Gives b.old b.new (one_operand op x) v) }
{
    let code = match op {
        Unary::Negate => Code::Neg,
        Unary::Complement => Code::Not,
        Unary::Not => Code::Flip,
        Unary::Abs => Code::Abs,
        Unary::Odd => Code::Odd,
    };
    b.emit(code, &[x])
}

/// Whether a set is in another.
fn included(b: &mut Making, x: u32, y: u32) -> Result<u32, Memory>
    ensures { IfOk result (λ v. Gives b.old b.new (Rattle.ssa_lowered.specs.Values.included x y) v) }
{
    let d = b.emit(Code::Bic, &[x, y])?;
    let z = b.emit(Code::Const(0), &[])?;
    b.emit(Code::Set(0), &[d, z])
}

/// An operator of two operands.
pub fn two_operands(b: &mut Making, op: Binary, x: u32, y: u32) -> Result<u32, Memory>
    ensures { IfOk result (λ v. Gives b.old b.new (two_operands op x y) v) }
{
    match op {
        Binary::Add => b.emit(Code::Add, &[x, y]),
        Binary::Subtract => b.emit(Code::Sub, &[x, y]),
        Binary::Multiply => b.emit(Code::Mul, &[x, y]),
        Binary::Div => b.emit(Code::Div, &[x, y]),
        Binary::Mod => b.emit(Code::Mod, &[x, y]),
        Binary::Union => b.emit(Code::Or, &[x, y]),
        Binary::Difference => b.emit(Code::Bic, &[x, y]),
        Binary::Intersection => b.emit(Code::And, &[x, y]),
        Binary::SymmetricDifference => b.emit(Code::Eor, &[x, y]),
        Binary::Subset => included(b, x, y),
        Binary::Superset => included(b, y, x),
        Binary::Lsl => b.emit(Code::Lsl, &[x, y]),
        Binary::Asr => b.emit(Code::Asr, &[x, y]),
        Binary::Ror => b.emit(Code::Ror, &[x, y]),
    }
}

/// The number of a relation's condition.
pub fn condition(r: Relation) -> u8
    ensures { result ≡ Rattle.ssa_lowered.specs.Values.condition r }
{
    match r {
        Relation::Equal => 0,
        Relation::Unequal => 1,
        Relation::Less => 11,
        Relation::LessEqual => 13,
        Relation::Greater => 12,
        Relation::GreaterEqual => 10,
    }
}

/// The variable, where it is in a register.
fn held(h: Named) -> Option<u32>
    ensures { result ≡ held_in (named_of h) }
{
    match h {
        Named::Held(x) => Some(x),
        _ => None,
    }
}

/// The value of a scalar variable, which takes one byte in memory, or eight.
pub fn read(b: &mut Making, h: Named, small: bool) -> Result<u32, Memory>
    ensures { IfOk result (λ r. (v : View) (d : Low NamedThing) → Gives v b.old d (named_of h) → Gives v b.new (load (home_of d small)) r) }
{
    match held(h) {
        Some(x) => {
            let v = b.variable(x)?;
            Ok(v)
        }
        None => {
            let a = address_in(b, h, 0)?;
            let v = b.emit(load_code(small), &[a])?;
            Ok(v)
        }
    }
}

/// The pointer is tested to be of a record type.
pub fn guard(b: &mut Making, descriptor: u32, level: u32, p: u32) -> Result<(), Memory>
    ensures { OnOk result ((v : View) (m : Low ℕ) → Gives v b.old m p → Gives v b.new (guarded m descriptor level) p) }
{
    let d = b.emit(Code::Global(descriptor), &[])?;
    b.act(Code::GuardPtr(level), &[p, d])?;
    Ok(())
}
