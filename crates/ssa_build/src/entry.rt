//! How a procedure begins: its arguments, what is zeroed, and the first values of its variables.

ghost use Rattle.std.specs.Prelude.{◌≡◌, ◌-◌, ◌≤◌, map, OnOk, IfOk};
ghost use Rattle.ob_types.specs.Layout.{kind_of};
ghost use Rattle.ob_types.specs.Table.{Table};
ghost use Rattle.ssa_lowered.specs.Data.{layout};
ghost use Rattle.ssa_lowered.specs.Variables.{further as further_there, zeroing, first_value, first_of, is_structured, store_first as store_first_there, stored, opened, words_of};
ghost use Rattle.ssa_exprs.specs.Making.{Gives};
ghost use Rattle.ssa_tables.specs.Local.{seen, site_of};

use block_runs::Code;
use ob_types::{Formal, Types};
use outside::Memory;
use ssa_exprs::{Making, store_code, takes_a_byte};
use ssa_tables::{Variable, is_structured, words};

/// The argument words of all parameters.
pub fn argument_words(formals: &[Formal]) -> u32
    requires { words_of formals.now ≤ 24 }
    ensures { result ≡ words_of formals.now }
{
    let mut count: u32 = 0;
    for x in formals {
        count += words(x.mode);
    }
    count
}

/// The argument words that are no parameters of the first block.
pub fn further(b: &mut Making, words: u32) -> Result<(), Memory>
    ensures { OnOk result (Gives b.old b.new (further_there 4 (words - 4)) tt) }
{
    for i in 4..words {
        b.emit(Code::Arg(i), &[])?;
    }
    Ok(())
}

/// Where there are arrays or records, so many bytes become zeros, behind so many from the end of the local data.
pub fn zero(b: &mut Making, structured: bool, bytes: u32, zeroed: u32) -> Result<(), Memory>
    ensures { OnOk result (Gives b.old b.new (zeroing structured bytes zeroed) tt) }
{
    if structured {
        let a = b.emit(Code::Local(bytes), &[])?;
        let n = b.emit(Code::Const(u64::from(zeroed)), &[])?;
        b.act(Code::Zero, &[a, n])?;
    }
    Ok(())
}

/// A variable's first value: its argument, or 0.
fn first(b: &mut Making, word: Option<u32>) -> Result<u32, Memory>
    ensures { IfOk result (λ u. Gives b.old b.new (first_value word) u) }
{
    match word {
        Some(w) => Ok(w),
        None => b.emit(Code::Const(0), &[]),
    }
}

/// A scalar in memory gets its first value.
fn store_first(b: &mut Making, types: &Types, bytes: u32, v: Variable) -> Result<(), Memory>
    ensures { OnOk result (Gives b.old b.new (store_first_there types.now (layout types.now) bytes (seen v) (site_of v.place)) tt) }
{
    match v.place {
        None => Ok(()),
        Some(n) => {
            if is_structured(types.kind(v.type_number)) {
                return Ok(());
            }
            let a = b.emit(Code::Local(bytes.saturating_sub(n)), &[])?;
            let u = first(b, v.word)?;
            b.act(store_code(takes_a_byte(types.kind(v.type_number))), &[a, u])?;
            Ok(())
        }
    }
}

/// All of them.
pub fn store_all(
    b: &mut Making,
    types: &Types,
    bytes: u32,
    variables: &[Variable],
) -> Result<(), Memory>
    ensures { OnOk result (Gives b.old b.new (stored types.now (layout types.now) bytes (map seen variables.now)) tt) }
{
    for v in variables {
        store_first(b, types, bytes, *v)?;
    }
    Ok(())
}

/// The first value of a variable in a register; one in memory has none.
fn first_held(b: &mut Making, v: Variable) -> Result<u32, Memory>
    ensures { IfOk result (λ u. Gives b.old b.new (first_of v.word (site_of v.place)) u) }
{
    match v.place {
        None => first(b, v.word),
        Some(_) => Ok(0),
    }
}

/// The first values of all variables.
pub fn open(b: &mut Making, variables: &[Variable]) -> Result<Vec<u32>, Memory>
    ensures { IfOk result (λ env. Gives b.old b.new (opened (map seen variables.now)) env.items) }
{
    let mut env = Vec::new(b.allocator());
    for v in variables {
        let u = first_held(b, *v)?;
        env.push(u)?;
    }
    Ok(env)
}
