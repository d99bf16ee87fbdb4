//! Scalar variables, in registers and in memory.

ghost use Rattle.std.specs.Prelude.{◌≡◌, IfOk, OnOk, [], ◌∷◌};
ghost use Rattle.ssa_lowered.specs.Values.{current, change, home_in};
ghost use Rattle.ssa_exprs.specs.Making.{Gives};
ghost use Rattle.ssa_exprs.specs.Named.{named_of};
ghost use Rattle.ssa_statements.specs.Homes.{home_value};
ghost use Rattle.ssa_statements.specs.Steps.{Steps};

use block_runs::Code;
use outside::Memory;
use ssa_exprs::{Making, Named, load_code, store_code};

/// Where a scalar variable is.
#[derive(Clone, Copy)]
pub enum Home {
    /// In a register, by the variable's number.
    Register(u32),
    /// In memory, by the value that is its address, and whether it takes one byte.
    Memory(u32, bool),
}

/// Where the scalar variable is that a designator names, which takes one byte in memory, or eight.
pub fn home_at(b: &mut Making, h: Named, small: bool) -> Result<Home, Memory>
    ensures { IfOk result (λ r. Gives b.old b.new (home_in small (named_of h)) (home_value r)) }
{
    match h {
        Named::Held(x) => Ok(Home::Register(x)),
        Named::At(a) => Ok(Home::Memory(a, small)),
        Named::Beside(a, _) => Ok(Home::Memory(a, small)),
        Named::Object(p) => {
            let a = b.emit(Code::Plus(8), &[p])?;
            Ok(Home::Memory(a, small))
        }
    }
}

/// The value of a variable.
pub fn current(b: &mut Making, h: Home) -> Result<u32, Memory>
    ensures { IfOk result (λ v. Gives b.old b.new (current (home_value h)) v) }
{
    match h {
        Home::Register(x) => b.variable(x),
        Home::Memory(a, small) => {
            let v = b.emit(load_code(small), &[a])?;
            Ok(v)
        }
    }
}

/// A variable gets a value.
pub fn change(b: &mut Making, h: Home, v: u32) -> Result<(), Memory>
    ensures { OnOk result (Steps b.old b.new (change (home_value h) v)) }
{
    match h {
        Home::Register(x) => b.assign(x, v)?,
        Home::Memory(a, small) => b.act(store_code(small), &[a, v])?,
    }
    Ok(())
}
