//! Which standard procedure takes how many arguments.

ghost use Rattle.std.specs.Prelude.{◌≡◌, List, [], ◌∷◌};
ghost use Rattle.ob_judge.specs.Scopes.{place};
ghost use Rattle.ob_judge.specs.Calls.{Given as JudgedGiven, standard as judged_standard};
ghost use Rattle.check_types.specs.steps.Answers.{Answers};
ghost use Rattle.check_types.specs.names.Meaning.{standard_of};
ghost use Rattle.check_types.specs.names.Worlds.{world_of};
ghost use Rattle.check_operands.specs.Operands.{Stands};
ghost use Rattle.check_operands.specs.calls.Given.{IsGiven, AreGiven};

use crate::standard::functions::{abs, chr, len, odd, ord, shifted};
use crate::standard::made::Change;
use crate::standard::proper::{
    assert, changed_by, changed_by_one, in_char, new, out_char, out_int, out_line, out_string,
    set_changed,
};
use check_operands::Operand;
use check_operands::calls::Given;
use check_types::names::{Scope, Standard};
use check_types::steps::CheckFault;
use ob_types::Binary;
use std::alloc::Global;

// With no argument.
fn of_none<'a>(
    scope: &Scope<'a>,
    alloc: Global,
    symbol: u32,
    s: Standard,
) -> Result<Operand, CheckFault>
    ensures { Answers (Stands scope.now)
        (judged_standard (world_of scope.now) (place scope.now.source.now symbol) (standard_of s) []) result }
{
    match s {
        Standard::OutLn => out_line(scope, alloc, symbol),
        _ => Err(scope.source.fault(40, symbol)),
    }
}

// With one.
fn of_one<'a>(
    scope: &Scope<'a>,
    alloc: Global,
    symbol: u32,
    s: Standard,
    x: Given,
) -> Result<Operand, CheckFault>
    ensures { (a : JudgedGiven) → IsGiven scope.now x a →
        Answers (Stands scope.now)
        (judged_standard (world_of scope.now) (place scope.now.source.now symbol) (standard_of s) (a ∷ [])) result }
{
    match s {
        Standard::Abs => abs(scope, alloc, symbol, x),
        Standard::Odd => odd(scope, alloc, symbol, x),
        Standard::Len => len(scope, symbol, x),
        Standard::Ord => ord(scope, symbol, x),
        Standard::Chr => chr(scope, alloc, symbol, x),
        Standard::Inc => changed_by_one(scope, alloc, Change::Increase, x),
        Standard::Dec => changed_by_one(scope, alloc, Change::Decrease, x),
        Standard::New => new(scope, alloc, symbol, x),
        Standard::Assert => assert(scope, alloc, symbol, x),
        Standard::OutChar => out_char(scope, alloc, symbol, x),
        Standard::OutString => out_string(scope, alloc, symbol, x),
        Standard::InChar => in_char(scope, alloc, symbol, x),
        _ => Err(scope.source.fault(40, symbol)),
    }
}

// With two.
fn of_two<'a>(
    scope: &Scope<'a>,
    alloc: Global,
    symbol: u32,
    s: Standard,
    x: Given,
    y: Given,
) -> Result<Operand, CheckFault>
    ensures { (a b : JudgedGiven) → IsGiven scope.now x a → IsGiven scope.now y b →
        Answers (Stands scope.now)
        (judged_standard (world_of scope.now) (place scope.now.source.now symbol) (standard_of s) (a ∷ b ∷ [])) result }
{
    match s {
        Standard::Lsl => shifted(scope, alloc, Binary::Lsl, x, y),
        Standard::Asr => shifted(scope, alloc, Binary::Asr, x, y),
        Standard::Ror => shifted(scope, alloc, Binary::Ror, x, y),
        Standard::Inc => changed_by(scope, alloc, Change::Increase, x, y),
        Standard::Dec => changed_by(scope, alloc, Change::Decrease, x, y),
        Standard::Incl => set_changed(scope, alloc, Change::Include, x, y),
        Standard::Excl => set_changed(scope, alloc, Change::Exclude, x, y),
        Standard::OutInt => out_int(scope, alloc, symbol, x, y),
        _ => Err(scope.source.fault(40, symbol)),
    }
}

/// A standard procedure with these arguments: 40 for another number of them than it takes.
pub fn standard<'a>(
    scope: &Scope<'a>,
    alloc: Global,
    symbol: u32,
    s: Standard,
    given: Vec<Given>,
) -> Result<Operand, CheckFault>
    ensures { (xs : List JudgedGiven) → AreGiven scope.now given.items xs →
        Answers (Stands scope.now)
        (judged_standard (world_of scope.now) (place scope.now.source.now symbol) (standard_of s) xs) result }
{
    let mut rest = given.into_iter();
    match rest.next() {
        None => of_none(scope, alloc, symbol, s),
        Some(x) => match rest.next() {
            None => of_one(scope, alloc, symbol, s, x),
            Some(y) => match rest.next() {
                None => of_two(scope, alloc, symbol, s, x, y),
                Some(_) => Err(scope.source.fault(40, symbol)),
            },
        },
    }
}
