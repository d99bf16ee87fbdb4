//! Steps of the walk that go down no tree.

ghost use Rattle.std.specs.Prelude.{◌≡◌, option_map};
ghost use Rattle.ob_judge.specs.Shapes.{Integer, Char as CharShape};
ghost use Rattle.ob_judge.specs.Scopes.{place, symbol_at};
ghost use Rattle.ob_judge.specs.Operands.{Operand as Judgement, as_value as value_from, value as value_of};
ghost use Rattle.ob_judge.specs.Image.{Literal};
ghost use Rattle.ob_judge.specs.Symbols.{add_operator as added_by, add_symbol as symbol_of_added, mul_operator as multiplied_by, mul_symbol as symbol_of_multiplied, bare_list as judged_bare};
ghost use Rattle.ob_judge.specs.Parts.{joined as judged_operator, as_factor as judged_factor, guard_name as judged_name, int_of, char_of};
ghost use Rattle.ob_syntax.specs.Plain.{plain_list};
ghost use Rattle.check_operands.specs.symbols.Parts.{name_and_member};
ghost use Rattle.check_types.specs.steps.Answers.{Answers};
ghost use Rattle.check_types.specs.declared.names.scope.Scope.{Scope as TheScope};
ghost use Rattle.check_types.specs.names.Worlds.{world_of};
ghost use Rattle.check_operands.specs.Operands.{Stands};
ghost use Rattle.check_selectors.specs.Stages.{IsBegun};

use check_operands::operators::{Operator, joined, literal};
use check_operands::symbols::{BareName, bare_list};
use check_operands::{Operand, Use};
use check_selectors::{Begun, is_procedure};
use check_types::names::{Basic, Scope};
use check_types::steps::CheckFault;
use ob_symbol::Kind;
use ob_syntax::expressions::{AddOperator, List, MulOperator};
use std::alloc::Global;

// The value of an integer's symbol.
fn int_at<'a>(scope: &Scope<'a>, i: u32) -> u64
    ensures { result ≡ int_of (symbol_at scope.now.source.now i).kind }
{
    match scope.source.symbol(i).kind {
        Kind::Int(n) => n.cast_unsigned(),
        _ => 0,
    }
}

// The code of a character's symbol.
fn char_at<'a>(scope: &Scope<'a>, i: u32) -> u8
    ensures { result ≡ char_of (symbol_at scope.now.source.now i).kind }
{
    match scope.source.symbol(i).kind {
        Kind::Char(n) => n,
        _ => 0,
    }
}

/// An integer.
pub fn int_literal<'a>(scope: &Scope<'a>, i: u32) -> Operand
    ensures { Stands scope.now result
        (value_of Integer
        (Literal (int_of (symbol_at scope.now.source.now i).kind))) }
{
    literal(Basic::Int, int_at(scope, i))
}

/// A character.
pub fn char_literal<'a>(scope: &Scope<'a>, i: u32) -> Operand
    ensures { Stands scope.now result
        (value_of CharShape
        (Literal (char_of (symbol_at scope.now.source.now i).kind))) }
{
    literal(Basic::Char, u64::from(char_at(scope, i)))
}

/// `+`, `-` or OR between two terms.
pub fn joined_terms<'a>(
    scope: &Scope<'a>,
    alloc: Global,
    operator: &AddOperator,
    x: Operand,
    y: Operand,
) -> Result<Operand, CheckFault>
    ensures { (a b : Judgement) → Stands scope.now x a → Stands scope.now y b →
        Answers (Stands scope.now)
        (judged_operator (added_by operator.now)
        (place scope.now.source.now (symbol_of_added operator.now)) a b)
        result }
{
    match operator {
        AddOperator::Plus(symbol) => joined(scope, alloc, Operator::Plus, *symbol, x, y),
        AddOperator::Minus(symbol) => joined(scope, alloc, Operator::Minus, *symbol, x, y),
        AddOperator::Or(symbol) => joined(scope, alloc, Operator::Or, *symbol, x, y),
    }
}

/// `*`, `/`, DIV, MOD or `&` between two factors.
pub fn joined_factors<'a>(
    scope: &Scope<'a>,
    alloc: Global,
    operator: &MulOperator,
    x: Operand,
    y: Operand,
) -> Result<Operand, CheckFault>
    ensures { (a b : Judgement) → Stands scope.now x a → Stands scope.now y b →
        Answers (Stands scope.now)
        (judged_operator (multiplied_by operator.now)
        (place scope.now.source.now (symbol_of_multiplied operator.now)) a b)
        result }
{
    match operator {
        MulOperator::Times(symbol) => joined(scope, alloc, Operator::Times, *symbol, x, y),
        MulOperator::Slash(symbol) => joined(scope, alloc, Operator::Slash, *symbol, x, y),
        MulOperator::Div(symbol) => joined(scope, alloc, Operator::Div, *symbol, x, y),
        MulOperator::Mod(symbol) => joined(scope, alloc, Operator::Mod, *symbol, x, y),
        MulOperator::And(symbol) => joined(scope, alloc, Operator::And, *symbol, x, y),
    }
}

/// An operand in parentheses: a value alone.
pub fn as_value(x: Operand) -> Operand
    ensures { (s : TheScope) (a : Judgement) → Stands s x a → Stands s result (value_from a) }
{
    let Operand { of, what, .. } = x;
    Operand {
        of,
        what,
        usage: Use::Value,
    }
}

/// A designator as a factor: 31 where it has no value; 32 where a constant expression has no such factor.
#[inline(always)]
pub fn as_factor<'a>(scope: &Scope<'a>, symbol: u32, x: Operand) -> Result<Operand, CheckFault>
    ensures { (a : Judgement) → Stands scope.now x a →
        Answers (Stands scope.now)
        (judged_factor scope.now.source.now (world_of scope.now) (place scope.now.source.now symbol) a) result }
{
    if x.of.is_nothing() {
        Err(scope.source.fault(31, symbol))
    } else if scope.constant && !x.usage.is_constant() {
        Err(scope.source.fault(32, symbol))
    } else {
        Ok(x)
    }
}

/// The name of a type that a list behind an operand may be, as a guard.
pub fn guard_name<'a>(scope: &Scope<'a>, x: &Begun, list: &List) -> Option<BareName>
    ensures { (a : Judgement) → IsBegun scope.now x.now a →
        option_map name_and_member result
        ≡ judged_name a (judged_bare (plain_list list.now)) }
{
    if is_procedure(scope, x) {
        None
    } else {
        bare_list(list)
    }
}
