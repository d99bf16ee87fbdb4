//! Constants judged.

ghost use Rattle.std.specs.Prelude.{◌≡◌, List, ℕ, true, option_map, slice_index_or, []};
ghost use Rattle.ob_types.specs.Table.{Table};
ghost use Rattle.ob_syntax.specs.Plain.{plain_expression};
ghost use Rattle.ob_judge.specs.Operands.{Operand as Judgement, What as JudgedWhat, constant_in};
ghost use Rattle.ob_judge.specs.Assignments.{int_only};
ghost use Rattle.ob_judge.specs.Expressions.{constant as judged_constant};
ghost use Rattle.check_types.specs.steps.Answers.{Answers};
ghost use Rattle.check_types.specs.TypeMeaning.{type_shape};
ghost use Rattle.check_types.specs.names.Basics.{basic_shape};
ghost use Rattle.check_types.specs.names.Worlds.{table_of, world_of};
ghost use Rattle.check_operands.specs.Operands.{texts_of, bases_of, what_image, outlined_what, Stands};
ghost use Rattle.check_expressions.specs.constants.Constants.{basic_in, is_plain, chars_in, constant_meant, IsConstant};

use crate::expression;
use crate::folding::fold;
use check_operands::symbols::expression_first;
use check_operands::{Operand, What, form};
use check_types::TypeRef;
use check_types::names::{Basic, Scope};
use check_types::steps::CheckFault;
use ob_syntax::expressions::Expression;
use std::alloc::Global;

/// A constant's value: its type and 64 bits, or a string, by the number of its characters among the scope's texts.
#[derive(Clone, Copy)]
pub enum ConstantValue {
    Bits(Basic, u64),
    Chars(u32),
}

// The type of a constant that is no string.
fn basic(of: TypeRef) -> Option<Basic>
    ensures { (t : Table) → option_map basic_shape result ≡ basic_in (type_shape t of) }
{
    match of {
        TypeRef::Int => Some(Basic::Int),
        TypeRef::Bool => Some(Basic::Bool),
        TypeRef::Char => Some(Basic::Char),
        TypeRef::Byte => Some(Basic::Byte),
        TypeRef::Set => Some(Basic::Set),
        TypeRef::Nil => Some(Basic::Nil),
        _ => None,
    }
}

// The number of a string's characters.
fn text_number<'a>(scope: &Scope<'a>, what: &What) -> Option<u32>
    ensures { (w : JudgedWhat) → what_image (table_of scope.now) (texts_of scope.now) what.now ≡ outlined_what (bases_of scope.now) w →
        option_map (λ n. slice_index_or (texts_of scope.now) n []) result ≡ chars_in w }
{
    match what {
        What::Chars(number) => Some(*number),
        _ => None,
    }
}

// The value of what is no string.
fn bits<'a>(scope: &Scope<'a>, x: Operand) -> Option<ConstantValue>
    ensures { (a : Judgement) → Stands scope.now x a → is_plain a.shape a.what ≡ true → chars_in a.what ≡ None →
        option_map (constant_meant (texts_of scope.now)) result ≡ constant_in a.shape a.what }
{
    let of = basic(x.of)?;
    let tree = form(scope, x);
    let value = fold(&tree)?;
    Some(ConstantValue::Bits(of, value))
}

// The value of a constant expression's operand.
fn value_of<'a>(scope: &Scope<'a>, x: Operand) -> Option<ConstantValue>
    ensures { (a : Judgement) → Stands scope.now x a → is_plain a.shape a.what ≡ true →
        option_map (constant_meant (texts_of scope.now)) result ≡ constant_in a.shape a.what }
{
    match text_number(scope, &x.what) {
        Some(number) => Some(ConstantValue::Chars(number)),
        None => bits(scope, x),
    }
}

// The same scope, where a constant is asked for.
fn for_constants<'a>(scope: &Scope<'a>) -> Scope<'a>
    ensures { result ≡ record scope.now { constant = true } }
{
    Scope {
        source: scope.source,
        types: scope.types,
        strings: scope.strings,
        modules: scope.modules,
        levels: scope.levels,
        closed: scope.closed,
        narrowed: scope.narrowed,
        module_number: scope.module_number,
        procedure: scope.procedure,
        constant: true,
    }
}

/// The value of an expression where a constant is asked for: 32 at a part that isn't constant, 35 at the expression where
/// its value would trap.
pub fn constant<'a>(
    scope: &Scope<'a>,
    alloc: Global,
    tree: &Expression,
) -> Result<ConstantValue, CheckFault>
    ensures { Answers (IsConstant scope.now)
        (judged_constant scope.now.source.now (world_of scope.now) (plain_expression tree.now)) result }
{
    let inner = for_constants(scope);
    let x = expression(&inner, alloc, tree)?;
    match value_of(&inner, x) {
        Some(value) => Ok(value),
        None => Err(scope.source.fault(35, expression_first(tree))),
    }
}

/// The number that a constant of type INTEGER is.
pub fn integer(value: ConstantValue) -> Option<i64>
    ensures { (texts : List (List ℕ)) → result ≡ int_only (constant_meant texts value) }
{
    match value {
        ConstantValue::Bits(Basic::Int, bits) => Some(bits.cast_signed()),
        _ => None,
    }
}
