//! What a designator begins with: a name as an operand.

ghost use Rattle.std.specs.Prelude.{◌≡◌, IfOk};
ghost use Rattle.ob_judge.specs.Judged.{Keeps};
ghost use Rattle.ob_judge.specs.Scopes.{place};
ghost use Rattle.ob_judge.specs.Operands.{Operand as Judgement, of_constant as operand_of_constant};
ghost use Rattle.ob_judge.specs.Names.{Stage as JudgedStage, object_operand as judged_object, begun as judged_beginning, finished as judged_end, variable_read as judged_read};
ghost use Rattle.check_types.specs.steps.Answers.{Answers};
ghost use Rattle.check_types.specs.names.Meaning.{object_of, variable_of, constant_of as constant_meant};
ghost use Rattle.check_types.specs.names.Worlds.{table_of, strings_of, world_of};
ghost use Rattle.check_operands.specs.Operands.{Stands};
ghost use Rattle.check_selectors.specs.Stages.{IsStage, IsBegun};

use crate::parts::{Part, operand, variable_read, whole_operand};
use crate::stage::Stage;
use check_operands::trees::Value;
use check_operands::{Operand, Use, What, constant_text, text};
use check_types::TypeRef;
use check_types::names::{Basic, Constant, Named, Scope, Variable};
use check_types::steps::CheckFault;
use ob_types::Expr;
use std::alloc::Global;

/// A variable or a part of one; or a constant or a procedure, which has no parts.
#[derive(Drop)]
pub enum Begun {
    Variable(Part),
    Value(Operand),
}

// A constant that is no string.
fn constant_bits<'a>(scope: &Scope<'a>, of: Basic, bits: u64) -> Operand
    ensures { Stands scope.now result
        (operand_of_constant (constant_meant (table_of scope.now) (strings_of scope.now) (Constant.Bits of bits))) }
{
    Operand {
        of: of.of(),
        what: What::Valued(Value::new(Expr::Literal(bits))),
        usage: Use::Constant,
    }
}

// A string constant, by its number. There is no such type for more characters than can be counted.
fn constant_chars<'a>(scope: &Scope<'a>, k: u32) -> Result<Operand, CheckFault>
    ensures { Answers (Stands scope.now)
        (Keeps (operand_of_constant (constant_meant (table_of scope.now) (strings_of scope.now) (Constant.Chars k))))
        result }
{
    let number = constant_text(scope, k)?;
    let count = text(scope, number).len();
    if count < 4294967296 {
        Ok(Operand {
            of: TypeRef::Text(count as u32),
            what: What::Chars(number),
            usage: Use::Constant,
        })
    } else {
        Err(CheckFault::Memory)
    }
}

/// A constant.
pub fn constant_operand<'a>(scope: &Scope<'a>, c: Constant) -> Result<Operand, CheckFault>
    ensures { Answers (Stands scope.now)
        (Keeps (operand_of_constant (constant_meant (table_of scope.now) (strings_of scope.now) c))) result }
{
    match c {
        Constant::Bits(of, bits) => Ok(constant_bits(scope, of, bits)),
        Constant::Chars(k) => constant_chars(scope, k),
    }
}

// What a name stands for, as an operand: 31 where it is none.
#[inline(always)]
fn object_operand<'a>(
    scope: &Scope<'a>,
    alloc: Global,
    symbol: u32,
    named: Named,
) -> Result<Begun, CheckFault>
    ensures { Answers (IsBegun scope.now)
        (judged_object scope.now.source.now (world_of scope.now) (place scope.now.source.now symbol)
        (object_of (table_of scope.now) (strings_of scope.now) named))
        result }
{
    match named {
        Named::Constant(c) => {
            let x = constant_operand(scope, c)?;
            Ok(Begun::Value(x))
        }
        Named::Variable(v) => {
            let x = variable_read(scope, alloc, v)?;
            Ok(Begun::Variable(x))
        }
        Named::Procedure {
            number,
            signature,
            is_local,
        } => Ok(Begun::Value(Operand {
            of: TypeRef::Procedure(signature),
            what: What::Code { number, is_local },
            usage: Use::Value,
        })),
        Named::Type(_) => Err(scope.source.fault(31, symbol)),
        Named::Standard(_) => Err(scope.source.fault(31, symbol)),
        Named::Module(_) => Err(scope.source.fault(31, symbol)),
    }
}

/// As an operand.
#[inline(always)]
pub fn operand_of<'a>(scope: &Scope<'a>, alloc: Global, x: Begun) -> Result<Operand, CheckFault>
    ensures { (a : Judgement) → IsBegun scope.now x a → Answers (Stands scope.now) (Keeps a) result }
{
    match x {
        Begun::Variable(part) => operand(scope, alloc, part),
        Begun::Value(value) => Ok(value),
    }
}

/// A stage with a further selector behind it: 31 behind a call.
pub fn begin<'a>(
    scope: &Scope<'a>,
    alloc: Global,
    symbol: u32,
    stage: Stage,
) -> Result<Begun, CheckFault>
    ensures { (a : JudgedStage) → IsStage scope.now stage a →
        Answers (IsBegun scope.now)
        (judged_beginning scope.now.source.now (world_of scope.now) (place scope.now.source.now symbol) a) result }
{
    match stage {
        Stage::Whole(named) => object_operand(scope, alloc, symbol, named),
        Stage::Partly(part) => Ok(Begun::Variable(part)),
        Stage::Ended(_) => Err(scope.source.fault(31, symbol)),
    }
}

// A variable alone that is narrowed, as an operand.
#[inline(never)]
fn narrowed_operand<'a>(
    scope: &Scope<'a>,
    alloc: Global,
    v: Variable,
) -> Result<Operand, CheckFault>
    ensures { Answers (Stands scope.now)
        (Keeps (judged_read scope.now.source.now (world_of scope.now) (variable_of (table_of scope.now) (strings_of scope.now) v)))
        result }
{
    let x = variable_read(scope, alloc, v)?;
    operand(scope, alloc, x)
}

// A variable alone, as an operand.
#[inline(always)]
fn variable_operand<'a>(
    scope: &Scope<'a>,
    alloc: Global,
    v: Variable,
) -> Result<Operand, CheckFault>
    ensures { Answers (Stands scope.now)
        (Keeps (judged_read scope.now.source.now (world_of scope.now) (variable_of (table_of scope.now) (strings_of scope.now) v)))
        result }
{
    match scope.narrowing(v.place) {
        None => Ok(whole_operand(scope, v)),
        Some(_) => narrowed_operand(scope, alloc, v),
    }
}

// What is no variable, as an operand.
#[inline(never)]
fn other_operand<'a>(
    scope: &Scope<'a>,
    alloc: Global,
    symbol: u32,
    named: Named,
) -> Result<Operand, CheckFault>
    ensures { Answers (Stands scope.now)
        (judged_object scope.now.source.now (world_of scope.now) (place scope.now.source.now symbol)
        (object_of (table_of scope.now) (strings_of scope.now) named))
        result }
{
    let x = object_operand(scope, alloc, symbol, named)?;
    operand_of(scope, alloc, x)
}

// A name alone, as an operand.
#[inline(always)]
fn named_operand<'a>(
    scope: &Scope<'a>,
    alloc: Global,
    symbol: u32,
    named: Named,
) -> Result<Operand, CheckFault>
    ensures { Answers (Stands scope.now)
        (judged_object scope.now.source.now (world_of scope.now) (place scope.now.source.now symbol)
        (object_of (table_of scope.now) (strings_of scope.now) named))
        result }
{
    match named {
        Named::Variable(v) => variable_operand(scope, alloc, v),
        _ => other_operand(scope, alloc, symbol, named),
    }
}

/// A stage with no further selector behind it, as an operand.
#[inline(always)]
pub fn finished<'a>(
    scope: &Scope<'a>,
    alloc: Global,
    symbol: u32,
    stage: Stage,
) -> Result<Operand, CheckFault>
    ensures { (a : JudgedStage) → IsStage scope.now stage a →
        Answers (Stands scope.now)
        (judged_end scope.now.source.now (world_of scope.now) (place scope.now.source.now symbol) a) result }
{
    match stage {
        Stage::Whole(named) => named_operand(scope, alloc, symbol, named),
        Stage::Partly(part) => operand(scope, alloc, part),
        Stage::Ended(x) => Ok(x),
    }
}
