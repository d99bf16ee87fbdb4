//! Selectors without expressions.

ghost use Rattle.std.specs.Prelude.{◌≡◌, ℕ};
ghost use Rattle.ob_syntax.specs.Syntax.{Field as FieldSyntax, Arrow as ArrowSyntax, EmptyParens as EmptySyntax};
ghost use Rattle.ob_judge.specs.Scopes.{place};
ghost use Rattle.ob_judge.specs.Operands.{Operand as Judgement};
ghost use Rattle.ob_judge.specs.Names.{Stage as JudgedStage};
ghost use Rattle.ob_judge.specs.Parts.{field as judged_field, target as judged_target};
ghost use Rattle.ob_judge.specs.Expressions.{select as judged_select};
ghost use Rattle.check_selectors.specs.Behind.{member_behind, field_behind};
ghost use Rattle.check_types.specs.steps.Answers.{Answers};
ghost use Rattle.check_types.specs.names.Meaning.{imported_of};
ghost use Rattle.check_types.specs.names.Worlds.{world_of};
ghost use Rattle.check_selectors.specs.parts.Parts.{IsPart};
ghost use Rattle.check_selectors.specs.Stages.{IsStage, IsBegun};

use crate::begun::{Begun, begin};
use crate::lists::{called_last, standard_last};
use crate::parts::{Part, field, target};
use crate::stage::{Stage, module_of, standard_of};
use check_types::names::{Imported, Scope};
use check_types::steps::CheckFault;
use std::alloc::Global;

// A field of what stands before it.
fn field_of<'a>(
    scope: &Scope<'a>,
    alloc: Global,
    symbol: u32,
    i: u32,
    x: Begun,
) -> Result<Part, CheckFault>
    ensures { (a : Judgement) → IsBegun scope.now x a →
        Answers (IsPart scope.now)
        (judged_field scope.now.source.now (world_of scope.now) (place scope.now.source.now symbol) i a) result }
{
    match x {
        Begun::Variable(part) => field(scope, alloc, symbol, i, part),
        Begun::Value(_) => Err(scope.source.fault(31, symbol)),
    }
}

// What stands before it points to.
fn target_of<'a>(
    scope: &Scope<'a>,
    alloc: Global,
    symbol: u32,
    x: Begun,
) -> Result<Part, CheckFault>
    ensures { (a : Judgement) → IsBegun scope.now x a →
        Answers (IsPart scope.now)
        (judged_target scope.now.source.now (world_of scope.now) (place scope.now.source.now symbol) a) result }
{
    match x {
        Begun::Variable(part) => target(scope, alloc, symbol, part),
        Begun::Value(_) => Err(scope.source.fault(31, symbol)),
    }
}

// A field of a stage that isn't a module.
fn field_at<'a>(
    scope: &Scope<'a>,
    alloc: Global,
    symbol: u32,
    i: u32,
    stage: Stage,
) -> Result<Stage, CheckFault>
    ensures { (a : JudgedStage) → IsStage scope.now stage a →
        Answers (IsStage scope.now) (field_behind scope.now.source.now (world_of scope.now) (place scope.now.source.now symbol) i a) result }
{
    let x = begin(scope, alloc, symbol, stage)?;
    let part = field_of(scope, alloc, symbol, i, x)?;
    Ok(Stage::Partly(part))
}

// A name of a module.
fn member_at<'a>(scope: &Scope<'a>, imported: Imported, i: u32) -> Result<Stage, CheckFault>
    ensures { Answers (IsStage scope.now) (member_behind scope.now.source.now (world_of scope.now) (imported_of imported) i) result }
{
    let named = scope.member(imported, i)?;
    Ok(Stage::Whole(named))
}

/// `.` and a name: a name of a module, or a field.
pub fn select_field<'a>(
    scope: &Scope<'a>,
    alloc: Global,
    symbol: u32,
    stage: Stage,
    i: u32,
) -> Result<Stage, CheckFault>
    ensures { (a : JudgedStage) (period : ℕ) → IsStage scope.now stage a →
        Answers (IsStage scope.now)
        (judged_select scope.now.source.now (world_of scope.now) (place scope.now.source.now symbol) a (FieldSyntax period i))
        result }
{
    match module_of(scope, &stage) {
        Some(imported) => member_at(scope, imported, i),
        None => field_at(scope, alloc, symbol, i, stage),
    }
}

/// `^`.
pub fn select_arrow<'a>(
    scope: &Scope<'a>,
    alloc: Global,
    symbol: u32,
    stage: Stage,
) -> Result<Stage, CheckFault>
    ensures { (a : JudgedStage) (arrow : ℕ) → IsStage scope.now stage a →
        Answers (IsStage scope.now)
        (judged_select scope.now.source.now (world_of scope.now) (place scope.now.source.now symbol) a (ArrowSyntax arrow))
        result }
{
    let x = begin(scope, alloc, symbol, stage)?;
    let part = target_of(scope, alloc, symbol, x)?;
    Ok(Stage::Partly(part))
}

/// `()`: a call without arguments.
pub fn select_empty_parens<'a>(
    scope: &Scope<'a>,
    alloc: Global,
    symbol: u32,
    stage: Stage,
) -> Result<Stage, CheckFault>
    ensures { (a : JudgedStage) (left_paren right_paren : ℕ) → IsStage scope.now stage a →
        Answers (IsStage scope.now)
        (judged_select scope.now.source.now (world_of scope.now) (place scope.now.source.now symbol) a
        (EmptySyntax left_paren right_paren))
        result }
{
    match standard_of(scope, &stage) {
        Some(s) => standard_last(scope, alloc, symbol, s, Vec::new(alloc)),
        None => {
            let x = begin(scope, alloc, symbol, stage)?;
            called_last(scope, alloc, symbol, x, Vec::new(alloc))
        }
    }
}
