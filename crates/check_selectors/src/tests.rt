//! Type tests by the name of a type.

ghost use Rattle.std.specs.Prelude.{◌≡◌, Some};
ghost use Rattle.ob_judge.specs.Scopes.{place};
ghost use Rattle.ob_judge.specs.Operands.{Operand as Judgement};
ghost use Rattle.ob_judge.specs.Parts.{is_test as judged_test};
ghost use Rattle.check_types.specs.steps.Answers.{Answers};
ghost use Rattle.check_types.specs.names.Worlds.{world_of};
ghost use Rattle.check_operands.specs.Operands.{Stands};

use crate::parts::tested;
use check_operands::Operand;
use check_types::names::Scope;
use check_types::steps::CheckFault;
use std::alloc::Global;

/// IS and the name of a type.
pub fn type_test<'a>(
    scope: &Scope<'a>,
    alloc: Global,
    symbol: u32,
    x: Operand,
    name: u32,
    member: Option<u32>,
) -> Result<Operand, CheckFault>
    ensures { (a : Judgement) → Stands scope.now x a →
        Answers (Stands scope.now)
        (judged_test scope.now.source.now (world_of scope.now) (Some (name, member)) (place scope.now.source.now symbol) a)
        result }
{
    let t = scope.type_named(31, name, member)?;
    tested(scope, alloc, symbol, x, t)
}
