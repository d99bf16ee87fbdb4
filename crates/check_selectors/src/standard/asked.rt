//! What standard procedures ask of their arguments.

ghost use Rattle.std.specs.Prelude.{◌≡◌};
ghost use Rattle.ob_judge.specs.Calls.{Given as JudgedGiven, assigned_to as judged_assigned, written as judged_written};
ghost use Rattle.check_types.specs.steps.Answers.{Answers};
ghost use Rattle.check_types.specs.TypeMeaning.{type_shape};
ghost use Rattle.check_types.specs.names.Worlds.{table_of, world_of};
ghost use Rattle.check_operands.specs.calls.Given.{IsGiven};
ghost use Rattle.check_selectors.specs.standard.Made.{IsChecked, IsKept};

use check_operands::calls::{Given, may_assign, stored};
use check_types::TypeRef;
use check_types::names::Scope;
use check_types::steps::CheckFault;
use ob_types::Checked;
use std::alloc::Global;

/// What may be assigned to this type, as it is stored there: else 31.
pub fn assigned_to<'a>(
    scope: &Scope<'a>,
    alloc: Global,
    to: TypeRef,
    x: Given,
) -> Result<Checked, CheckFault>
    ensures { (a : JudgedGiven) → IsGiven scope.now x a →
        Answers (IsChecked scope.now) (judged_assigned (world_of scope.now) (type_shape (table_of scope.now) to) a) result }
{
    let Given { symbol, operand } = x;
    if may_assign(scope, to, &operand) {
        let value = stored(scope, alloc, to, operand)?;
        Ok(value)
    } else {
        Err(scope.source.fault(31, symbol))
    }
}

/// A variable that may be written: else 40 or 33.
pub fn written<'a>(scope: &Scope<'a>, x: &Given) -> Result<(), CheckFault>
    ensures { (a : JudgedGiven) → IsGiven scope.now x.now a → Answers IsKept (judged_written a) result }
{
    if !x.operand.usage.is_variable() {
        Err(scope.source.fault(40, x.symbol))
    } else if x.operand.usage.is_read_only() {
        Err(scope.source.fault(33, x.symbol))
    } else {
        Ok(())
    }
}
