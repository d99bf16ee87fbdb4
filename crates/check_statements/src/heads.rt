//! FOR before its body.

ghost use Rattle.std.specs.Prelude.{◌≡◌};
ghost use Rattle.ob_syntax.specs.Plain.{plain_expression, plain_option, plain_by};
ghost use Rattle.ob_judge.specs.Image.{Designator as JudgedVariable};
ghost use Rattle.ob_judge.specs.Operands.{Operand as Judgement};
ghost use Rattle.judged_tree.specs.Plain.{plain_designator};
ghost use Rattle.judged_tree.specs.Outline.{outlined_designator};
ghost use Rattle.check_statements.specs.steps.Steps.{head as judged_head};
ghost use Rattle.check_types.specs.steps.Answers.{Answers};
ghost use Rattle.check_types.specs.names.Worlds.{table_of, world_of};
ghost use Rattle.check_operands.specs.Operands.{texts_of, bases_of, Stands};
ghost use Rattle.check_statements.specs.Standing.{IsHead, counted as judged_count};

use crate::assignments::{control_variable, number, step};
use check_expressions::expression;
use check_operands::symbols::expression_first;
use check_operands::{Operand, checked};
use check_types::names::Scope;
use check_types::steps::CheckFault;
use ob_syntax::expressions::Expression;
use ob_syntax::statements::By;
use ob_types::{Checked, Designator};
use std::alloc::Global;

/// What stands before DO: the variable, its first value, its limit and its step.
#[derive(Drop)]
pub struct Head {
    pub variable: Designator,
    pub first: Checked,
    pub limit: Checked,
    pub step: i64,
}

// The first value of this variable, its limit and its step: 31 unless both are numbers, and the rules of the step.
fn counted<'a>(
    scope: &Scope<'a>,
    alloc: Global,
    variable: Designator,
    x: Operand,
    from: &Expression,
    to: &Expression,
    by: &Option<By>,
) -> Result<Head, CheckFault>
    ensures { (d : JudgedVariable) (a : Judgement) →
        plain_designator (table_of scope.now) (texts_of scope.now) variable ≡ outlined_designator (bases_of scope.now) d →
        Stands scope.now x a →
        Answers (IsHead scope.now)
        (judged_count scope.now.source.now (world_of scope.now) d a (plain_expression from.now) (plain_expression to.now)
        (plain_option plain_by by.now))
        result }
{
    if x.of.is_number() {
        let limit = number(scope, alloc, to)?;
        let step = step(scope, alloc, by)?;
        Ok(Head {
            variable,
            first: checked(scope, x),
            limit,
            step,
        })
    } else {
        Err(scope.source.fault(31, expression_first(from)))
    }
}

/// FOR before DO: 31 at a name that isn't a variable of type INTEGER.
pub fn for_head<'a>(
    scope: &Scope<'a>,
    alloc: Global,
    symbol: u32,
    from: &Expression,
    to: &Expression,
    by: &Option<By>,
) -> Result<Head, CheckFault>
    ensures { Answers (IsHead scope.now)
        (judged_head scope.now.source.now (world_of scope.now) symbol (plain_expression from.now) (plain_expression to.now)
        (plain_option plain_by by.now))
        result }
{
    let named = scope.named(symbol)?;
    let x = expression(scope, alloc, from)?;
    match control_variable(scope, named) {
        None => Err(scope.source.fault(31, symbol)),
        Some(variable) => counted(scope, alloc, variable, x, from, to, by),
    }
}
