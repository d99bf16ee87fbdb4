//! Lengths of arrays (Oberon-07 report, section 6.2).

ghost use Rattle.std.specs.Prelude.{◌≡◌, if◌then◌else◌, Some, None};
ghost use Rattle.ob_syntax.specs.Plain.{plain_expression, plain_each_expression};
ghost use Rattle.ob_judge.specs.Types.{array_length as judged_length, is_length, size_of};
ghost use Rattle.check_making.specs.Parts.{JudgesHere};
ghost use Rattle.check_declared.specs.Constants.{constant_part, IsValue};
ghost use Rattle.check_declared.specs.type_parts.Lengths.{IsTheLength, AreTheLengths, lengths_part, lengths_behind};

use check_expressions::constants::{ConstantValue, constant, integer};
use check_making::{Declaring, Surroundings};
use check_operands::symbols::expression_first;
use check_types::steps::CheckFault;
use ob_syntax::expressions::{Expression, NextExpression};

// A length, if an array may have it.
fn length_in(found: i64) -> Option<u32>
    ensures { result ≡ (if is_length found then Some (size_of found) else None) }
{
    if found < 1 || found > 1_048_576 {
        return None;
    }
    Some(found as u32)
}

// The value of an expression that must be constant.
fn value_at(
    state: &Declaring,
    round: &Surroundings,
    tree: &Expression,
) -> Result<ConstantValue, CheckFault>
    ensures { JudgesHere (IsValue round.now state.now) round.now state.now (constant_part round.now.source.now tree.now) result }
{
    let scope = state.scope(round);
    constant(&scope, round.alloc, tree)
}

// The length of an array: 31 unless it is a constant INTEGER, 35 unless it is from 1 to 1,048,576.
fn array_length(
    state: &Declaring,
    round: &Surroundings,
    tree: &Expression,
) -> Result<u32, CheckFault>
    ensures { JudgesHere IsTheLength round.now state.now (judged_length round.now.source.now (plain_expression tree.now)) result }
{
    let value = value_at(state, round, tree)?;
    match integer(value) {
        None => Err(round.source.fault(31, expression_first(tree))),
        Some(found) => match length_in(found) {
            None => Err(round.source.fault(35, expression_first(tree))),
            Some(length) => Ok(length),
        },
    }
}

// The lengths behind the first.
fn more_lengths(
    state: &Declaring,
    round: &Surroundings,
    more: &[NextExpression],
    first: Vec<u32>,
) -> Result<Vec<u32>, CheckFault>
    ensures { JudgesHere AreTheLengths round.now state.now
        (lengths_behind round.now.source.now first.items (plain_each_expression more.now)) result }
{
    let mut all = first;
    for next in more {
        let length = array_length(state, round, &next.expression)?;
        all.push(length)?;
    }
    Ok(all)
}

/// The lengths of an array, the last of which is the innermost array's.
pub fn array_lengths(
    state: &Declaring,
    round: &Surroundings,
    first: &Expression,
    more: &[NextExpression],
) -> Result<Vec<u32>, CheckFault>
    ensures { JudgesHere AreTheLengths round.now state.now
        (lengths_part round.now.source.now (plain_expression first.now) (plain_each_expression more.now)) result }
{
    let length = array_length(state, round, first)?;
    let mut all = Vec::new(round.alloc);
    all.push(length)?;
    more_lengths(state, round, more, all)
}
