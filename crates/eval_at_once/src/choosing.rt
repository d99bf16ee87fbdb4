//! Which of some branches is chosen.

ghost use Rattle.run_laws.specs.Turns.{give};
ghost use Rattle.ob_types.specs.Statements.{test as the_test};
ghost use Rattle.ob_types.specs.Meaning.{at_most, effects_of};
ghost use Rattle.eval_store.specs.Did.{AtOnce};
ghost use Rattle.eval_at_once.specs.Here.{here_of, value_in};
ghost use Rattle.eval_at_once.specs.Lists.{branches_by};
ghost use Rattle.eval_at_once.specs.AtOnce.{Chose, IsAmong};

use crate::active::Active;
use crate::values::value;
use eval_layouts::LaidProgram;
use eval_store::{Stop, World};
use ob_types::{Branch, Expr, Stmt};

/// What is known of a choice.
#[derive(Drop)]
pub enum Choice<'a> {
    /// This is done.
    Body(&'a [Stmt]),
    /// No branch is.
    Nothing,
    /// A condition has a call.
    Unknown,
}

/// Whether an expression holds; none where it has a call.
#[inline]
pub fn test(
    laid: &LaidProgram,
    active: &Active,
    world: &World,
    e: &Expr,
) -> Result<Option<bool>, Stop>
    ensures { AtOnce (the_test (value_in laid.now active.now e.now) world.now) result world.now }
{
    match value(laid, active, world, e) {
        Err(stop) => Err(stop),
        Ok(None) => Ok(None),
        Ok(Some(c)) => match world.test(c) {
            Err(stop) => Err(stop),
            Ok(answer) => Ok(Some(answer)),
        },
    }
}

/// The first branch whose condition holds.
pub fn choose<'a>(
    laid: &LaidProgram,
    active: &Active,
    world: &World,
    branches: &'a [Branch],
) -> Result<Choice<'a>, Stop>
    ensures chose { Chose (effects_of laid.now (at_most laid.now active.now.fuel) (here_of active.now) active.now.fuel)
        (branches_by laid.now (at_most laid.now active.now.fuel) (here_of active.now) active.now.fuel branches.now world.now) result world.now }
    ensures among { IsAmong branches.now result }
{
    for branch in branches {
        match test(laid, active, world, &branch.condition.form) {
            Err(stop) => return Err(stop),
            Ok(None) => return Ok(Choice::Unknown),
            Ok(Some(holds)) => {
                if holds {
                    return Ok(Choice::Body(branch.body.as_slice()));
                }
            }
        }
    }
    Ok(Choice::Nothing)
}
