//! Bodies.

ghost use Rattle.ob_syntax.specs.Plain.{plain_option, plain_body};
ghost use Rattle.ob_judge.specs.Statements.{body_of as judged_body};
ghost use Rattle.check_types.specs.steps.Answers.{Answers};
ghost use Rattle.check_types.specs.names.Worlds.{world_of};
ghost use Rattle.check_statements.specs.Standing.{AreStatements};

use crate::walk::statements;
use check_types::names::Scope;
use check_types::steps::CheckFault;
use ob_syntax::statements::Body;
use ob_types::Stmt;
use std::alloc::Global;

/// The body of a procedure or a module: no statement where there is no BEGIN.
pub fn body_of<'a>(
    scope: &Scope<'a>,
    alloc: Global,
    tree: &Option<Body>,
) -> Result<Vec<Stmt>, CheckFault>
    ensures { Answers (AreStatements scope.now)
        (judged_body scope.now.source.now (world_of scope.now) (plain_option plain_body tree.now)) result }
{
    match tree {
        None => Ok(Vec::new(alloc)),
        Some(body) => statements(scope, alloc, &body.stats),
    }
}
