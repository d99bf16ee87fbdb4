//! One statement more.

ghost use Rattle.std.specs.Prelude.{◌≡◌, ℕ, List, IfOk};
ghost use Rattle.ob_types.specs.Table.{Table};
ghost use Rattle.ob_judge.specs.Image.{Statements};
ghost use Rattle.check_statements.specs.trees.Onto.{statements_onto};
ghost use Rattle.check_statements.specs.Standing.{put_made};

use crate::trees::with_statement;
use ob_types::Stmt;
use std::alloc::AllocError;

/// Statements and what a further one puts behind them, if it isn't empty.
pub fn with_put(so_far: Vec<Stmt>, made: Option<Stmt>) -> Result<Vec<Stmt>, AllocError>
    ensures { IfOk result (λ v. (t : Table) (texts : List (List ℕ)) (rest : Statements) →
        statements_onto t texts v.items rest ≡ statements_onto t texts so_far.items (put_made t texts made rest)) }
{
    match made {
        None => Ok(so_far),
        Some(one) => {
            let all = with_statement(so_far, one)?;
            Ok(all)
        }
    }
}
