//! What standard procedures make.

ghost use Rattle.std.specs.Prelude.{◌≡◌, ℕ, List, IfOk};
ghost use Rattle.ob_types.specs.Table.{Table};
ghost use Rattle.ob_judge.specs.Shapes.{Shape, Nothing};
ghost use Rattle.ob_judge.specs.Image.{Expr as Image, Statement as StatementImage};
ghost use Rattle.ob_judge.specs.Operands.{operand as operand_of, Valued, Proper, AsConstant, AsValue};
ghost use Rattle.judged_tree.specs.Plain.{plain_expr, plain_statement, plain_designator, plain_checked};
ghost use Rattle.judged_tree.specs.Outline.{outlined_expr, outlined_statement};
ghost use Rattle.check_types.specs.declared.names.scope.Scope.{Scope as TheScope};
ghost use Rattle.check_types.specs.names.Worlds.{table_of};
ghost use Rattle.check_types.specs.TypeMeaning.{type_shape};
ghost use Rattle.check_operands.specs.Operands.{texts_of, bases_of, Stands};
ghost use Rattle.check_selectors.specs.standard.Made.{changed_by};

use check_operands::trees::Value;
use check_operands::{Operand, Use, What};
use check_types::TypeRef;
use ob_types::{Checked, Designator, Expr, Stmt};
use std::alloc::{AllocError, Global};

/// The value of a function that a constant expression may have.
pub fn function(of: TypeRef, tree: Expr) -> Operand
    ensures { (s : TheScope) (shape : Shape) (x : Image) → type_shape (table_of s) of ≡ shape →
        plain_expr (table_of s) (texts_of s) tree ≡ outlined_expr (bases_of s) x →
        Stands s result (operand_of shape (Valued x) AsConstant) }
{
    Operand {
        of,
        what: What::Valued(Value::new(tree)),
        usage: Use::Constant,
    }
}

/// The call of a proper procedure, as this statement.
pub fn proper(alloc: Global, made: Stmt) -> Result<Operand, AllocError>
    ensures { IfOk result (λ o. (s : TheScope) (d : StatementImage) →
        plain_statement (table_of s) (texts_of s) made ≡ outlined_statement (bases_of s) d →
        Stands s o (operand_of Nothing (Proper d) AsValue)) }
{
    let held = Box::new(alloc, made)?;
    Ok(Operand {
        of: TypeRef::Nothing,
        what: What::Proper(held),
        usage: Use::Value,
    })
}

/// What is done to a variable by a number.
#[derive(Clone, Copy)]
pub enum Change {
    /// INC.
    Increase,
    /// DEC.
    Decrease,
    /// INCL.
    Include,
    /// EXCL.
    Exclude,
}

impl Change {
    /// The statement.
    pub fn of(self, variable: Designator, by: Checked) -> Stmt
        ensures { (t : Table) (texts : List (List ℕ)) →
            plain_statement t texts result ≡ changed_by self (plain_designator t texts variable) (plain_checked t texts by) }
    {
        match self {
            Change::Increase => Stmt::Increase(variable, by),
            Change::Decrease => Stmt::Decrease(variable, by),
            Change::Include => Stmt::Include(variable, by),
            Change::Exclude => Stmt::Exclude(variable, by),
        }
    }
}
