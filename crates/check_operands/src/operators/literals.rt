//! Literals, and values in general.

ghost use Rattle.std.specs.Prelude.{◌≡◌};
ghost use Rattle.ob_judge.specs.Shapes.{Shape};
ghost use Rattle.ob_judge.specs.Image.{Literal};
ghost use Rattle.ob_judge.specs.Image.{Expr as Image};
ghost use Rattle.ob_judge.specs.Operands.{value as value_of};
ghost use Rattle.ob_judge.specs.Parts.{text_literal as judged_text};
ghost use Rattle.ob_judge.specs.Scopes.{characters};
ghost use Rattle.check_types.specs.steps.Answers.{Gives};
ghost use Rattle.check_types.specs.declared.names.scope.Scope.{Scope as TheScope};
ghost use Rattle.check_types.specs.names.Basics.{basic_shape};
ghost use Rattle.check_types.specs.names.Worlds.{table_of};
ghost use Rattle.check_types.specs.TypeMeaning.{type_shape};
ghost use Rattle.check_operands.specs.Operands.{Stands};
ghost use Rattle.check_operands.specs.operators.Judged.{IsTree};

use crate::trees::Value;
use crate::{Operand, Use, What, literal_text};
use check_types::TypeRef;
use check_types::names::{Basic, Scope};
use ob_types::Expr;

/// A value of this type, with this tree.
pub fn value(of: TypeRef, tree: Expr) -> Operand
    ensures { (s : TheScope) (shape : Shape) (x : Image) → type_shape (table_of s) of ≡ shape → IsTree s tree x → Stands s result (value_of shape x) }
{
    Operand {
        of,
        what: What::Valued(Value::new(tree)),
        usage: Use::Value,
    }
}

/// A literal by its 64 bits.
pub fn literal(of: Basic, bits: u64) -> Operand
    ensures { (s : TheScope) → Stands s result (value_of (basic_shape of) (Literal bits)) }
{
    value(of.of(), Expr::Literal(bits))
}

/// A string.
pub fn text_literal<'a>(scope: &Scope<'a>, i: u32) -> Operand
    ensures { Gives (Stands scope.now) (judged_text (characters scope.now.source.now i)) result }
{
    let number = literal_text(scope, i);
    Operand {
        of: TypeRef::Text(scope.source.characters_count(i)),
        what: What::Chars(number),
        usage: Use::Value,
    }
}
