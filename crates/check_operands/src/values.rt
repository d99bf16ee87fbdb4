//! Operands as values and as designators.

ghost use Rattle.std.specs.Prelude.{◌≡◌};
ghost use Rattle.ob_judge.specs.Operands.{Operand as Judgement, form as form_of, designator_of as designator_from, checked as checked_from, value_shape};
ghost use Rattle.judged_tree.specs.TypeShapes.{shape_of_kind};
ghost use Rattle.check_types.specs.TypeMeaning.{type_shape};
ghost use Rattle.judged_tree.specs.Plain.{plain_expr, plain_designator, plain_checked};
ghost use Rattle.judged_tree.specs.Outline.{outlined_expr, outlined_designator, outlined_checked, outlined_shape};
ghost use Rattle.check_types.specs.names.Worlds.{table_of};
ghost use Rattle.check_operands.specs.Operands.{texts_of, bases_of, first_or_none, Stands};

use crate::operand::{Operand, What};
use crate::texts::{known_text, text};
use check_types::TypeRef;
use check_types::names::Scope;
use ob_types::{Base, Checked, Designator, Expr, TypeKind};

// The first of some characters, or 0.
fn first_or_zero(characters: &[u8]) -> u64
    ensures { result ≡ first_or_none characters.now }
{
    match characters.first() {
        Some(c) => u64::from(*c),
        None => 0,
    }
}

/// An operand's value: a string of one character is that character.
pub fn form<'a>(scope: &Scope<'a>, x: Operand) -> Expr
    ensures { (a : Judgement) → Stands scope.now x a → plain_expr (table_of scope.now) (texts_of scope.now) result ≡ outlined_expr (bases_of scope.now) (form_of a) }
{
    let Operand { of, what, .. } = x;
    match what {
        What::Named(place) => Expr::Load(place.designator(scope.types.kind_of(of))),
        What::Valued(value) => value.into_tree(),
        What::Chars(n) => Expr::Literal(first_or_zero(text(scope, n))),
        What::Code { number, .. } => Expr::Routine(number),
        What::Proper(_) => Expr::Literal(0),
    }
}

/// Where an operand stands, with its type: a string is an array of its characters and a 0X.
pub fn designator<'a>(scope: &Scope<'a>, x: Operand) -> Designator
    ensures { (a : Judgement) → Stands scope.now x a
        → plain_designator (table_of scope.now) (texts_of scope.now) result ≡ outlined_designator (bases_of scope.now)
        (designator_from a) }
{
    let Operand { of, what, .. } = x;
    let kind = scope.types.kind_of(of);
    match what {
        What::Named(place) => place.designator(kind),
        What::Chars(n) => Designator::Whole(Base::Text(known_text(scope, n)), kind),
        What::Valued(_) => Designator::Whole(Base::Done, kind),
        What::Code { .. } => Designator::Whole(Base::Done, kind),
        What::Proper(_) => Designator::Whole(Base::Done, kind),
    }
}

// The type of a value: a string's is CHAR.
fn value_kind<'a>(scope: &Scope<'a>, of: TypeRef) -> TypeKind
    ensures { shape_of_kind (table_of scope.now) result ≡ outlined_shape (bases_of scope.now) (value_shape (type_shape (table_of scope.now) of)) }
{
    match of {
        TypeRef::Text(_) => TypeKind::Char,
        _ => scope.types.kind_of(of),
    }
}

/// A whole expression: a string is a CHAR.
pub fn checked<'a>(scope: &Scope<'a>, x: Operand) -> Checked
    ensures { (a : Judgement) → Stands scope.now x a → plain_checked (table_of scope.now) (texts_of scope.now) result ≡ outlined_checked (bases_of scope.now) (checked_from a) }
{
    let kind = value_kind(scope, x.of);
    Checked {
        form: form(scope, x),
        kind,
    }
}
