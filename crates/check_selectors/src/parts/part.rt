//! Variables and their parts.

ghost use Rattle.std.specs.Prelude.{◌≡◌};
ghost use Rattle.ob_judge.specs.Judged.{Keeps};
ghost use Rattle.ob_judge.specs.Operands.{Operand as Judgement, place_of as place_from};
ghost use Rattle.judged_tree.specs.Outline.{outlined_place};
ghost use Rattle.check_operands.specs.trees.Lists.{place_image};
ghost use Rattle.check_types.specs.steps.Answers.{Answers};
ghost use Rattle.check_types.specs.names.Worlds.{table_of};
ghost use Rattle.check_operands.specs.Operands.{texts_of, bases_of, Stands};
ghost use Rattle.check_selectors.specs.parts.Parts.{IsPart, Reaches};

use check_operands::trees::{Place, Value};
use check_operands::{Operand, Use, What};
use check_types::TypeRef;
use check_types::names::Scope;
use check_types::steps::CheckFault;
use items::Items;
use ob_types::{Base, Expr};
use std::alloc::Global;

/// Where a variable or a part of one is reached.
#[derive(Drop)]
pub enum Reach {
    /// There.
    Named(Place),
    /// The value of the pointer there, which has its own type and is guarded by these record types.
    Guarded {
        place: Place,
        own: TypeRef,
        tags: Items<u32>,
    },
}

/// A variable or a part of one, with its type and what may be done with it.
#[derive(Drop)]
pub struct Part {
    pub of: TypeRef,
    pub reach: Reach,
    pub usage: Use,
}

/// As an operand.
pub fn operand<'a>(scope: &Scope<'a>, alloc: Global, x: Part) -> Result<Operand, CheckFault>
    ensures { (a : Judgement) → IsPart scope.now x a → Answers (Stands scope.now) (Keeps a) result }
{
    let Part { of, reach, usage } = x;
    let what = match reach {
        Reach::Named(place) => What::Named(place),
        Reach::Guarded { place, own, tags } => {
            let pointer = Box::new(alloc, place.designator(scope.types.kind_of(own)))?;
            What::Valued(Value::new(Expr::Guard(pointer, tags)))
        }
    };
    Ok(Operand { of, what, usage })
}

/// Where it stands; a value stands nowhere.
pub fn place_of<'a>(scope: &Scope<'a>, reach: Reach) -> Place
    ensures { (a : Judgement) → Reaches scope.now reach a.what → place_image (table_of scope.now) (texts_of scope.now) result ≡ outlined_place (bases_of scope.now) (place_from a) }
{
    match reach {
        Reach::Named(place) => place,
        Reach::Guarded { .. } => Place::Whole(Base::Done),
    }
}
