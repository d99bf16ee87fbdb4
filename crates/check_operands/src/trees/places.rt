//! Variables and their parts.

ghost use Rattle.std.specs.Prelude.{◌≡◌, ℕ, List, [], Option, IfOk};
ghost use Rattle.ob_types.specs.Table.{Table};
ghost use Rattle.ob_judge.specs.Image as I;
ghost use Rattle.judged_tree.specs.TypeShapes.{shape_of, shape_of_kind};
ghost use Rattle.judged_tree.specs.Plain.{plain_base, plain_expr, plain_designator, plain_selector, guarded, pointer_at};
ghost use Rattle.check_operands.specs.trees.Lists.{access_image, place_image};

use items::Items;
use ob_types::{Access, Base, Designator, Expr, Selector, TypeKind};
use std::alloc::{AllocError, Global};

/// A variable, a string, or a part of one. It stands as in the designator that it becomes, so that this takes no memory.
#[derive(Drop)]
pub enum Place {
    /// The variable or string as a whole.
    Whole(Base),
    /// A part. Its type says nothing before it becomes a designator.
    Part(Box<Access>),
}

impl Place {
    // With its selectors, to which more can be added.
    fn access(self, alloc: Global) -> Result<Box<Access>, AllocError>
        ensures { IfOk result (λ a. (t : Table) (texts : List (List ℕ)) → access_image t texts a.value ≡ place_image t texts self) }
    {
        match self {
            Place::Whole(base) => {
                let access = Access {
                    base,
                    kind: TypeKind::Nothing,
                    selectors: Vec::new(alloc),
                };
                let boxed = Box::new(alloc, access)?;
                Ok(boxed)
            }
            Place::Part(access) => Ok(access),
        }
    }

    // One selector more.
    fn with(self, alloc: Global, selector: Selector) -> Result<Place, AllocError>
        ensures { IfOk result (λ p. (t : Table) (texts : List (List ℕ)) → place_image t texts p ≡ plain_selector t texts selector (place_image t texts self)) }
    {
        let mut access = self.access(alloc)?;
        access.selectors.push(selector)?;
        Ok(Place::Part(access))
    }

    /// An element.
    pub fn index(
        self,
        alloc: Global,
        length: Option<u32>,
        element: u32,
        index: Expr,
    ) -> Result<Place, AllocError>
        ensures { IfOk result (λ p. (t : Table) (texts : List (List ℕ))
            → place_image t texts p ≡ I.Index (place_image t texts self) length (shape_of t element) (plain_expr t texts index)) }
    {
        self.with(
            alloc,
            Selector::Index {
                length,
                element,
                index,
            },
        )
    }

    /// A field.
    pub fn field(self, alloc: Global, adder: u32, number: u32) -> Result<Place, AllocError>
        ensures { IfOk result (λ p. (t : Table) (texts : List (List ℕ)) → place_image t texts p ≡ I.Field (place_image t texts self) adder number) }
    {
        self.with(
            alloc,
            Selector::Field {
                record: adder,
                field: number,
            },
        )
    }

    /// What the pointer here points to, guarded by these record types.
    pub fn dereference(self, alloc: Global, tags: Items<u32>) -> Result<Place, AllocError>
        ensures { IfOk result (λ p. (t : Table) (texts : List (List ℕ)) → place_image t texts p ≡ I.Dereference (guarded tags (pointer_at (place_image t texts self)))) }
    {
        self.with(alloc, Selector::Dereference(tags))
    }

    /// A guard of a VAR record parameter.
    pub fn narrow(self, alloc: Global, tag: u32) -> Result<Place, AllocError>
        ensures { IfOk result (λ p. (t : Table) (texts : List (List ℕ)) → place_image t texts p ≡ I.Narrow (place_image t texts self) tag) }
    {
        self.with(alloc, Selector::Narrow(tag))
    }

    /// As a designator of this type.
    pub fn designator(self, kind: TypeKind) -> Designator
        ensures { (t : Table) (texts : List (List ℕ)) → plain_designator t texts result ≡ I.of_type (place_image t texts self) (shape_of_kind t kind) }
    {
        match self {
            Place::Whole(base) => Designator::Whole(base, kind),
            Place::Part(mut access) => {
                access.kind = kind;
                Designator::Part(access)
            }
        }
    }
}
