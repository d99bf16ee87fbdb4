//! Where a table of types keeps what the checker keeps of it, what it says by number is what the judgement says of the
//! numbers' shapes.

ghost use Rattle.std.specs.Prelude.{◌≡◌, ◌<◌, ℕ, length};
ghost use Rattle.ob_types.specs.Table.{Table};
ghost use Rattle.ob_types.specs.Layout.{cells as cells_of_type};
ghost use Rattle.ob_types.specs.Assignable.{same as same_type, extends as extends_type, assignable as may_assign};
ghost use Rattle.ob_types.specs.Counted.{IsCounted, HasOneNumberEach};
ghost use Rattle.ob_types.specs.Forms.{types_fine};
ghost use Rattle.std.specs.Prelude.{true};
ghost use Rattle.ob_judge.specs.Shapes.{Known, same, extends, cells, assignable};
ghost use Rattle.judged_tree.specs.TypeShapes.{shape_of};
ghost use Rattle.judged_tree.specs.Tables.{IsFromTheFront, HasEachOnce, HasOneShapeEach, Knows};

/// Where each entry names earlier ones and no two say the same, types that are the same have one number.
pub fn each_has_one_number()
    ensures { (t : Table) → IsFromTheFront t → HasEachOnce t → HasOneNumberEach t }
{}

/// And so have types of one shape.
pub fn each_has_one_shape()
    ensures { (t : Table) → IsFromTheFront t → HasEachOnce t → HasOneShapeEach t }
{}

/// Two types are the same where their shapes are.
pub fn same_agrees()
    ensures { (t : Table) → HasOneNumberEach t → HasOneShapeEach t
        → (a b : ℕ) → a < length t.kinds → b < length t.kinds → same_type t a b ≡ same (shape_of t a) (shape_of t b) }
{}

/// A type extends another where its shape does.
pub fn extends_agrees()
    ensures { (t : Table) (known : Known) → Knows known t → types_fine t ≡ true → IsFromTheFront t
        → (a b : ℕ) → a < length t.kinds → b < length t.kinds → extends_type t a b ≡ extends known (shape_of t a) (shape_of t b) }
{}

/// One type may be assigned to another where their shapes may.
pub fn assignable_agrees()
    ensures { (t : Table) (known : Known) → Knows known t → types_fine t ≡ true → IsFromTheFront t → HasOneNumberEach t → HasOneShapeEach t
        → (to from : ℕ) → to < length t.kinds → from < length t.kinds → may_assign t to from ≡ assignable known (shape_of t to) (shape_of t from) }
{}

/// A type has as many cells as its shape.
pub fn cells_agree()
    ensures { (t : Table) (known : Known) → Knows known t → IsFromTheFront t → IsCounted t
        → (k : ℕ) → k < length t.kinds → cells_of_type t k ≡ cells known (shape_of t k) }
{}
