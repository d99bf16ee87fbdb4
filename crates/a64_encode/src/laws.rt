//! What the words of branches mean.

ghost use Rattle.std.specs.Prelude.{◌≡◌, ℕ, ◌+◌, ◌*◌, ◌<◌, ◌^◌, ◌%◌};
ghost use Rattle.a64_numbers.specs.Branches.{branch_field, branch_to};
ghost use Rattle.a64_encode.specs.Assembly.{greatest};

/// A branch between two words goes from the one's address to the other's, wherever the code begins.
pub fn branches_arrive()
    ensures near { (base from to : ℕ) → base % 4 ≡ 0 → base < 2 ^ 31 → from < greatest → to < greatest
        → branch_to 19 (base + 4 * from) (branch_field 19 (4 * from) (4 * to)) ≡ base + 4 * to }
    ensures far { (base from to : ℕ) → base % 4 ≡ 0 → base < 2 ^ 31 → from < greatest → to < greatest
        → branch_to 26 (base + 4 * from) (branch_field 26 (4 * from) (4 * to)) ≡ base + 4 * to }
{}
