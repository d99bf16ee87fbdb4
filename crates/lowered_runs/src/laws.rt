//! Laws of lowered programs that run.

ghost use Rattle.std.specs.Prelude.{ℕ, suc, Bool, List, [], Vec, Box};
ghost use Rattle.ob_types.specs.declared.program.Program.{Program};
ghost use Rattle.ssa_lowered.specs.Data.{Layout};
ghost use Rattle.lowered_runs.specs.Claims.{CanRun, CanRunBy, KeepsUp, KeepsUpBy, constants_of};
ghost use Rattle.lowered_runs.specs.Sample.{sample, CallsItself, HandsOver};
ghost use Rattle.std.specs.declared.alloc.Global.{Global as Heap};

/// On every input and for every number of turns the procedures of a well-formed program do what it means; there are such programs, one of them with
/// a procedure that calls itself, and one that calls through a procedure variable and hands over an array and a record (a tree with calls has
/// boxes and vectors in it, so it is given with some).
pub fn programs_keep_up()
    ensures all { (p : Program) (input constants : List ℕ) (code : ℕ → ℕ) (n : ℕ) → CanRun p input constants code
        → KeepsUp p input constants code n }
    ensures some { CanRun sample [] [] (λ g. suc g) }
    ensures calls { Box (Unit {0}) Heap → Vec (Unit {0}) Heap → (p : Program) × CanRun p [] [] (λ g. suc g) × CallsItself p }
    ensures hands { Box (Unit {0}) Heap → Vec (Unit {0}) Heap → (p : Program) × CanRun p [] (constants_of p) (λ g. suc g) × HandsOver p }
{}

/// They do so in each layout by the trees of types, packed or not, whose characters are as wide as the system's.
pub fn programs_keep_up_in_layouts()
    ensures { (p : Program) (packed : Bool) (l : Layout) (input constants : List ℕ) (code : ℕ → ℕ) (n : ℕ) → CanRunBy p packed l input constants code
        → KeepsUpBy p l input constants code n }
{}
