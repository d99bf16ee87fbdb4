//! The laws that can be said without ranging over relations, proved for whoever calls them: relations are tests.

ghost use Rattle.std.specs.Prelude.{◌≡◌, ℕ, ◌+◌, ◌≤◌, List, [], ◌∷◌, ◌++◌, length, map, flat_map, Bool, IsTrue};
ghost use Rattle.run_laws.specs.Runs.{Outcome, Trapped, Step, System, run, output, weigh, Within, IsOver, StartsWith, Walk, Keeps, InStep, Agrees};
ghost use Rattle.run_laws.specs.Layers.{CarriesBy, Lowers, Through};

/// A run that is over stays as it is, two runs that are over are one, and what is written stays written.
pub fn runs_stay()
    ensures over { (f : ℕ → Step ℕ ℕ) (m j s : ℕ) (out : List ℕ) → IsOver (run f m s out) → run f (m + j) s out ≡ run f m s out }
    ensures one { (f : ℕ → Step ℕ ℕ) (m j s : ℕ) (out : List ℕ) → IsOver (run f m s out) → IsOver (run f j s out) → run f m s out ≡ run f j s out }
    ensures written { (f : ℕ → Step ℕ ℕ) (m n s : ℕ) (out : List ℕ) → m ≤ n → StartsWith (output (run f n s out)) (output (run f m s out)) }
{}

/// Walks compose, and after a walk the run goes on from where it leads.
pub fn walks_compose()
    ensures append { (y : System ℕ ℕ ℕ) (ps qs : List ℕ) (s t u : ℕ) (v w : List ℕ) → Walk y s ps v t → Walk y t qs w u → Walk y s (ps ++ qs) (v ++ w) u }
    ensures runs { (y : System ℕ ℕ ℕ) (ps : List ℕ) (s : ℕ) (w : List ℕ) (t : ℕ) → Walk y s ps w t → (k : ℕ) (out : List ℕ)
        → run y.step (length ps + k) s out ≡ run y.step k t (out ++ w) }
{}

/// The weight of a list is that of its parts.
pub fn weights_add()
    ensures append { (h : ℕ → ℕ) (a b : List ℕ) → weigh h (a ++ b) ≡ weigh h a + weigh h b }
    ensures mapped { (h f : ℕ → ℕ) (ps : List ℕ) → weigh h (map f ps) ≡ weigh (λ p. h (f p)) ps }
    ensures words { (h : ℕ → ℕ) (words : ℕ → List ℕ) (ps : List ℕ) → weigh h (flat_map words ps) ≡ weigh (λ p. weigh h (words p)) ps }
    ensures bounds { (all ps : List ℕ) → Within all ps → length ps ≤ length all }
{}

/// What keeps up with a meaning for every number of turns is in step with it, and so agrees with it both ways; each
/// of its traps has its source in the meaning.
pub fn keeping_up_is_in_step()
    ensures agrees { (y : System ℕ ℕ ℕ) (all : List ℕ) (same : ℕ → ℕ → Bool) (s : ℕ) (meaning : ℕ → Outcome ℕ)
        → ((n : ℕ) → Keeps y (λ _. 1) all (λ a b. IsTrue (same a b)) s n (meaning n))
        → InStep y (length all) (λ a b. IsTrue (same a b)) s meaning }
    ensures both_ways { (y : System ℕ ℕ ℕ) (points : ℕ) (same : ℕ → ℕ → Bool) (s : ℕ) (meaning : ℕ → Outcome ℕ)
        → InStep y points (λ a b. IsTrue (same a b)) s meaning → Agrees y (λ a b. IsTrue (same a b)) s meaning }
    ensures source { (y : System ℕ ℕ ℕ) (points : ℕ) (same : ℕ → ℕ → Bool) (s : ℕ) (meaning : ℕ → Outcome ℕ)
        → InStep y points (λ a b. IsTrue (same a b)) s meaning → (m trap : ℕ) (out : List ℕ) → run y.step m s [] ≡ Trapped trap out
        → (mine : ℕ) × IsTrue (same mine trap) }
{}

/// A lower system that carries out an upper one keeps up with what the upper one keeps up with.
pub fn carrying_out_keeps_up()
    ensures { (x y : System ℕ ℕ ℕ) (least : ℕ → ℕ) (words : ℕ → List ℕ) (all places : List ℕ) (similar same : ℕ → ℕ → Bool)
        → Lowers x y least words all places (λ a b. IsTrue (similar a b)) (λ a b. IsTrue (same a b)) }
{}

/// What carries out a system that carries out another carries out that one.
pub fn layers_compose()
    ensures { (x y z : System ℕ ℕ ℕ) (least fewest lowest : ℕ → ℕ) (words bits : ℕ → List ℕ) (similar alike same equal : ℕ → ℕ → Bool)
        → CarriesBy x y least fewest words (λ a b. IsTrue (similar a b)) (λ a b. IsTrue (same a b))
        → CarriesBy y z fewest lowest bits (λ a b. IsTrue (alike a b)) (λ a b. IsTrue (equal a b))
        → CarriesBy x z least lowest (λ p. flat_map bits (words p)) (Through (λ a b. IsTrue (similar a b)) (λ a b. IsTrue (alike a b)))
        (Through (λ a b. IsTrue (same a b)) (λ a b. IsTrue (equal a b))) }
{}
