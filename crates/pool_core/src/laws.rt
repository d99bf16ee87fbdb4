//! What holds of every pool, whatever its workers do and in whatever order.

ghost use Rattle.std.specs.Prelude.{◌≡◌, ◌≢◌, ℕ, ◌+◌, ◌*◌, ◌<◌, ◌≤◌, ◌⊎◌, List, [], ◌∷◌, ◌++◌, length, replicate, Option};
ghost use mathlib.Core.Option.{some};
ghost use lib.ListN.{get_elem?};
ghost use Rattle.pool_core.specs.Sums.{total, hit, times};
ghost use Rattle.pool_core.specs.Tree.{IsTree};
ghost use Rattle.pool_core.specs.Rule.{Kept, having, is_working};
ghost use Rattle.pool_core.specs.Runs.{Can, next, runs, Allowed, opening, fresh, IsFinished, IsWaiting};
ghost use Rattle.pool_core.specs.Machine.{one_share};
ghost use Rattle.pool_core.specs.declared.model.Event.{Event};
ghost use Rattle.pool_core.specs.declared.model.Stage.TheVariants as stage;
ghost use Rattle.pool_core.specs.declared.model.State.{State};
ghost use Rattle.pool_core.specs.declared.model.Worker.{Worker};

/// An event that the worker's state allows keeps the rule.
pub fn each_event_keeps_the_rule()
    ensures { (P : List (Option ℕ)) (whole : ℕ) (s : State) (i : ℕ) (e : Event)
        → IsTree P → Kept P whole s → Can P s i e → Kept P whole (next P s i e) }
{}

/// From the opening on, every list of events, each of which is allowed when it comes, keeps the rule.
pub fn each_run_keeps_the_rule()
    ensures { (P : List (Option ℕ)) (n : ℕ) (es : List (ℕ × Event)) → IsTree P →
        let first = opening P (replicate n (fresh one_share)) in
        Allowed P es first → Kept P (n * one_share) (runs P es first) }
{}

/// An event changes its own worker alone, and adds to that worker's finished list only the trace that it has.
pub fn each_event_changes_one_worker()
    ensures others { (P : List (Option ℕ)) (s : State) (i j : ℕ) (e : Event)
        → j ≢ i → get_elem? (next P s i e).workers j ≡ get_elem? s.workers j }
    ensures finished { (P : List (Option ℕ)) (s : State) (i : ℕ) (e : Event) (w v : Worker)
        → get_elem? s.workers i ≡ some w → Can P s i e → get_elem? (next P s i e).workers i ≡ some v
        → (v.finished ≡ w.finished) ⊎ ((t : ℕ) × (k : ℕ) × (w.stage ≡ stage.Trace t k) × (v.finished ≡ w.finished ++ t ∷ [])) }
{}

/// Where the rule holds, each trace is shown in one cell at most, taken by one worker at most, and finished once at
/// most, and only traces are shown.
pub fn each_trace_is_taken_once()
    ensures shown { (P : List (Option ℕ)) (whole : ℕ) (s : State) (t : ℕ)
        → IsTree P → Kept P whole s → times (t + 1) s.cells ≤ 1 }
    ensures traces { (P : List (Option ℕ)) (whole : ℕ) (s : State) (t : ℕ)
        → IsTree P → Kept P whole s → 0 < times (t + 1) s.cells → t < length P }
    ensures taken { (P : List (Option ℕ)) (whole : ℕ) (s : State) (t : ℕ) → IsTree P → Kept P whole s
        → total (λ w. having (hit t) w.stage) s.workers + total (λ w. times t w.finished) s.workers ≤ 1 }
    ensures finished { (P : List (Option ℕ)) (whole : ℕ) (s : State) (t : ℕ)
        → IsTree P → Kept P whole s → total (λ w. times t w.finished) s.workers ≤ 1 }
{}

/// Where no worker has a trace and the mark is unset, the lowest trace that isn't finished is shown in a cell that
/// is not drawn yet or is some worker's ticket.
pub fn the_lowest_unfinished_waits()
    ensures { (P : List (Option ℕ)) (whole : ℕ) (s : State) (t : ℕ) → IsTree P → Kept P whole s
        → total (λ w. is_working w.stage) s.workers ≡ 0 → s.mark ≡ 0
        → t < length P → ¬ IsFinished P s t → ((u : ℕ) → u < t → IsFinished P s u) → IsWaiting P s t }
{}
