//! Procedures put off one after the other, and what they come to.

ghost use Rattle.std.specs.Prelude.{◌≡◌, ◌++◌, ◌∷◌, List, [], length, slice_set};
ghost use Rattle.ob_syntax.specs.declared.declarations.ProcedureDecl.{ProcedureDecl};
ghost use Rattle.ob_judge.specs.Declarations.{procedures_part};
ghost use Rattle.ob_judge.specs.Image.{Procedure};
ghost use Rattle.ob_judge.specs.Judged.{Keeps};
ghost use Rattle.ob_judge.specs.Making.{Making};
ghost use Rattle.ob_judge.specs.Scopes.{Source};
ghost use Rattle.judged_modules.specs.steps.Procedures.{OneProcedure, plain_each_procedure};
ghost use Rattle.judged_modules.specs.steps.Steps.{procedure_part};
ghost use Rattle.later_bodies.specs.Ended.{put_off_and_ended};
ghost use Rattle.later_bodies.specs.Waiting.{Came, Waiting, filled, put_aside, put_off, with_procedures};
ghost use Rattle.later_bodies.specs.Walked.{AllCameTo, CameTo, PutSoFar, one_by_one};

/// The judgement of a procedure is that up to its body, and then that of its body.
pub fn procedures_are_put_off_and_completed()
    ensures { (p : Source) (q : OneProcedure) (s : Making) → procedure_part p q s ≡ put_off_and_ended p q s }
{}

/// At first none waits;
pub fn no_procedure_waits_at_first()
    ensures { (p : Source) (s : Making) → PutSoFar p s [] [] s }
{}

/// one more is put off and set aside,
pub fn one_more_procedure_waits()
    ensures { (p : Source) (q : OneProcedure) (first s : Making) (qs : List OneProcedure) (ws : List (OneProcedure × Waiting)) (w : Waiting)
        → PutSoFar p first qs ws s → put_off p q s ≡ Keeps w → PutSoFar p first (qs ++ q ∷ []) (ws ++ (q, w) ∷ []) (put_aside w) }
{}

/// or judged with its body at once, and then the same ones wait.
pub fn one_more_procedure_is_judged_at_once()
    ensures { (p : Source) (q : OneProcedure) (first s t : Making) (qs : List OneProcedure) (ws : List (OneProcedure × Waiting))
        → PutSoFar p first qs ws s → procedure_part p q s ≡ Keeps (tt, t) → PutSoFar p first (qs ++ q ∷ []) ws t }
{}

/// One more came to something;
pub fn one_more_came()
    ensures { (p : Source) (ws : List (OneProcedure × Waiting)) (xs : List Came) (w : OneProcedure × Waiting) (x : Came)
        → AllCameTo p ws xs → CameTo p w x → AllCameTo p (ws ++ w ∷ []) (xs ++ x ∷ []) }
{}

/// and once all did, the procedures are judged, in the order of the text, to what was made, with that filled in.
pub fn bodies_are_filled_in()
    ensures { (p : Source) (ds : List ProcedureDecl) (first s : Making) (ws : List (OneProcedure × Waiting)) (xs : List Came)
        → PutSoFar p first (one_by_one ds) ws s → AllCameTo p ws xs
        → procedures_part p (plain_each_procedure ds) first ≡ Keeps (tt, with_procedures (filled s.procedures xs) s) }
{}

/// What came last is filled in last;
pub fn one_more_is_filled_in()
    ensures { (ps : List Procedure) (xs : List Came) (x : Came) → filled ps (xs ++ x ∷ []) ≡ slice_set (filled ps xs) x.number x.procedure }
{}

/// and there are as many procedures as before.
pub fn as_many_are_filled_in()
    ensures { (ps : List Procedure) (xs : List Came) → length (filled ps xs) ≡ length ps }
{}
