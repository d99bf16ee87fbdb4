//! An audit comes to one thing.

ghost use Rattle.std.specs.Prelude.{◌≡◌, ℕ, List};
ghost use Rattle.trc_answers.specs.Verdict.{Verdict};
ghost use Rattle.note_commands.specs.Audits.{AuditOf, PlanComesTo};

use note_laws::image_words::texts_have_one_lowering;
use note_laws::{plans_exclude_refusals, texts_have_one_refusal_of_plans};

/// Texts and the bytes of notes come to one thing at most: to one refusal, one finding of the audit, or one image. This follows from
/// the laws of texts, which are cited as calls that do nothing.
pub fn audits_come_to_one()
    ensures { (of : AuditOf) (bytes : List ℕ) (texts : List (List ℕ)) (a b : Verdict) → PlanComesTo of bytes texts a → PlanComesTo of bytes texts b → a ≡ b }
{
    texts_have_one_lowering();
    texts_have_one_refusal_of_plans();
    plans_exclude_refusals();
}
