//! What the clauses of the top call come to.

ghost use Rattle.std.specs.Prelude.{◌≡◌, ◌⊎◌, ℕ, List, Option, Some, None, slice_get};
ghost use Rattle.outside.specs.Files.{Held};
ghost use Rattle.object_commands.specs.words.alloc_choice.declared.choice.Choice.{Choice};
ghost use Rattle.word_requests.specs.Asked.{Asked, Audit, Run, Build, Exec};
ghost use Rattle.trc_answers.specs.declared.causes.Cause.{Cause};
ghost use Rattle.trc_answers.specs.Verdict.{Verdict, Accepts, Writes, WritesBoth, cause_of, world};
ghost use Rattle.trc_answers.specs.Answers.{AllDone, Answers, Devices};
ghost use Rattle.trc_cli.specs.Commands.{ComesTo};
ghost use Rattle.trc_cli.specs.Laws.{Alike, NoneFailed};

use compare_commands::{compares_come_to_one, comparisons_come_to_one, meanings_come_to_one};
use object_commands::image_words::{
    images_exclude_refusals, texts_have_one_first_fault, texts_have_one_image,
    texts_have_one_refusal, texts_have_one_refusal_of_traces, texts_have_one_report,
    traces_exclude_refusals,
};
use object_commands::{
    audits_come_to_one, links_come_to_one, noted_images_exclude_refusals, notes_of_texts_pass,
    objects_come_to_one, texts_have_one_noted_image, texts_have_one_refusal_with_notes,
};
use show_commands::shows_come_to_one;

/// Where no count of faults rises, the answer is a cause that the words come to, with all of it done, unless memory ran out. Where
/// files and input tell what they hold, words come to one thing at most: to one cause, one output and one list of files that are written. This
/// follows from the laws of texts, which are cited as calls that do nothing. When the lines of `both` tell the same `both_agree` says.
pub fn answers_are_verdicts()
    ensures quiet { (asked : Option Asked) (old new : Devices) (cause : Cause) → NoneFailed old new
        → Answers (λ left. ComesTo (world old.held left) asked) old new cause
        → ((cause ≡ Cause.Memory) ⊎ ((verdict : Verdict) × ComesTo (world old.held old.left) asked verdict × (cause ≡ cause_of verdict) × AllDone old verdict new)) }
    ensures once { (held : Held) (left : List ℕ) (asked : Option Asked) (a b : Verdict)
        → ComesTo (world (Some held) (Some left)) asked a → ComesTo (world (Some held) (Some left)) asked b → Alike a b }
{
    texts_have_one_image();
    texts_have_one_refusal();
    texts_have_one_refusal_of_traces();
    texts_have_one_report();
    images_exclude_refusals();
    traces_exclude_refusals();
    texts_have_one_noted_image();
    texts_have_one_refusal_with_notes();
    noted_images_exclude_refusals();
    audits_come_to_one();
    objects_come_to_one();
    links_come_to_one();
    texts_have_one_first_fault();
    meanings_come_to_one();
    comparisons_come_to_one();
    compares_come_to_one();
    shows_come_to_one();
}

/// `exec` of what `build` wrote is `run` of the same files, by any choice with the same policy, builder and number of registers: where
/// these tell what they hold, and the file that was written still holds that.
pub fn exec_of_built_is_run()
    ensures { (held later : Held) (left : List ℕ) (out bytes : List ℕ) (files : List (List ℕ)) (from : Option (List ℕ)) (choice other : Choice) (steps : ℕ) (ran executed : Verdict)
        → choice.policy ≡ other.policy → choice.builder ≡ other.builder → choice.regs ≡ other.regs
        → ComesTo (world (Some held) (Some left)) (Some (Build out files choice from None)) (Writes out bytes)
        → ComesTo (world (Some held) (Some left)) (Some (Run files other steps)) ran
        → later out ≡ Some bytes → ComesTo (world (Some later) (Some left)) (Some (Exec out steps)) executed
        → Alike ran executed }
{
    texts_have_one_image();
    images_exclude_refusals();
}

/// What `build --notes` wrote passes: `audit` of the notes, by the same builder and registers, for files that still hold what they
/// held, comes to the image that was written beside them.
pub fn audit_of_noted_accepts()
    ensures { (held later : Held) (left : List ℕ) (out image name notes other : List ℕ) (files : List (List ℕ)) (from : Option (List ℕ)) (choice : Choice) (audited : Verdict)
        → ComesTo (world (Some held) (Some left)) (Some (Build out files choice from (Some name))) (WritesBoth out image name notes)
        → ((number : ℕ) (file : List ℕ) → slice_get files number ≡ Some file → later file ≡ held file) → later name ≡ Some notes
        → ComesTo (world (Some later) (Some left)) (Some (Audit other name files choice.builder choice.regs)) audited
        → audited ≡ Accepts other image }
{
    notes_of_texts_pass();
    noted_images_exclude_refusals();
}
