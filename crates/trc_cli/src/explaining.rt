//! Numbers and commands are explained.

ghost use Rattle.std.specs.Prelude.{◌≡◌, ◌≤◌, ℕ, List, Option};
ghost use Rattle.outside.specs.Files.{Held};
ghost use Rattle.explanations.specs.Explained.{explanation};
ghost use Rattle.trc_answers.specs.Answers.{Answers, devices};
ghost use Rattle.trc_answers.specs.Causes.{IsPlain};
ghost use Rattle.trc_answers.specs.Verdict.{Prints};

use explanations::{Topic, explanation};
use outside::Sink;
use std::alloc::Global;
use trc_answers::{Cause, print};

/// Prints the text that explains a topic.
pub(crate) fn explain<O: Sink>(alloc: Global, topic: Topic, out: &mut O) -> Cause
    ensures answers { (held : Option Held) (faults : ℕ) (left : Option (List ℕ)) (input_faults : ℕ)
        → Answers (λ _ verdict. verdict ≡ Prints (explanation topic))
        (devices held faults left input_faults (O.account out.old))
        (devices held faults left input_faults (O.account out.new)) result }
    ensures plain { IsPlain result }
    ensures rises { (O.account out.old).faults ≤ (O.account out.new).faults }
{
    match explanation(alloc, topic) {
        Ok(text) => print(out, text.as_slice()),
        Err(_) => Cause::Memory,
    }
}
