//! An image from results that come from elsewhere.

ghost use Rattle.std.specs.Prelude.{◌≡◌, ◌<◌, ◌≤◌, ℕ, List, Bool, true, map, length, All, IfOk, OnOk, IfErr};
ghost use Rattle.image_form.specs.Form.{IsInForm};
ghost use Rattle.image_file.specs.Spelling.{IsOfWords};
ghost use Rattle.ob_types.specs.WellFormed.{well_formed};
ghost use Rattle.ob_types.specs.declared.program.Program.{Program};
ghost use Rattle.lir_core.specs.Flows.{IsValidFlow};
ghost use Rattle.trace_build.specs.declared.builder.Builder.{Builder};
ghost use Rattle.alloc_audit.specs.declared.verdict.Verdict.TheVariants.{Sound};
ghost use Rattle.alloc_audit.specs.Verdicts.{verdict_of};
ghost use Rattle.alloc_audit.specs.Results.{AreLive, AreWalked};
ghost use Rattle.planned_image.specs.Plans.{IsPlan, IsProgramPlan};
ghost use Rattle.planned_image.specs.Audits.{IsImageOfResults, TellsOfAudit, RefusesBy};

use crate::fault::AuditFault;
use crate::planning::ProgramPlan;
use alloc_audit::{Verdict, audit};
use image_form::Image;
use image_words::of_words;
use lir_core::{Flow, Trace, TraceOut};
use placed_image::placed_image;
use std::alloc::Global;

/// The image of a planned program from results of all its traces, in the order of their numbers, over so many registers, whoever
/// made them. `Unsound` tells the first failure of these by trace, node and line, exactly where there is one; else `Code` comes
/// exactly where the code is over 262,144 words. The image is linked from just these results, and does what the program means.
/// Takes time in proportion to the flows and the results, each times a logarithm.
pub fn audited_image(
    alloc: Global,
    plan: ProgramPlan,
    regs: u8,
    outs: Vec<TraceOut>,
) -> Result<Image, AuditFault>
    requires plan { IsPlan plan }
    requires enough { 4 ≤ regs }
    requires few { regs ≤ 16 }
    ensures image { IfOk result (λ image. (builder : Builder) (program : Program) → well_formed program ≡ true
        → IsProgramPlan builder program plan → IsImageOfResults builder regs program outs.items image) }
    ensures form { IfOk result IsInForm }
    ensures words { IfOk result IsOfWords }
    ensures refused { IfErr result (λ fault. (lives : List (ℕ → ℕ → Bool)) → AreLive plan.flows.items lives
        → TellsOfAudit regs plan lives outs.items fault) }
{
    let ProgramPlan { flows, cuts, extra } = plan;
    let flows = flows.as_slice();
    let cuts = cuts.as_slice();
    pass(alloc, flows, cuts, regs, outs.as_slice())?;
    let image = placed_image(alloc, flows, cuts, outs, extra)?;
    of_words(&image);
    Ok(image)
}

// Refuses results by their first failure.
fn pass(
    alloc: Global,
    flows: &[Flow],
    cuts: &[Vec<Trace>],
    regs: u8,
    outs: &[TraceOut],
) -> Result<(), AuditFault>
    requires regs { 0 < regs }
    requires cuts { length cuts.now ≡ length flows.now }
    ensures walked { OnOk result (All IsValidFlow flows.now → AreWalked regs 0 flows.now (map (λ v. v.items) cuts.now) outs.now) }
    ensures sound { OnOk result ((lives : List (ℕ → ℕ → Bool)) → AreLive flows.now lives
        → verdict_of regs flows.now lives (map (λ v. v.items) cuts.now) outs.now ≡ Sound) }
    ensures unsound { IfErr result (λ fault. (lives : List (ℕ → ℕ → Bool)) → AreLive flows.now lives
        → RefusesBy (verdict_of regs flows.now lives (map (λ v. v.items) cuts.now) outs.now) fault) }
{
    match audit(alloc, flows, cuts, regs, outs)? {
        Verdict::Sound => Ok(()),
        Verdict::Unsound { trace, node, line } => Err(AuditFault::Unsound { trace, node, line }),
    }
}
