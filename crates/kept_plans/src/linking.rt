//! The plans of flows, and their image.

ghost use Rattle.std.specs.Prelude.{◌≡◌, ◌∷◌, [], ℕ, ◌<◌, ◌^◌, List, length, map, true, IfOk, IfErr};
ghost use Rattle.std.specs.List.{list_all};
ghost use Rattle.image_form.specs.Form.{IsInForm};
ghost use Rattle.placed_code.specs.Placed.{proc_of};
ghost use Rattle.placed_code.specs.Layout.{all_words};
ghost use Rattle.placed_code.specs.Results.{placed, all_placed};
ghost use Rattle.linked_flows.specs.Allocations.{Cut, steps_of, allocated, all_allocated};
ghost use Rattle.link_blocks.specs.Fits.{numbers_fit};
ghost use Rattle.link_blocks.specs.Laid.{IsCutOf, Fits};
ghost use Rattle.link_blocks.specs.Plans.{placed_in, plain};
ghost use Rattle.procedure_pieces.specs.Pieces.{piece_of};
ghost use Rattle.procedure_code.specs.Parts.{IsWhole};
ghost use Rattle.procedure_code.specs.Views.{piece_in};
ghost use Rattle.link_plan.specs.Linked.{AreCuts, AreSmall, DataFits, IsUnnamedAndFar, NameAllOrNone, frame_of_cuts, linked, plans_of};
ghost use Rattle.link_plan.specs.declared.fault.LinkFault.TheVariants.{Limit, Misfit};

use boundary_resolve::CodeLine;
use image_form::Image;
use link_blocks::{Plan, PlanFault};
use link_layout::LayoutFault;
use link_plan::{LinkFault, image_of_pieces};
use lir_core::{Flow, TraceOut};
use placed_code::ImageData;
use procedure_code::{Piece, piece_of};
use std::alloc::Global;

/// An image, and the plans of its flows by their numbers.
#[derive(Drop)]
pub struct LinkedPlans {
    pub plans: Vec<Plan>,
    pub image: Image,
}

// The plan of a flow.
fn plan_of(
    alloc: Global,
    flow: &Flow,
    lines: &[CodeLine],
    outs: &[TraceOut],
) -> Result<Plan, LinkFault>
    ensures plan { (k : ℕ) (c : Cut) → IsCutOf k flow.now lines.now outs.now c → IfOk result (λ plan. placed_in plan ≡ plain (placed steps_of (allocated c))) }
    ensures fits { IfOk result (λ plan. numbers_fit flow.now ≡ true) }
    ensures limit { IfErr result (λ fault. fault ≡ Limit → ⊥) }
    ensures misfit { IfErr result (λ fault. fault ≡ Misfit → (k : ℕ) (c : Cut) → IsCutOf k flow.now lines.now outs.now c → Fits c → ⊥) }
{
    match Plan::of(alloc, flow, lines, outs) {
        Ok(plan) => Ok(plan),
        Err(PlanFault::Misfit) => Err(LinkFault::Misfit),
        Err(PlanFault::Memory) => Err(LinkFault::Memory),
    }
}

// The plans of flows, from each one's lines in code order and the results for its traces.
fn plans_of(
    alloc: Global,
    flows: &[Flow],
    parts: &[Vec<CodeLine>],
    outs: &[Vec<TraceOut>],
) -> Result<Vec<Plan>, LinkFault>
    requires parts { length parts.now ≡ length flows.now }
    requires outs { length outs.now ≡ length flows.now }
    ensures plans { (k : ℕ) (cuts : List Cut) → AreCuts k flows.now (map (λ v. v.items) parts.now) (map (λ v. v.items) outs.now) cuts
        → IfOk result (λ plans. map placed_in plans.items ≡ plans_of cuts) }
    ensures count { IfOk result (λ plans. length plans.items ≡ length flows.now) }
    ensures fits { IfOk result (λ plans. list_all (λ f. numbers_fit f) flows.now ≡ true) }
    ensures limit { IfErr result (λ fault. fault ≡ Limit → ⊥) }
    ensures misfit { IfErr result (λ fault. fault ≡ Misfit → (k : ℕ) (cuts : List Cut)
        → AreCuts k flows.now (map (λ v. v.items) parts.now) (map (λ v. v.items) outs.now) cuts → AreSmall cuts → ⊥) }
{
    let mut plans = Vec::with_capacity(alloc, flows.len())?;
    for place in 0..flows.len() {
        let flow = &flows[place];
        let lines = parts[place].as_slice();
        let results = outs[place].as_slice();
        let plan = plan_of(alloc, flow, lines, results)?;
        plans.push(plan)?;
    }
    Ok(plans)
}

// The piece of a plan.
fn piece_of_plan(alloc: Global, plan: &Plan) -> Result<Piece, LinkFault>
    ensures piece { IsWhole (placed_in plan.now) → IfOk result (λ piece. piece_in piece ≡ piece_of (placed_in plan.now)) }
    ensures limit { IfErr result (λ fault. fault ≡ Limit → 2 ^ 18 < length (all_words (placed_in plan.now ∷ []))) }
    ensures misfit { IfErr result (λ fault. fault ≡ Misfit → ⊥) }
{
    match piece_of(alloc, plan) {
        Ok(piece) => Ok(piece),
        Err(LayoutFault::Limit) => Err(LinkFault::Limit),
        Err(LayoutFault::Memory) => Err(LinkFault::Memory),
    }
}

// The pieces of plans.
fn pieces_of(alloc: Global, plans: &[Plan]) -> Result<Vec<Piece>, LinkFault>
    ensures pieces { ((p : ℕ) → p < length (map placed_in plans.now) → IsWhole (proc_of (map placed_in plans.now) p))
        → IfOk result (λ pieces. map piece_in pieces.items ≡ map piece_of (map placed_in plans.now)) }
    ensures count { IfOk result (λ pieces. length pieces.items ≡ length plans.now) }
    ensures limit { IfErr result (λ fault. fault ≡ Limit → 2 ^ 18 < length (all_words (map placed_in plans.now))) }
    ensures misfit { IfErr result (λ fault. fault ≡ Misfit → ⊥) }
{
    let mut pieces = Vec::with_capacity(alloc, plans.len())?;
    for plan in plans {
        let piece = piece_of_plan(alloc, plan)?;
        pieces.push(piece)?;
    }
    Ok(pieces)
}

/// The image of flows by their numbers, as `link` gives it, from each one's lines in code order and the results for its traces, which
/// are kept; and the plans of the flows.
pub fn link_kept(
    alloc: Global,
    flows: &[Flow],
    parts: &[Vec<CodeLine>],
    outs: &[Vec<TraceOut>],
    extra: ImageData,
) -> Result<LinkedPlans, LinkFault>
    requires parts { length parts.now ≡ length flows.now }
    requires outs { length outs.now ≡ length flows.now }
    requires extra { DataFits extra }
    requires names { NameAllOrNone extra.names (length flows.now) }
    ensures image { (k : ℕ) (cuts : List Cut) → AreCuts k flows.now (map (λ v. v.items) parts.now) (map (λ v. v.items) outs.now) cuts
        → IfOk result (λ made. made.image ≡ linked cuts extra) }
    ensures plans { (k : ℕ) (cuts : List Cut) → AreCuts k flows.now (map (λ v. v.items) parts.now) (map (λ v. v.items) outs.now) cuts
        → IfOk result (λ made. map placed_in made.plans.items ≡ plans_of cuts) }
    ensures form { IfOk result (λ made. IsInForm made.image) }
    ensures limit { IfErr result (λ fault. fault ≡ Limit → (k : ℕ) (cuts : List Cut)
        → AreCuts k flows.now (map (λ v. v.items) parts.now) (map (λ v. v.items) outs.now) cuts
        → 2 ^ 18 < length (all_words (all_placed steps_of (all_allocated cuts)))) }
    ensures misfit { IfErr result (λ fault. fault ≡ Misfit → (k : ℕ) (cuts : List Cut)
        → AreCuts k flows.now (map (λ v. v.items) parts.now) (map (λ v. v.items) outs.now) cuts
        → AreSmall cuts → IsUnnamedAndFar extra (frame_of_cuts cuts)) }
{
    let plans = plans_of(alloc, flows, parts, outs)?;
    let pieces = pieces_of(alloc, plans.as_slice())?;
    let image = image_of_pieces(alloc, pieces.as_slice(), extra)?;
    Ok(LinkedPlans { plans, image })
}
