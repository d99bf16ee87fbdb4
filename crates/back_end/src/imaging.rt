//! The image of procedures.

ghost use Rattle.std.specs.Prelude.{◌≡◌, ℕ, true, ◌<◌, ◌≤◌, ◌^◌, List, length, map, All, IfOk, IfErr};
ghost use Rattle.a64_select.specs.Selected.{selected};
ghost use Rattle.image_form.specs.Form.{IsInForm};
ghost use Rattle.ssa_core.specs.declared.procedure.Proc.{Proc as OfProcedure};
ghost use Rattle.linked_flows.specs.Allocations.{Cut};
ghost use Rattle.link_plan.specs.Linked.{DataFits, AreSmall};
ghost use Rattle.alloc_choice.specs.declared.choice.Choice.{Choice as OfChoice};
ghost use Rattle.flow_allocation.specs.Allocations.{trace_count};
ghost use Rattle.back_end.specs.Images.{IsReady, HasFewValues, AreCutsOf, IsImageBy, code_length};
ghost use Rattle.back_end.specs.Numbers.{node_numbers};
ghost use Rattle.back_end.specs.Planning.{ArePlanned, HaveNames};
ghost use Rattle.back_end.specs.declared.fault.ImageFault.TheVariants.{Traces, Code, Misfit, Memory as OutOfMemory};

use crate::fault::{ImageFault, fault_of};
use crate::joining::Planned;
use crate::numbers::read_nodes;
use a64_select::select;
use flow_allocation::Flow;
use image_form::Image;
use items::Items;
use link_plan::{ImageData, Piece, image_of_pieces};
use ssa_core::Proc;
use std::alloc::Global;

/// An image, of how many traces its code is made, and the pieces of its procedures, which nothing needs any more.
#[derive(Drop)]
pub struct LinkedProcedures {
    pub image: Image,
    pub traces: u32,
    pub pieces: Items<Piece>,
}

/// The image of procedures by their numbers, each of which has a name, from the pieces of their flows: these are linked. `Code` comes exactly
/// where the code is over 262,144 words, and `Misfit` for no procedures whose numbers and frames are small enough, so for none that
/// have no more values than a procedure may have. Takes time in proportion to words.
pub fn image_of(
    alloc: Global,
    planned: Planned,
    extra: ImageData,
) -> Result<LinkedProcedures, ImageFault>
    requires extra { DataFits extra }
    requires names { HaveNames planned extra }
    ensures image { (choice : OfChoice) (procs : List OfProcedure) → ArePlanned choice procs planned → IfOk result (IsImageBy choice procs extra) }
    ensures form { IfOk result (λ linked. IsInForm linked.image) }
    ensures traces { IfErr result (λ fault. fault ≡ Traces → ⊥) }
    ensures code { (choice : OfChoice) (procs : List OfProcedure) → ArePlanned choice procs planned → IfErr result (λ fault. fault ≡ Code
        → (cuts : List Cut) × AreCutsOf choice procs cuts × (trace_count cuts ≤ 262144) × (2 ^ 18 < code_length cuts)) }
    ensures misfit { (choice : OfChoice) (procs : List OfProcedure) → ArePlanned choice procs planned → IfErr result (λ fault. fault ≡ Misfit
        → (cuts : List Cut) × AreCutsOf choice procs cuts × (AreSmall cuts → ⊥)) }
    ensures modest { (choice : OfChoice) (procs : List OfProcedure) → ArePlanned choice procs planned → All HasFewValues procs → IfErr result (λ fault. fault ≡ Misfit → ⊥) }
{
    let Planned {
        pieces,
        traces,
        fit,
        room,
    } = planned;
    if !fit {
        return Err(ImageFault::Misfit);
    }
    if !room {
        return Err(ImageFault::Code);
    }
    match image_of_pieces(alloc, pieces.as_slice(), extra) {
        Ok(image) => Ok(LinkedProcedures {
            image,
            traces,
            pieces: Items::from_vec(pieces),
        }),
        Err(fault) => Err(fault_of(fault)),
    }
}

/// The flows of procedures, each selected and let go.
pub fn select_all(alloc: Global, procedures: Items<Proc>) -> Result<Vec<Flow>, ImageFault>
    requires { All IsReady procedures }
    ensures flows { IfOk result (λ flows. flows.items ≡ map selected procedures) }
    ensures numbers { IfOk result (λ flows. All (λ f. node_numbers f.nodes ≡ true) flows.items) }
    ensures memory { IfErr result (λ fault. fault ≡ OutOfMemory) }
{
    let mut flows = Vec::with_capacity(alloc, procedures.len())?;
    for procedure in procedures.into_vec() {
        let flow = select(alloc, procedure)?;
        read_nodes(flow.nodes.as_slice());
        flows.push(flow)?;
    }
    Ok(flows)
}
