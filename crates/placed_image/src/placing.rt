//! The image of flows with results that can be placed.

ghost use Rattle.std.specs.Prelude.{◌≡◌, ◌<◌, ◌^◌, map, length, IfOk, IfErr};
ghost use Rattle.image_form.specs.Form.{IsInForm};
ghost use Rattle.link_plan.specs.Linked.{DataFits};
ghost use Rattle.back_end.specs.Images.{code_length};
ghost use Rattle.placed_image.specs.Shares.{cuts_of};
ghost use Rattle.placed_image.specs.Placing.{CanBePlaced, IsPlacedImage};
ghost use Rattle.placed_image.specs.declared.fault.PlacingFault.TheVariants.{Code};

use crate::fault::PlacingFault;
use crate::sharing::{Shares, share_results};
use image_form::Image;
use link_plan::{ImageData, LinkFault, link};
use lir_core::{Flow, Trace, TraceOut};
use std::alloc::Global;

/// The image of flows by their numbers, each of which has a name, from results of all their traces, whoever made them: each
/// flow's own in turn, in lines with the moves of edges, linked. `Code` comes exactly where the code is over 262,144 words. Takes
/// the time of the passes; lines and results are let go once they are read.
pub fn placed_image(
    alloc: Global,
    flows: &[Flow],
    cuts: &[Vec<Trace>],
    outs: Vec<TraceOut>,
    extra: ImageData,
) -> Result<Image, PlacingFault>
    requires results { CanBePlaced flows.now (map (λ v. v.items) cuts.now) outs.items }
    requires extra { DataFits extra }
    requires names { length extra.names ≡ length flows.now }
    ensures image { IfOk result (IsPlacedImage (cuts_of flows.now (map (λ v. v.items) cuts.now) outs.items) extra) }
    ensures form { IfOk result IsInForm }
    ensures code { IfErr result (λ fault. fault ≡ Code
        → 2 ^ 18 < code_length (cuts_of flows.now (map (λ v. v.items) cuts.now) outs.items)) }
{
    let Shares { parts, outs } = share_results(alloc, flows, cuts, outs)?;
    match link(alloc, flows, parts, outs, extra) {
        Ok(image) => Ok(image),
        Err(LinkFault::Limit) => Err(PlacingFault::Code),
        Err(LinkFault::Misfit) => unreachable!(),
        Err(LinkFault::Memory) => Err(PlacingFault::Memory),
    }
}
