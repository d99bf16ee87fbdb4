//! Images, and how they are printed.

use crate::Module;
use flow_allocation::{AllocatedFlows, Builder, Choice, Policy, WorkFault, allocate_flows};
use link_plan::{Bytes, Image, ImageData, LinkFault, ProcName, link};
use lir_core::Items;
use outside::{Memory, OpenGate};
use std::alloc::{AllocError, Global};
use std::sync::Wait;
use std::thread::Threads;
use vector_texts::sum_of;

/// The image of a module, or why there is none.
fn linked(
    alloc: Global,
    module: &Module,
    allocated: AllocatedFlows,
) -> Result<Result<Image, LinkFault>, Memory> {
    let constants = Vec::from_slice(alloc, module.constants.as_slice())?;
    let count = module.flows.len();
    let fits = module.flags < 2 && module.globals <= 8_388_608 && constants.len() <= 2_097_152;
    let whole = module.globals % 8 == 0 && constants.len() % 8 == 0;
    if !fits || count > 4096 {
        return Ok(Err(LinkFault::Misfit));
    }
    if !whole {
        return Ok(Err(LinkFault::Misfit));
    }
    let name = ProcName { module: 0, line: 1 };
    let data = ImageData {
        flags: module.flags,
        globals: module.globals,
        constants: Bytes::new(constants),
        names: Items::from_vec(vec![in alloc; name; count]?),
    };
    let AllocatedFlows { parts, outs, .. } = allocated;
    Ok(link(alloc, module.flows.as_slice(), parts, outs, data))
}

fn text_of(alloc: Global, image: &Image, all: bool) -> Result<String, AllocError> {
    let (words, frame) = (image.code.as_slice().len(), image.frame);
    let (globals, constants) = (image.globals, image.constants.as_slice().len());
    let (flags, sum) = (
        image.flags,
        sum_of(image.code.as_slice(), image.constants.as_slice()),
    );
    let mut text = String::new(alloc);
    write!(
        text,
        "image {words} frame {frame} globals {globals} constants {constants} flags {flags} sum {sum}\n"
    )?;
    if all {
        text.push_str("words")?;
        for word in image.code.as_slice() {
            write!(text, " {word}")?;
        }
        text.push_str("\n")?;
    }
    Ok(text)
}

/// How often a module is allocated, and whether it is then linked.
#[derive(Clone, Copy)]
pub(crate) struct Runs {
    pub(crate) times: u32,
    pub(crate) links: bool,
}

/// What a `link` prints: the module's image, or nothing where it isn't linked.
pub(crate) fn answer<R: Threads + Wait + Sync>(
    rt: &R,
    alloc: Global,
    module: &Module,
    linear: bool,
    regs: u8,
    all: bool,
    runs: Runs,
) -> Result<String, Memory> {
    let mut text = String::new(alloc);
    if regs < 4 || regs > 16 {
        return Ok(text);
    }
    let choice = Choice {
        policy: if linear {
            Policy::Linear
        } else {
            Policy::Plain
        },
        builder: Builder::Bi,
        regs,
        jobs: 1,
    };
    for _ in 0..runs.times {
        let flows = module.flows.as_slice();
        let allocated = match allocate_flows(rt, alloc, &choice, 0, flows, &OpenGate) {
            Ok(allocated) => allocated,
            Err(WorkFault::Traces) => return Ok(String::from_str(alloc, "traces\n")?),
            Err(WorkFault::Memory) => return Err(Memory),
        };
        if runs.links {
            text = match linked(alloc, module, allocated)? {
                Ok(image) => text_of(alloc, &image, all)?,
                Err(LinkFault::Limit) => String::from_str(alloc, "limit\n")?,
                Err(LinkFault::Misfit) => String::from_str(alloc, "misfit\n")?,
                Err(LinkFault::Memory) => return Err(Memory),
            };
        }
    }
    Ok(text)
}
