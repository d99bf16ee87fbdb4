//! How many steps an image takes.

ghost use Rattle.image_form.specs.Form.{IsInForm};

use a64_machine::{Machine, Step};
use image_form::Image;
use std::alloc::Global;
use trc_base::{Memory, Sink};

/// How many steps are made at most.
const MOST_STEPS: u64 = 1_000_000_000;

/// The steps in which an image ends that is run on no input, what it writes going to the sink; none where it doesn't end within
/// 1,000,000,000 steps.
pub fn steps_of<O: Sink>(alloc: Global, image: Image, out: &mut O) -> Result<Option<u64>, Memory>
    requires { IsInForm image }
{
    let mut machine = Machine::load(alloc, image, Vec::new(alloc))?;
    for before in 0..MOST_STEPS {
        match machine.step(out) {
            Step::Going => {}
            Step::Ended => return Ok(Some(before + 1)),
            _ => return Ok(None),
        }
    }
    Ok(None)
}
