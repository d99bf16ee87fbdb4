//! How an image is laid out: its regions, and the registers at the start.

ghost use Rattle.std.specs.Prelude.{◌≡◌, ◌+◌, ◌^◌, ◌<◌, ◌++◌, length, replicate, IfOk, slice_index};
ghost use Rattle.image_form.specs.Form.{IsInForm};
ghost use Rattle.a64_machine.specs.State.{put};
ghost use Rattle.a64_memory.specs.Areas.{data_base};
ghost use Rattle.a64_machine.specs.Machine.{first_memory, first_registers};

use a64_memory::{
    DATA_BASE, FRAMES, FRAMES_BASE, HEAP_BASE, HEAP_WORDS, LOCAL_BASE, LOCAL_WORDS, MOST_CALLS,
    Region, heap_bytes, local_bytes,
};
use image_form::Image;
use outside::Memory;
use std::alloc::Global;

/// The globals, which are zeros, with the constants behind them.
fn data_region(alloc: Global, globals: usize, constants: &[u8]) -> Result<Region, Memory>
    requires { globals + length constants.now < 2 ^ 32 }
    ensures { IfOk result (λ r. r ≡ record { base = data_base; bytes = replicate globals 0 ++ constants.now }) }
{
    if constants.is_empty() {
        return Ok(Region::zeros(alloc, DATA_BASE, globals)?);
    }
    let mut region = Region::zeros(alloc, DATA_BASE, globals + constants.len())?;
    region.store(DATA_BASE + globals as u64, constants);
    Ok(region)
}

/// The regions of an image: data, local data, frames and heap.
pub fn first_memory(alloc: Global, image: &Image) -> Result<Vec<Region>, Memory>
    requires { IsInForm image.now }
    ensures { IfOk result (λ v. v.items ≡ first_memory image.now) }
{
    let data = data_region(alloc, image.globals as usize, image.constants.as_slice())?;
    let local = Region::zeros(alloc, LOCAL_BASE, local_bytes() as usize)?;
    let frames = Region::zeros(alloc, FRAMES_BASE, FRAMES as usize * image.frame as usize)?;
    let heap = Region::zeros(alloc, HEAP_BASE, heap_bytes() as usize)?;
    let mut regions = Vec::with_capacity(alloc, 4)?;
    regions.push(data)?;
    regions.push(local)?;
    regions.push(frames)?;
    regions.push(heap)?;
    Ok(regions)
}

/// Writes a register.
fn set(registers: &mut [u64; 31], n: usize, value: u64)
    requires { n < 31 }
    ensures { (λ i. slice_index registers.new i) ≡ put (λ i. slice_index registers.old i) n value }
{
    registers[n] = value;
}

/// The registers at the start.
pub fn first_registers() -> [u64; 31]
    ensures { (λ i. slice_index result i) ≡ first_registers }
{
    let mut registers = [0; 31];
    set(&mut registers, 19, LOCAL_BASE);
    set(&mut registers, 20, MOST_CALLS);
    set(&mut registers, 21, HEAP_BASE);
    set(&mut registers, 22, HEAP_WORDS);
    set(&mut registers, 23, LOCAL_WORDS);
    set(&mut registers, 24, DATA_BASE);
    registers
}
