//! Joins and headers of loops.

ghost use Rattle.std.specs.Prelude.{◌≡◌, OnOk, IfOk};
ghost use Rattle.ssa_lowered.specs.Control.{often};
ghost use Rattle.ssa_exprs.specs.Making.{View};
ghost use Rattle.ssa_statements.specs.Meeting.{Jumps, Meets, Heads, FinishesAll};

use block_runs::End;
use outside::Memory;
use ssa_exprs::Making;

/// A choice whose join is still to be made: the join's label, the variables that are its parameters, when it was begun, and how
/// often it runs.
#[derive(Drop)]
pub struct Frame {
    pub out: u32,
    pub vars: Vec<u32>,
    pub moment: usize,
    pub freq: u64,
}

/// The open block ends with a jump that gives the values of variables.
pub fn jump(b: &mut Making, out: u32, vars: &[u32], freq: u64) -> Result<(), Memory>
    ensures { OnOk result (Jumps b.old b.new out vars.now freq) }
{
    let args = b.picked(vars)?;
    b.close(End::Jump { to: out, args }, 0, freq, None)?;
    Ok(())
}

/// It jumps to a join, which begins behind it with the variables as they were at a moment.
pub fn meet(b: &mut Making, out: u32, vars: &[u32], moment: usize, freq: u64) -> Result<(), Memory>
    ensures { OnOk result (Meets b.old b.new out vars.now moment freq) }
{
    let args = b.picked(vars)?;
    b.back(moment);
    b.join(End::Jump { to: out, args }, vars, freq, None)?;
    b.bind(out)?;
    Ok(())
}

/// It jumps to a loop's header, which begins behind it; the result is the header's label.
pub fn head(b: &mut Making, vars: &[u32]) -> Result<u32, Memory>
    ensures { IfOk result (λ h. Heads b.old b.new h vars.now) }
{
    let to = b.label()?;
    let freq = often(b.freq());
    let block = b.block();
    let args = b.picked(vars)?;
    b.join(End::Jump { to, args }, vars, freq, Some(block))?;
    b.bind(to)?;
    Ok(to)
}

/// How often the blocks of a loop run.
fn often(freq: u64) -> u64
    ensures { result ≡ often freq }
{
    if freq >= 140737488355328 {
        1125899906842624
    } else {
        8 * freq
    }
}

/// The joins of choices in each other are made, the innermost first.
pub fn finish(b: &mut Making, frames: Vec<Frame>) -> Result<(), Memory>
    ensures { OnOk result (FinishesAll frames.items b.old b.new) }
{
    let mut frames = frames;
    while let Some(frame) = frames.pop() {
        meet(
            b,
            frame.out,
            frame.vars.as_slice(),
            frame.moment,
            frame.freq,
        )?;
    }
    Ok(())
}
