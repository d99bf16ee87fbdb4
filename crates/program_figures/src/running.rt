//! A run, with its steps counted.

ghost use Rattle.std.specs.Prelude.{◌≡◌, [], None, IfOk, IfNone};
ghost use Rattle.image_form.specs.Form.{IsInForm};
ghost use Rattle.run_laws.specs.Runs.{run};
ghost use Rattle.a64_machine.specs.Machine.{step_of};
ghost use Rattle.a64_machine.specs.View.{code_of, state_of};
ghost use Rattle.trc_answers.specs.Runs.{run_of};
ghost use Rattle.program_figures.specs.Runs.{AreFewest, counted_run, first_over, halt_of};
ghost use Rattle.program_figures.specs.Steps.{IsMove, halt_of_step};

use a64_machine::{Halt, Machine, Step};
use count_sink::CountSink;
use image_form::Image;
use outside::Memory;
use std::alloc::Global;

/// How a run ended, and how many steps it made: the fewest with which it is over, or all that were allowed.
#[derive(Clone, Copy)]
pub struct CountedRun {
    pub halt: Halt,
    pub steps: u64,
}

// Makes a step, whose writing is let go: how the machine halts, or none where it goes on.
fn halt_of_step(machine: &mut Machine) -> Option<Halt>
    ensures code { code_of machine.new ≡ code_of machine.old }
    ensures halt { result ≡ halt_of_step (step_of (code_of machine.old) (state_of machine.old)) }
    ensures moves { IfNone result (IsMove (step_of (code_of machine.old) (state_of machine.old)) (state_of machine.new)) }
{
    match machine.step(&mut CountSink::new()) {
        Step::Going => None,
        Step::Ended => Some(Halt::Ended),
        Step::Trapped { kind, word } => Some(Halt::Trapped { kind, word }),
        Step::Undefined(word) => Some(Halt::Undefined(word)),
        Step::BadAddress(address) => Some(Halt::BadAddress(address)),
        Step::BadCall(number) => Some(Halt::BadCall(number)),
        Step::WriteFault => unreachable!(),
    }
}

// Runs a machine, for at most so many steps.
fn count_steps(machine: Machine, steps: u64) -> CountedRun
    ensures halt { result.halt ≡ halt_of (run (step_of (code_of machine)) steps (state_of machine) []) }
    ensures steps { result.steps ≡ first_over (λ n. run (step_of (code_of machine)) n (state_of machine) []) steps 0 }
    ensures fewest { AreFewest (λ n. run (step_of (code_of machine)) n (state_of machine) []) steps result.steps }
{
    let mut machine = machine;
    for made in 0..steps {
        if let Some(halt) = halt_of_step(&mut machine) {
            return CountedRun {
                halt,
                steps: made + 1,
            };
        }
    }
    CountedRun {
        halt: Halt::Spent,
        steps,
    }
}

/// Runs an image on an input, for at most so many steps; what it writes is let go.
pub fn counted_run(
    alloc: Global,
    image: Image,
    input: Vec<u8>,
    steps: u64,
) -> Result<CountedRun, Memory>
    requires { IsInForm image }
    ensures ran { IfOk result (λ ran. ran ≡ counted_run image input.items steps) }
    ensures fewest { IfOk result (λ ran. AreFewest (λ n. run_of image input.items n) steps ran.steps) }
{
    let machine = Machine::load(alloc, image, input)?;
    Ok(count_steps(machine, steps))
}
