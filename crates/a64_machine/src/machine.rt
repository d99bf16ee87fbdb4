//! The machine whole: its code, and everything else.

ghost use Rattle.std.specs.Prelude.{◌≡◌, ◌^◌, ◌<◌, ◌≤◌, [], IfOk};
ghost use Rattle.outside.specs.Sink.{TookAll, TookFront, Faulted};
ghost use Rattle.run_laws.specs.Runs.{run};
ghost use Rattle.image_form.specs.Form.{IsInForm};
ghost use Rattle.a64_numbers.specs.Conditions.{clear_flags};
ghost use Rattle.a64_machine.specs.State.{place_at};
ghost use Rattle.a64_machine.specs.Machine.{step_of, start};
ghost use Rattle.a64_machine.specs.Effects.{effect};
ghost use Rattle.a64_machine.specs.View.{core_state, code_of, state_of};
ghost use Rattle.a64_machine.specs.Answers.{Made, Ran};

use crate::answers::{Halt, Step};
use crate::code::{CODE_BASE, Code};
use crate::execute::service_number;
use crate::layout::{first_memory, first_registers};
use crate::processor::Core;
use a64_instr::Instr;
use a64_memory::{FRAMES, FRAMES_BASE};
use a64_numbers::Flags;
use image_form::Image;
use outside::{Memory, Sink};
use std::alloc::Global;

/// The A64 machine with an image loaded.
#[derive(Drop)]
pub struct Machine {
    code: Code,
    core: Core,
}

impl Core {
    /// Carries out any instruction.
    #[inline(always)]
    fn carries_out<O: Sink>(&mut self, i: &Instr, out: &mut O) -> Step
        requires { place_at (core_state self.old).pc < 2 ^ 32 }
        ensures made { Made result (core_state self.old) (core_state self.new) (effect i.now (core_state self.old))
            (TookAll (O.account out.old) (O.account out.new)) (TookFront (O.account out.old) (O.account out.new)) }
        ensures rises { (O.account out.old).faults ≤ (O.account out.new).faults }
        ensures failed { result ≡ Step.WriteFault → Faulted (O.account out.old) (O.account out.new) }
    {
        match service_number(i) {
            Some(number) => self.service(number, out),
            None => self.execute(i),
        }
    }
}

/// No flag is set.
fn clear_flags() -> Flags
    ensures { result ≡ clear_flags }
{
    Flags {
        negative: false,
        zero: false,
        carry: false,
        overflow: false,
    }
}

impl Machine {
    /// The machine with an image laid out and its input not yet read. It takes all the memory that it will need.
    pub fn load(alloc: Global, image: Image, input: Vec<u8>) -> Result<Machine, Memory>
        requires { IsInForm image }
        ensures code { IfOk result (λ m. code_of m ≡ image.code) }
        ensures state { IfOk result (λ m. state_of m ≡ start image input.items) }
    {
        let memory = first_memory(alloc, &image)?;
        let core = Core {
            registers: first_registers(),
            sp: FRAMES_BASE + FRAMES * image.frame as u64,
            pc: CODE_BASE,
            flags: clear_flags(),
            memory,
            input,
            taken: 0,
        };
        let Image {
            version: _version,
            flags: _flags,
            code,
            globals: _globals,
            constants: _constants,
            frame: _frame,
            places: _places,
        } = image;
        let code = Code::of_words(alloc, code.into_vec())?;
        Ok(Machine { code, core })
    }

    /// Makes one step: fetches a word and carries out its instruction. After `WriteFault` the machine is as
    /// before, and may make the step again; after every other answer but `Going` each further step answers
    /// the same. It takes no memory.
    #[inline]
    pub fn step<O: Sink>(&mut self, out: &mut O) -> Step
        ensures code { code_of self.new ≡ code_of self.old }
        ensures made { Made result (state_of self.old) (state_of self.new) (step_of (code_of self.old) (state_of self.old))
            (TookAll (O.account out.old) (O.account out.new)) (TookFront (O.account out.old) (O.account out.new)) }
        ensures rises { (O.account out.old).faults ≤ (O.account out.new).faults }
        ensures failed { result ≡ Step.WriteFault → Faulted (O.account out.old) (O.account out.new) }
    {
        let pc = self.core.pc;
        match self.code.instruction(pc) {
            Some(i) => self.core.carries_out(i, out),
            None => self.code.stops(pc),
        }
    }

    /// Makes at most `steps` steps. `Spent` comes exactly where they were all made and the machine would go on,
    /// so also for no steps. It takes no memory.
    pub fn run<O: Sink>(self, steps: u64, out: &mut O) -> Halt
        ensures ran { Ran result (run (step_of (code_of self)) steps (state_of self) [])
            (TookAll (O.account out.old) (O.account out.new)) (TookFront (O.account out.old) (O.account out.new)) }
        ensures rises { (O.account out.old).faults ≤ (O.account out.new).faults }
        ensures failed { result ≡ Halt.WriteFault → Faulted (O.account out.old) (O.account out.new) }
    {
        let mut machine = self;
        for _n in 0..steps {
            match machine.step(out) {
                Step::Going => {}
                Step::Ended => return Halt::Ended,
                Step::Trapped { kind, word } => return Halt::Trapped { kind, word },
                Step::Undefined(word) => return Halt::Undefined(word),
                Step::BadAddress(address) => return Halt::BadAddress(address),
                Step::BadCall(number) => return Halt::BadCall(number),
                Step::WriteFault => return Halt::WriteFault,
            }
        }
        Halt::Spent
    }
}
