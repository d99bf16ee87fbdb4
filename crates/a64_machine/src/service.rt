//! What an SVC does, by its number.

ghost use Rattle.std.specs.Prelude.{◌≡◌, ◌≤◌, ◌-◌, ◌^◌, drop, slice_index_or};
ghost use Rattle.outside.specs.Sink.{TookAll, TookFront, Faulted};
ghost use Rattle.a64_memory.specs.Texts.{text_at};
ghost use Rattle.a64_machine.specs.Services.{service, writes, writes_text, takes_input};
ghost use Rattle.a64_machine.specs.View.{core_state, Told};
ghost use Rattle.a64_machine.specs.Answers.{Made};

use crate::answers::Step;
use crate::processor::Core;
use crate::text::{outside, write_text};
use a64_instr::Bits;
use out_text::IntText;
use outside::{Sink, WriteFault, write_all};

impl Core {
    /// Takes the next byte of the input, or gives 2^64 - 1 at its end.
    fn next_byte(&mut self) -> u64
        ensures byte { result ≡ slice_index_or (core_state self.old).input 0 (2 ^ 64 - 1) }
        ensures taken { core_state self.new ≡ record (core_state self.old) { input = drop 1 (core_state self.old).input } }
    {
        if self.taken < self.input.len() {
            let byte = self.input[self.taken] as u64;
            self.taken += 1;
            return byte;
        }
        u64::MAX
    }

    /// X0 becomes the next byte of the input, or 2^64 - 1 at its end.
    fn takes_input(&mut self) -> Step
        ensures { Told result (core_state self.old) (core_state self.new) (takes_input (core_state self.old)) }
    {
        let byte = self.next_byte();
        self.gives(Bits::new(0), byte)
    }

    /// Writes and goes on.
    fn writes<O: Sink>(&mut self, bytes: &[u8], out: &mut O) -> Step
        ensures made { Made result (core_state self.old) (core_state self.new) (writes (core_state self.old) bytes.now)
            (TookAll (O.account out.old) (O.account out.new)) (TookFront (O.account out.old) (O.account out.new)) }
        ensures rises { (O.account out.old).faults ≤ (O.account out.new).faults }
        ensures failed { result ≡ Step.WriteFault → Faulted (O.account out.old) (O.account out.new) }
    {
        match write_all(out, bytes) {
            Ok(()) => {
                self.pc = self.pc.wrapping_add(4);
                Step::Going
            }
            Err(WriteFault) => Step::WriteFault,
        }
    }

    /// Writes the text at X0, of at most X1 bytes that lie X2 apart, and goes on.
    fn writes_text<O: Sink>(&mut self, out: &mut O) -> Step
        ensures made { let s = core_state self.old in Made result s (core_state self.new) (writes_text s (text_at s.memory (s.registers 2) (s.registers 0) (s.registers 1)))
            (TookAll (O.account out.old) (O.account out.new)) (TookFront (O.account out.old) (O.account out.new)) }
        ensures rises { (O.account out.old).faults ≤ (O.account out.new).faults }
        ensures failed { result ≡ Step.WriteFault → Faulted (O.account out.old) (O.account out.new) }
    {
        let (from, most, by) = (self.registers[0], self.registers[1], self.registers[2]);
        if let Some(address) = outside(&self.memory, from, by, most) {
            return Step::BadAddress(address);
        }
        match write_text(&self.memory, from, by, most, out) {
            Ok(()) => {
                self.pc = self.pc.wrapping_add(4);
                Step::Going
            }
            Err(WriteFault) => Step::WriteFault,
        }
    }

    /// Carries out an SVC.
    pub fn service<O: Sink>(&mut self, number: Bits<16>, out: &mut O) -> Step
        ensures made { Made result (core_state self.old) (core_state self.new) (service number (core_state self.old))
            (TookAll (O.account out.old) (O.account out.new)) (TookFront (O.account out.old) (O.account out.new)) }
        ensures rises { (O.account out.old).faults ≤ (O.account out.new).faults }
        ensures failed { result ≡ Step.WriteFault → Faulted (O.account out.old) (O.account out.new) }
    {
        let (first, second, third) = (self.registers[0], self.registers[1], self.registers[2]);
        match number.get() {
            0 => Step::Ended,
            1 => self.writes(&[(first & 0xff) as u8], out),
            2 => self.writes(IntText::new(first, second).as_slice(), out),
            3 if third == 1 || third == 8 => self.writes_text(out),
            4 => self.takes_input(),
            n => Step::BadCall(n as u16),
        }
    }
}
