//! What comes of a program.

ghost use Rattle.std.specs.Prelude.{◌≡◌};
ghost use Rattle.ob_eval.specs.Evaluated.{stop_answer};

use eval_store::Stop;

/// What a program comes to on an input, with so many turns.
#[derive(Clone, Copy, PartialEq, Eq, Debug)]
pub enum Eval {
    /// It has ended.
    Ended,
    /// The procedure of that number traps with this kind.
    Trapped { kind: u16, procedure: u32 },
    /// A turn is asked for and none is left.
    Going,
    /// The sink took less than is written.
    WriteFault,
    /// There was no memory.
    Memory,
}

/// The answer for a stop that has one.
pub fn answer_of(stop: Stop) -> Eval
    ensures { result ≡ stop_answer stop }
{
    match stop {
        Stop::Trapped(kind, procedure) => Eval::Trapped { kind, procedure },
        Stop::TurnsSpent => Eval::Going,
        Stop::NoSense => Eval::Memory,
        Stop::NoMemory => Eval::Memory,
    }
}
