//! Where calls take their arguments.

ghost use Rattle.std.specs.Prelude.{◌≡◌};
ghost use Rattle.lir_core.specs.Lines.{argument_place, is_aimed};

use crate::places::Place;
use block_runs::Code;

/// Whether an operation calls the procedure whose address is its first use.
pub fn is_aimed(template: Code) -> bool
    ensures { result ≡ is_aimed template }
{
    match template {
        Code::CallAt => true,
        _ => false,
    }
}

/// Where a call takes an argument.
pub fn argument_place(index: u32) -> Place
    ensures { result ≡ argument_place index }
{
    match index {
        0 => Place::Reg(0),
        1 => Place::Reg(1),
        2 => Place::Reg(2),
        3 => Place::Reg(3),
        _ => Place::Out(index - 4),
    }
}
