//! The text that a service writes: bytes in memory, some bytes apart, up to a 0.

ghost use Rattle.std.specs.Prelude.{◌≡◌, ◌+◌, ◌-◌, ◌≤◌, ◌<◌, [], length, take, None, IfSome, IfNone, OnOk, OnErr};
ghost use Rattle.outside.specs.Sink.{TookAll, TookFront, Faulted};
ghost use Rattle.wrapping_numbers.specs.Numbers.{add64};
ghost use Rattle.a64_memory.specs.Texts.{Bytes, text_at, before, after_bytes};
ghost use Rattle.a64_machine.specs.Answers.{OfBytes, Lacks};

use a64_memory::{Region, load1};
use outside::{Sink, WriteFault, write_all};

/// How many bytes are written at once.
const PIECE: usize = 256;

/// The first address of the text that lies in no region. No byte after the first 0 is looked at.
pub fn outside(regions: &[Region], from: u64, by: u64, most: u64) -> Option<u64>
    ensures { Lacks result (text_at regions.now by from most) }
{
    let mut at = from;
    for _n in 0..most {
        match load1(regions, at) {
            None => return Some(at),
            Some(0) => return None,
            Some(_) => at = at.wrapping_add(by),
        }
    }
    None
}

/// Writes a text that lies in the regions, in pieces.
pub fn write_text<O: Sink>(
    regions: &[Region],
    from: u64,
    by: u64,
    most: u64,
    out: &mut O,
) -> Result<(), WriteFault>
    requires { Lacks None (text_at regions.now by from most) }
    ensures all { OnOk result (OfBytes (text_at regions.now by from most) (TookAll (O.account out.old) (O.account out.new))) }
    ensures front { OnErr result (OfBytes (text_at regions.now by from most) (TookFront (O.account out.old) (O.account out.new))) }
    ensures rises { (O.account out.old).faults ≤ (O.account out.new).faults }
    ensures failed { OnErr result (Faulted (O.account out.old) (O.account out.new)) }
{
    let mut piece = [0; PIECE];
    let mut rest = Rest {
        at: from,
        left: most,
    };
    loop {
        let count = gather(regions, by, &mut rest, &mut piece);
        write_all(out, &piece[..count])?;
        if count < PIECE {
            return Ok(());
        }
    }
}

/// What is left of a text: where its next byte is, and at most how many there are.
#[derive(Drop)]
struct Rest {
    at: u64,
    left: u64,
}

/// Takes the next bytes of a text: as many as the piece has room for, or all that are left. Says how many they are.
fn gather(regions: &[Region], by: u64, rest: &mut Rest, piece: &mut [u8]) -> usize
    requires { Lacks None (text_at regions.now by rest.old.at rest.old.left) }
    ensures fits { result ≤ length piece.new }
    ensures passed { text_at regions.now by rest.old.at rest.old.left
        ≡ after_bytes (take result piece.new) (text_at regions.now by rest.new.at rest.new.left) }
    ensures last { result < length piece.new → text_at regions.now by rest.new.at rest.new.left ≡ Bytes [] }
    ensures fewer { rest.old.left ≡ rest.new.left + result }
{
    let mut count = 0;
    while count < piece.len() {
        match next_byte(regions, by, rest) {
            None => return count,
            Some(byte) => {
                piece[count] = byte;
                count += 1;
                rest.at = rest.at.wrapping_add(by);
                rest.left -= 1;
            }
        }
    }
    count
}

/// The next byte of a text, where one is left.
fn next_byte(regions: &[Region], by: u64, rest: &Rest) -> Option<u8>
    requires { Lacks None (text_at regions.now by rest.now.at rest.now.left) }
    ensures some { IfSome result (λ byte. text_at regions.now by rest.now.at rest.now.left
        ≡ before byte (text_at regions.now by (add64 rest.now.at by) (rest.now.left - 1))) }
    ensures left { IfSome result (λ byte. 0 < rest.now.left) }
    ensures none { IfNone result (text_at regions.now by rest.now.at rest.now.left ≡ Bytes []) }
{
    if rest.left == 0 {
        return None;
    }
    match load1(regions, rest.at) {
        None => None,
        Some(0) => None,
        Some(byte) => Some(byte),
    }
}
