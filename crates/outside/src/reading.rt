//! Reading all that a source has left.

ghost use Rattle.std.specs.Prelude.{◌≡◌, ◌<◌, ◌≤◌, ◌+◌, length, IfOk, Err};
ghost use Rattle.outside.specs.Counts.{Rose};
ghost use Rattle.outside.specs.Source.{Gave, IsAtEnd, GaveSome};

use crate::source::Source;
use std::alloc::Global;
use thiserror::Error;

/// Why the input wasn't read.
#[derive(Clone, Copy, Debug, Error)]
pub enum InFault {
    /// The source failed.
    #[error("read fault")]
    ReadFault,
    /// More bytes came than were asked for at most.
    #[error("the input is too long")]
    TooLong,
    /// There was no memory for the bytes.
    #[error("out of memory")]
    Memory,
}

/// How many bytes one read asks for at most.
const PIECE: usize = 4096;

/// All that the source has left, where that is at most `most` bytes. It reads until a read answers 0, or one byte
/// more than `most` was read, which is `TooLong`. Whatever the answer, the bytes that were read are gone from the
/// source.
pub fn read_all<S: Source>(alloc: Global, source: &mut S, most: usize) -> Result<Vec<u8>, InFault>
    requires { most < usize.MAX }
    ensures within { IfOk result (λ v. length v.items ≤ most) }
    ensures gave { IfOk result (λ v. Gave (S.left source.old) v.items (S.left source.new)) }
    ensures whole { IfOk result (λ v. IsAtEnd (S.left source.new)) }
    ensures too_long { result ≡ Err InFault.TooLong → GaveSome (S.left source.old) (S.left source.new) (λ n. n ≡ most + 1) }
    ensures read_fault { result ≡ Err InFault.ReadFault → GaveSome (S.left source.old) (S.left source.new) (λ n. n ≤ most) }
    ensures memory { result ≡ Err InFault.Memory → GaveSome (S.left source.old) (S.left source.new) (λ n. n ≤ most) }
    ensures rises { S.faults source.old ≤ S.faults source.new }
    ensures failed { result ≡ Err InFault.ReadFault → Rose (S.faults source.old) (S.faults source.new) }
{
    let mut bytes = Vec::new(alloc);
    let mut piece = [0u8; PIECE];
    while bytes.len() <= most {
        let room = PIECE.min(most + 1 - bytes.len());
        if bytes.reserve(room).is_err() {
            return Err(InFault::Memory);
        }
        match source.read(&mut piece[..room]) {
            Ok(0) => return Ok(bytes),
            Ok(count) => {
                if bytes.extend_from_slice(&piece[..count]).is_err() {
                    unreachable!()
                }
            }
            Err(_) => return Err(InFault::ReadFault),
        }
    }
    Err(InFault::TooLong)
}
