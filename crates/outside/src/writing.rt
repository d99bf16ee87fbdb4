//! Writing all of a list of bytes.

ghost use Rattle.std.specs.Prelude.{◌≤◌, OnOk, OnErr};
ghost use Rattle.outside.specs.Sink.{TookAll, TookFront, Faulted};

use crate::sink::Sink;
use thiserror::Error;

/// A sink failed, or took nothing.
#[derive(Clone, Copy, Debug, Error)]
#[error("write fault")]
pub struct WriteFault;

/// Writes all the bytes in order. After a fault a front of them was taken. It takes no memory.
pub fn write_all<S: Sink>(sink: &mut S, bytes: &[u8]) -> Result<(), WriteFault>
    ensures all { OnOk result (TookAll (S.account sink.old) (S.account sink.new) bytes.now) }
    ensures front { OnErr result (TookFront (S.account sink.old) (S.account sink.new) bytes.now) }
    ensures rises { (S.account sink.old).faults ≤ (S.account sink.new).faults }
    ensures failed { OnErr result (Faulted (S.account sink.old) (S.account sink.new)) }
{
    let mut done = 0;
    while done < bytes.len() {
        match sink.write(&bytes[done..]) {
            Ok(0) => return Err(WriteFault),
            Ok(n) => done += n,
            Err(_) => return Err(WriteFault),
        }
    }
    Ok(())
}
