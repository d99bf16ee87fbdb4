//! The host's standard streams.

ghost use Rattle.std.specs.Prelude.{◌≡◌, ◌≤◌, ◌+◌, length, None, Some, IfOk};

use outside::{Failed, Sink, Source};
use std::io;
use std::io::{Read, Write};

/// The host's standard input.
#[derive(Drop)]
pub struct HostSource {
    stream: std::rt::Stdin,
    faults: u64,
}

impl HostSource {
    /// The standard input.
    pub fn new(runtime: &HostRuntime) -> Self {
        HostSource {
            stream: runtime.stdin(),
            faults: 0,
        }
    }
}

impl Source for HostSource {
    ghost left = { λ _. None };

    ghost faults = { λ s. s.faults };

    fn read(&mut self, piece: &mut [u8]) -> Result<usize, Failed> {
        match self.stream.read(piece) {
            Ok(count) => Ok(count),
            Err(_) => {
                self.faults = self.faults.saturating_add(1);
                Err(Failed)
            }
        }
    }
}

/// A standard stream that is written.
#[derive(Clone, Copy)]
enum Stream {
    Output(std::rt::Stdout),
    Error(std::rt::Stderr),
}

/// The host's standard output, or its standard error.
#[derive(Drop)]
pub struct HostSink {
    stream: Stream,
    faults: u64,
}

impl HostSink {
    /// The standard error where `error` says so, else the standard output.
    pub fn new(runtime: &HostRuntime, error: bool) -> Self {
        let stream = if error {
            Stream::Error(runtime.stderr())
        } else {
            Stream::Output(runtime.stdout())
        };
        HostSink { stream, faults: 0 }
    }
}

/// Writes some of the bytes to the stream.
fn write_stream(stream: Stream, piece: &[u8]) -> io::Result<usize>
    ensures { IfOk result (λ n. n ≤ length piece.now) }
{
    match stream {
        Stream::Output(mut output) => output.write(piece),
        Stream::Error(mut error) => error.write(piece),
    }
}

impl Sink for HostSink {
    ghost account = { λ s. record { taken = None; amount = None; faults = s.faults } };

    fn write(&mut self, piece: &[u8]) -> Result<usize, Failed> {
        match write_stream(self.stream, piece) {
            Ok(0) => {
                self.faults = self.faults.saturating_add(1);
                Ok(0)
            }
            Ok(count) => Ok(count),
            Err(_) => {
                self.faults = self.faults.saturating_add(1);
                Err(Failed)
            }
        }
    }
}
