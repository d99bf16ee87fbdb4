//! The host's files.

ghost use Rattle.std.specs.Prelude.{◌≡◌, ◌≤◌, ◌+◌, length, None, Some, IfOk};

use outside::{Files, GetFault, PutFault};
use std::alloc::Global;
use std::io::{ErrorKind, Read};
use std::{fs, io};

/// The host's files.
#[derive(Drop)]
pub struct HostFiles<'a, R: std::rt::Files> {
    runtime: &'a R,
    faults: u64,
}

impl<'a, R: std::rt::Files> HostFiles<'a, R> {
    /// The files that this runtime reaches.
    pub fn new(runtime: &'a R) -> Self {
        HostFiles { runtime, faults: 0 }
    }
}

impl<'a, R: std::rt::Files> Files for HostFiles<'a, R> {
    ghost held = { λ _. None };

    ghost faults = { λ f. f.faults };

    fn read(&mut self, alloc: Global, name: &str, most: usize) -> Result<Vec<u8>, GetFault> {
        match read_file(self.runtime, alloc, name, most) {
            Ok(bytes) => Ok(bytes),
            Err(GetFault::Failed) => {
                self.faults = self.faults.saturating_add(1);
                Err(GetFault::Failed)
            }
            Err(fault) => Err(fault),
        }
    }

    fn write(&mut self, _alloc: Global, name: &str, bytes: &[u8]) -> Result<(), PutFault> {
        match fs::write(self.runtime, name, bytes) {
            Ok(()) => Ok(()),
            Err(_) => {
                self.faults = self.faults.saturating_add(1);
                Err(PutFault::Failed)
            }
        }
    }
}

/// The bytes of a file of at most `most` bytes.
fn read_file<R: std::rt::Files>(
    runtime: &R,
    alloc: Global,
    name: &str,
    most: usize,
) -> Result<Vec<u8>, GetFault>
    ensures { IfOk result (λ v. length v.items ≤ most) }
{
    match fs::open(runtime, name) {
        Ok(file) => read_at_most(alloc, file, most),
        Err(error) => Err(open_fault(&error)),
    }
}

/// Why a file couldn't be opened.
fn open_fault(error: &io::Error) -> GetFault {
    match error.kind() {
        ErrorKind::NotFound => GetFault::NoSuchFile,
        ErrorKind::OutOfMemory => GetFault::Memory,
        _ => GetFault::Failed,
    }
}

/// All that the reader has, where that is at most `most` bytes.
fn read_at_most<F: Read + Drop>(
    alloc: Global,
    mut file: F,
    most: usize,
) -> Result<Vec<u8>, GetFault>
    ensures { IfOk result (λ v. length v.items ≤ most) }
{
    let mut bytes = Vec::new(alloc);
    let mut piece = [0u8; 4096];
    while bytes.len() <= most {
        match file.read(&mut piece) {
            Ok(0) => return Ok(bytes),
            Ok(count) => {
                if bytes.extend_from_slice(&piece[..count]).is_err() {
                    return Err(GetFault::Memory);
                }
            }
            Err(_) => return Err(GetFault::Failed),
        }
    }
    Err(GetFault::TooLong)
}
