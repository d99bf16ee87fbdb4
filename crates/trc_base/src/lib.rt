//! The outside, the devices in memory and the host's, and the gate of tests, under one name.
//!
//! The program and tests name `trc_base` alone. A crate that needs only the traits, `Memory`, `write_all` or
//! `read_all` stands on `outside`, so that no device is proved below it.
#![tactic(auto)]

pub use host_devices::{HostFiles, HostSink, HostSource};
pub use memory_devices::{
    CleanFiles, CleanSink, CleanSource, MeetGate, MemFiles, MemSink, MemSource,
};
pub use outside::{
    Failed, Files, Gate, GetFault, InFault, Memory, OpenGate, PutFault, Sink, Source, WriteFault,
    read_all, write_all,
};
