//! Devices in memory: files, sources, sinks and a gate, for tests and for commands that need no outside.
//!
//! Of `MemFiles`, `MemSource` and `MemSink` the calls whose numbers are listed fail, and no others; a source and a
//! sink move so many bytes at a time. `CleanFiles`, `CleanSource` and `CleanSink` never fail. Each is proved
//! against its trait of `outside`, and tells what it holds, what is left of it, or what it took. `MeetGate` is a gate at which
//! two workers meet.
#![tactic(auto)]

mod clean;
mod meet_gate;
mod mem_files;
mod mem_sink;
mod mem_source;
mod schedule;
mod store;

pub use clean::{CleanFiles, CleanSink, CleanSource};
pub use meet_gate::MeetGate;
pub use mem_files::MemFiles;
pub use mem_sink::MemSink;
pub use mem_source::MemSource;
