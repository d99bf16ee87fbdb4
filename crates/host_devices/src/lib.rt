//! The host's files and standard streams: the trusted edge.
//!
//! Each is proved against its trait of `outside`. They tell no content, and raise a count at each fault, so the
//! layers above get from them no more than that a fault was one.
#![tactic(auto)]

mod files;
mod streams;

pub use files::HostFiles;
pub use streams::{HostSink, HostSource};
