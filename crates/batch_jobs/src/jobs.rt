//! Jobs, and what is replied to them.

ghost use Rattle.std.specs.Prelude.{◌≤◌, length};

use items::Items;

/// The texts of a job's modules, at most 64.
#[derive(Drop)]
pub struct JobTexts {
    pub texts: Vec<Items<u8>>,
    ghost few: { length texts.items ≤ 64 },
}

/// A job of a batch.
#[derive(Drop)]
pub enum Job {
    /// It is refused, with this status.
    Refused { status: u8 },
    /// Its modules are compiled, and their image is run.
    Sources(JobTexts),
}

/// What is replied to a job: a status, and what its run wrote, at most 65,536 bytes.
#[derive(Drop)]
pub struct JobReply {
    pub status: u8,
    pub written: Vec<u8>,
}
