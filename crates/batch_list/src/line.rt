//! A line of a list.

ghost use Rattle.std.specs.Prelude.{◌<◌};

/// A line of a list: its submitter, 0 or 1, and the names of its files, as bytes.
#[derive(Drop, Debug)]
pub struct JobLine {
    pub sender: u8,
    ghost submitter: { sender < 2 },
    pub names: Vec<Vec<u8>>,
}
