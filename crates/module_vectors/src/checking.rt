//! The judgement on modules.

use items::Items;
use outside::Memory;
use source_program::{SourceFault, source_program};
use std::alloc::Global;

/// The verdict on modules, in words.
pub(crate) fn verdict(alloc: Global, texts: &[Items<u8>]) -> Result<String, Memory> {
    match source_program(alloc, texts) {
        Ok(_) => Ok(String::from_str(alloc, "legal")?),
        Err(SourceFault::Fault { module, number, at }) => {
            Ok(format!(in alloc; "fault {number} in {module} at {at}")?)
        }
        Err(SourceFault::TooLong { module }) => Ok(format!(in alloc; "too long in {module}")?),
        Err(SourceFault::Memory) => Err(Memory),
    }
}
