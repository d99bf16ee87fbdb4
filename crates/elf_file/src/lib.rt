//! Images as programs that Linux on an AArch64 processor runs.
//!
//! `write_elf` gives the bytes of a static ELF file of 64 bits: headers, the image's words with X28 for SP, a stub for each
//! call of a service, the words that say what the runtime has to know, the runtime, and the constants. The bytes are
//! `elf_bytes` (`specs/Spelling.antt`), the words `native_words` (`specs/Native.antt`), the runtime stands in
//! `specs/Runtime.antt`; `laws` says how the words hang together.
#![tactic(auto)]

pub mod laws;
mod native;
mod runtime;
mod writing;

pub use writing::write_elf;
