//! The files of an example.

use crate::templates::{bytes_of, written_out};
use anyhow::Result;
use std::alloc::Global;
use trc_base::MemFiles;

/// Whether a file of this name is written in hexadecimal digits.
fn is_hexadecimal(name: &str) -> bool {
    name.ends_with(".img") || name.ends_with(".notes") || name.ends_with(".obj")
}

/// Puts a file with this text among the files, where it has a name.
fn put_file(alloc: Global, files: &mut MemFiles, name: &str, text: &str) -> Result<()> {
    if name.is_empty() {
        return Ok(());
    }
    if is_hexadecimal(name) {
        files.put(name, bytes_of(alloc, text)?.as_slice())?;
    } else {
        files.put(name, written_out(alloc, text)?.as_bytes())?;
    }
    Ok(())
}

/// Puts the files of an example among the files: each begins with a line that ends with a colon, and its lines stand behind four
/// blanks.
pub(crate) fn put_example(alloc: Global, files: &mut MemFiles, example: &str) -> Result<()> {
    let mut name = String::new(alloc);
    let mut text = String::new(alloc);
    for line in example.split('\n') {
        if let Some(part) = line.strip_prefix("    ") {
            text.push_str(part)?;
            text.push('\n')?;
        } else if let Some(next) = line.strip_suffix(':') {
            put_file(alloc, files, name.as_str(), text.as_str())?;
            name = String::from_str(alloc, next)?;
            text = String::new(alloc);
        }
    }
    put_file(alloc, files, name.as_str(), text.as_str())
}
