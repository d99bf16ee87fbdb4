//! Texts of a wanted shape and size.

ghost use Rattle.std.specs.Prelude.{◌≡◌, ◌≤◌, ◌<◌, length, IfOk};

use std::alloc::{AllocError, Global};

/// What a text is made of.
#[derive(Clone, Copy)]
pub enum Shape {
    /// Statements with names, numbers, delimiters and a comment.
    Program,
    /// One literal of many digits.
    Digits,
    /// Comments, each in the one before.
    Comments,
}

/// Appends a piece as often as it fits within so many bytes.
fn fill(text: &mut Vec<u8>, piece: &[u8], size: usize) -> Result<(), AllocError>
    requires size { size ≤ 1048576 }
    requires some { 0 < length piece.now }
    requires short { length piece.now ≤ 100 }
    requires room { length text.old.items ≤ size }
    ensures within { length text.new.items ≤ size }
{
    'pieces: while size - text.len() >= piece.len() {
        text.extend_from_slice(piece)?;
    }
    Ok(())
}

/// A text of this shape and size, with blanks at its end where its pieces leave room.
pub fn text(alloc: Global, shape: Shape, size: usize) -> Result<Vec<u8>, AllocError>
    requires { size ≤ 1048576 }
    ensures { IfOk result (λ v. length v.items ≤ size) }
{
    let mut text = Vec::new(alloc);
    match shape {
        Shape::Program => fill(
            &mut text,
            b"IF a1 <= 0FFH THEN b.next := c + 12 (* as before *) END;\n",
            size,
        )?,
        Shape::Digits => fill(&mut text, b"0", size)?,
        Shape::Comments => {
            fill(&mut text, b"(*", size / 4 * 2)?;
            fill(&mut text, b"*)", size / 4 * 4)?;
        }
    }
    fill(&mut text, b" ", size)?;
    Ok(text)
}
