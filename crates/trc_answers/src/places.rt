//! Lines and columns.

ghost use Rattle.std.specs.Prelude.{◌≡◌, suc, length, take};
ghost use Rattle.ob_judge.specs.Scopes.{line_ends};
ghost use Rattle.trc_answers.specs.Places.{last_line};

/// A line and a column, each counted from 1.
#[derive(Clone, Copy)]
pub struct Position {
    pub line: usize,
    pub column: usize,
}

/// Where a byte of a text stands: the line is one more than the line ends (byte 10) before it, the column one more than the bytes
/// since the last of them or since the text's beginning. A place past the end counts as the end. Takes time in proportion to the
/// place.
pub fn position_of(text: &[u8], at: usize) -> Position
    ensures line { result.line ≡ suc (line_ends (take at text.now)) }
    ensures column { result.column ≡ suc (length (last_line (take at text.now))) }
{
    let mut place = Position { line: 1, column: 1 };
    let before = &text[..at.min(text.len())];
    for byte in before {
        if *byte == b'\n' {
            place.line += 1;
            place.column = 1;
        } else {
            place.column += 1;
        }
    }
    place
}
