//! Pieces.

ghost use Rattle.std.specs.Prelude.{◌≡◌, ◌<◌, ◌≤◌, ◌%◌, ◌^◌, map, length};
ghost use Rattle.placed_code.specs.Words.{most_frame};
ghost use Rattle.procedure_pieces.specs.Claims.{AreInOrder, in_order_prop};
ghost use Rattle.procedure_code.specs.Holes.{hole_in};

use crate::holes::Hole;

/// A procedure's words but for its holes, the holes in the order of their words, whether calls of the procedure are
/// counted, and how many bytes its frame has.
#[derive(Drop)]
pub struct Piece {
    pub counted: bool,
    pub frame: u32,
    pub words: Vec<u32>,
    pub holes: Vec<Hole>,
    ghost some_words: { 0 < length words.items },
    ghost few_words: { length words.items ≤ 2 ^ 18 },
    ghost few_bytes: { frame ≤ most_frame },
    ghost whole_cells: { frame % 8 ≡ 0 },
    ghost in_order: { AreInOrder 0 (length words.items) (map hole_in holes.items) } by { in_order_prop 0 (length words.items) (map hole_in holes.items) },
}
