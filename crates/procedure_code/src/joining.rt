//! Pieces in a row.

ghost use Rattle.std.specs.Prelude.{◌≡◌, ◌+◌, ◌<◌, ◌≤◌, ◌^◌, ◌++◌, map, length, OnOk};
ghost use Rattle.run_laws.specs.Layers.{whole_width, spread};
ghost use Rattle.link_words.specs.Fields.{InReach};
ghost use Rattle.procedure_pieces.specs.Pieces.{filled};
ghost use Rattle.procedure_pieces.specs.Linked.{piece_width};
ghost use Rattle.procedure_code.specs.Parts.{entry_at};
ghost use Rattle.procedure_code.specs.Joined.{filled_by};
ghost use Rattle.procedure_code.specs.Views.{piece_in};

use crate::filling::{Entries, fill};
use crate::pieces::Piece;
use std::alloc::AllocError;

/// Appends the words of a piece, with its holes filled.
pub(crate) fn push_piece(
    words: &mut Vec<u32>,
    entries: Entries,
    piece: &Piece,
) -> Result<(), AllocError>
    requires procedures { InReach entries.procedures.now }
    requires routines { entries.routines < 2 ^ 17 }
    requires near { length words.old.items + length piece.now.words.items ≤ 2 ^ 18 }
    ensures { OnOk result (words.new.items ≡ words.old.items ++ filled (entry_at entries.entry.procedures.now) entries.entry.routines (length words.old.items) (piece_in piece.now)) }
{
    let from = words.len() as u32;
    push_all(words, piece.words.as_slice())?;
    fill(words, from, piece.holes.as_slice(), entries);
    Ok(())
}

/// Appends the words of pieces, with their holes filled.
pub(crate) fn push_pieces(
    words: &mut Vec<u32>,
    entries: Entries,
    pieces: &[Piece],
) -> Result<(), AllocError>
    requires procedures { InReach entries.procedures.now }
    requires routines { entries.routines < 2 ^ 17 }
    requires near { length words.old.items + whole_width piece_width 0 (map piece_in pieces.now) ≤ 2 ^ 18 }
    ensures { OnOk result (words.new.items ≡ words.old.items
        ++ spread (filled_by (entry_at entries.entry.procedures.now) entries.entry.routines) piece_width 0 (length words.old.items) (map piece_in pieces.now)) }
{
    for piece in pieces {
        push_piece(words, entries, piece)?;
    }
    Ok(())
}

/// Appends words.
pub(crate) fn push_all(words: &mut Vec<u32>, more: &[u32]) -> Result<(), AllocError>
    ensures { OnOk result (words.new.items ≡ words.old.items ++ more.now) }
{
    for word in more {
        words.push(*word)?;
    }
    Ok(())
}
