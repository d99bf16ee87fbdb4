//! The law that joins these words to placed procedures.

ghost use Rattle.placed_code.specs.Placed.{Placed};
ghost use Rattle.link_words.specs.Frames.{WordsArePlaced};

/// Entries, returns and ends from the parts of a placed procedure's frame are that procedure's.
pub fn words_are_placed()
    ensures placed { (pr : Placed) → WordsArePlaced pr }
{}
