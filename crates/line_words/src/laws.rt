//! What widths come to.

ghost use Rattle.std.specs.Prelude.{◌≡◌, ℕ, sum};
ghost use Rattle.placed_code.specs.Placed.{Placed};
ghost use Rattle.placed_code.specs.Layout.{proc_width};
ghost use Rattle.line_words.specs.LineWidths.{line_widths};

/// The parts of a procedure have all its words.
pub fn widths_make_the_procedure()
    ensures { (p : ℕ) (pr : Placed) → sum (line_widths pr) ≡ proc_width p pr }
{}
