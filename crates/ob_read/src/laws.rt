//! Laws of a module's text.

ghost use Rattle.std.specs.Prelude.{List, ℕ, zero, All};
ghost use Rattle.ob_symbol.specs.declared.symbol.Symbol.{Symbol};
ghost use Rattle.ob_scan.specs.Scans.{Scans, End};
ghost use Rattle.ob_read.specs.Texts.{HasFittingLiteral};

/// The literals of a text are numbers of 64 bits, and characters below 256.
pub fn literals_fit()
    ensures { (w : List ℕ) (symbols : List Symbol) (e : End) → Scans zero w symbols e → All HasFittingLiteral symbols }
{}
