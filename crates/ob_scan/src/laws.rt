//! Laws of scans, for the layers above.

ghost use Rattle.std.specs.Prelude.{◌≡◌, ℕ, zero, ◌+◌, ◌≤◌, List, length};
ghost use Rattle.ob_symbol.specs.declared.symbol.Symbol.{Symbol};
ghost use Rattle.ob_scan.specs.Scans.{Scans, End, InOrder, AllSpell};

/// A text has one list of symbols and one end, so each answer of `scan` but want of memory comes exactly where
/// the text has those symbols, or that first fault.
pub fn scans_once()
    ensures { (i : ℕ) (w : List ℕ) (a b : List Symbol) (e f : End) → Scans i w a e → Scans i w b f → (a ≡ b) × (e ≡ f) }
{}

/// Each text has a scan: its symbols up to its end, or those before its first fault.
pub fn each_text_is_scanned()
    ensures { (i : ℕ) (w : List ℕ) → (a : List Symbol) × (e : End) × Scans i w a e }
{}

/// The symbols of a text lie in order within it, none is empty, and so they are at most as many as its bytes.
pub fn symbols_lie_in_order()
    ensures order { (i : ℕ) (w : List ℕ) (a : List Symbol) (e : End) → Scans i w a e → InOrder i a (i + length w) }
    ensures few { (i : ℕ) (w : List ℕ) (a : List Symbol) (e : End) → Scans i w a e → length a ≤ length w }
{}

/// The bytes of the text from a symbol's place up to its end are a word of the symbol's kind, within its limits.
pub fn symbols_spell_their_kinds()
    ensures { (w : List ℕ) (a : List Symbol) (e : End) → Scans zero w a e → AllSpell w a }
{}
