//! The law of one reading.

ghost use Rattle.std.specs.Prelude.{◌≡◌, ℕ, List};
ghost use Rattle.ob_symbol.specs.declared.symbol.Symbol.{Symbol};
ghost use Rattle.ob_syntax.specs.declared.modules.Module.{Module};
ghost use Rattle.ob_syntax.specs.Plain.{plain_module};
ghost use Rattle.ob_read.specs.Texts.{IsModuleText, Breaks};

use ob_scan::scans_once;
use ob_syntax::laws::{symbols_have_one_tree, trees_are_modules};

/// A text has one list of symbols and one syntax; or there is one rule that it breaks first, and one byte where it does; and
/// never both. This follows from the laws below, which are cited as calls that do nothing.
pub fn texts_are_read_once()
    ensures text { (w : List ℕ) (a b : List Symbol) (m n : Module) → IsModuleText w a m → IsModuleText w b n
        → (a ≡ b) × (plain_module m ≡ plain_module n) }
    ensures fault { (w : List ℕ) (number other at place : ℕ) → Breaks w number at → Breaks w other place
        → (number ≡ other) × (at ≡ place) }
    ensures apart { (w : List ℕ) (a : List Symbol) (m : Module) (number at : ℕ) → IsModuleText w a m → Breaks w number at → ⊥ }
{
    scans_once();
    trees_are_modules();
    symbols_have_one_tree();
}
