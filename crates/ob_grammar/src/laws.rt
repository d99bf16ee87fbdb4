//! Laws of terminals, of trees, and of reading with one symbol of look-ahead.

ghost use Rattle.std.specs.Prelude.{◌≡◌, ℕ, ◌+◌, List, [], ◌∷◌, length};
ghost use Rattle.ob_grammar.specs.declared.terminal.Terminal.{Terminal};
ghost use Rattle.ob_grammar.specs.Terminals.{number_of};
ghost use Rattle.ob_grammar.specs.Grammar.{module_, part};
ghost use Rattle.ob_grammar.specs.Leaves.{Tree, leaves};
ghost use Rattle.ob_grammar.specs.Trees.{Token, terminals, depth_limit};
ghost use Rattle.ob_grammar.specs.Modules.{IsModule, IsWrong, OpensTooMany, Shallow};
ghost use Rattle.ob_grammar.specs.Reading.{item, Wrong, Deep, Whole, Stops};

use crate::terminal::DEPTH_LIMIT;

/// Different terminals have different numbers.
pub fn numbers_tell_terminals_apart()
    ensures { (x y : Terminal) → number_of x ≡ number_of y → x ≡ y }
{}

/// The limit that a parser tests is the limit of the grammar.
pub fn the_limit_is_one()
    ensures { DEPTH_LIMIT ≡ depth_limit }
{}

/// Where reading a module stops at a symbol that none has there, the symbols are no module, and the place is
/// their viable length.
pub fn stops_at_the_viable_length()
    ensures { (w r : List ℕ) (at : ℕ) → Stops (item 0 (part module_) ∷ []) w r Wrong → at + length r ≡ length w →
        IsWrong w at }
{}

/// Where it stops at a symbol that opens too many constructs, each module that begins so has too many open there.
pub fn stops_where_too_many_are_open()
    ensures { (w r : List ℕ) (at : ℕ) → Stops (item 0 (part module_) ∷ []) w r Deep → at + length r ≡ length w →
        OpensTooMany w at }
{}

/// Where it reads all symbols, no tree of theirs has too many constructs open.
pub fn reads_within_the_limit()
    ensures { (w : List ℕ) → Stops (item 0 (part module_) ∷ []) w [] Whole →
        (v : List Token) → IsModule v → terminals v ≡ w → Shallow v (length w) }
{}

/// Symbols have at most one tree: two trees of modules that have the same symbols are the same tree.
pub fn symbols_have_one_tree()
    ensures { (x y : Tree (part module_)) → leaves x ≡ leaves y → x ≡ y }
{}
