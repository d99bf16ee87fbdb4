//! What escaped bytes are.

ghost use Rattle.std.specs.Prelude.{◌≡◌, ◌++◌, ℕ, List, true};
ghost use Rattle.std.specs.List.{list_all};
ghost use Rattle.html_text.specs.Escapes.{escaped};
ghost use Rattle.html_text.specs.Texts.{IsHtmlText, is_harmless};

/// Escaped bytes are text of HTML: they consist of plain bytes and of whole entities. Texts of HTML can be joined, and none has a
/// byte that ends text: `<`, `>`, a quote, or one that is no printed ASCII.
pub fn escaped_is_text()
    ensures escaped { (bytes : List ℕ) → IsHtmlText (escaped bytes) }
    ensures joined { (a b : List ℕ) → IsHtmlText a → IsHtmlText b → IsHtmlText (a ++ b) }
    ensures harmless { (a : List ℕ) → IsHtmlText a → list_all is_harmless a ≡ true }
{}
