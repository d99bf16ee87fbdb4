//! What holds of every tree.

ghost use Rattle.std.specs.Prelude.{◌≡◌, List};
ghost use Rattle.ob_grammar.specs.Modules.{IsModule};
ghost use Rattle.ob_grammar.specs.Trees.{Token, terminals};
ghost use Rattle.ob_grammar.specs.Leaves.{asked};
ghost use Rattle.ob_syntax.specs.ModuleText.{module_text};
ghost use Rattle.ob_syntax.specs.Plain.{plain_module};
ghost use Rattle.ob_syntax.specs.declared.modules.Module.{Module};

/// Every tree is a tree of the grammar: what its terminals are to be is a module.
pub fn trees_are_modules()
    ensures { (m : Module) → (tokens : List Token) × IsModule tokens × (terminals tokens ≡ asked (module_text m)) }
{}

/// Symbols have one tree: two trees that spell the same symbols are the same, but for the memory that holds them.
pub fn symbols_have_one_tree()
    ensures { (m n : Module) → module_text m ≡ module_text n → plain_module m ≡ plain_module n }
{}
