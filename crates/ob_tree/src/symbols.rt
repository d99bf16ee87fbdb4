//! The indices of a tree's terminals, in order.

ghost use Rattle.std.specs.Prelude.{◌≡◌, ℕ, OnOk, IfOk};
ghost use Rattle.ob_grammar.specs.Grammar.{one};
ghost use Rattle.ob_syntax.specs.Leaves.{leaf, maybe, indices};
ghost use Rattle.ob_tree.specs.Adds.{Adds};
ghost use Rattle.ob_syntax.specs.ModuleText.{module_text};

mod declarations;
mod expressions;
mod modules;
mod names;
mod statements;
mod types;

use modules::add_module;
use ob_syntax::modules::Module;
use outside::Memory;
use std::alloc::Global;

/// The indices of a module's terminals, in order: one for each symbol that the tree was read from.
///
/// Measured, and not proved: the time is linear in their number.
pub fn text_symbols(alloc: Global, tree: &Module) -> Result<Vec<u32>, Memory>
    ensures { IfOk result (λ v. v.items ≡ indices (module_text tree.now)) }
{
    let mut out = Vec::new(alloc);
    add_module(&mut out, tree)?;
    Ok(out)
}

/// Adds an index.
fn put(out: &mut Vec<u32>, index: u32) -> Result<(), Memory>
    ensures { OnOk result ((k : ℕ) → Adds out.old.items out.new.items (leaf (one k) index)) }
{
    out.push(index)?;
    Ok(())
}

/// Adds an index where there is one.
fn put_maybe(out: &mut Vec<u32>, index: Option<u32>) -> Result<(), Memory>
    ensures { OnOk result ((k : ℕ) → Adds out.old.items out.new.items (maybe (one k) index)) }
{
    match index {
        None => Ok(()),
        Some(index) => {
            put(out, index)?;
            Ok(())
        }
    }
}
