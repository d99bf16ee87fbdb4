//! The terminals of a module.

ghost use Rattle.std.specs.Prelude.{OnOk};
ghost use Rattle.ob_syntax.specs.Leaves.{optional, each};
ghost use Rattle.ob_tree.specs.Adds.{Adds};
ghost use Rattle.ob_syntax.specs.ModuleText.{module_text, imports_text, next_import_text, import_text, imported_name_text};

use super::declarations::add_decls;
use super::put;
use super::statements::add_body;
use ob_syntax::modules::{Import, ImportedName, Imports, Module, NextImport};
use outside::Memory;

pub fn add_module(out: &mut Vec<u32>, tree: &Module) -> Result<(), Memory>
    ensures { OnOk result (Adds out.old.items out.new.items (module_text tree.now)) }
{
    put(out, tree.module_word)?;
    put(out, tree.name)?;
    put(out, tree.semicolon)?;
    add_imports(out, &tree.imports)?;
    add_decls(out, &tree.decls)?;
    add_body(out, &tree.body)?;
    put(out, tree.end_word)?;
    put(out, tree.end_name)?;
    put(out, tree.period)?;
    Ok(())
}

fn add_imports(out: &mut Vec<u32>, tree: &Option<Imports>) -> Result<(), Memory>
    ensures { OnOk result (Adds out.old.items out.new.items (optional imports_text tree.now)) }
{
    match tree {
        None => Ok(()),
        Some(tree) => {
            put(out, tree.import_word)?;
            add_import(out, &tree.first)?;
            add_each_next_import(out, &tree.more)?;
            put(out, tree.semicolon)?;
            Ok(())
        }
    }
}

fn add_next_import(out: &mut Vec<u32>, tree: &NextImport) -> Result<(), Memory>
    ensures { OnOk result (Adds out.old.items out.new.items (next_import_text tree.now)) }
{
    put(out, tree.comma)?;
    add_import(out, &tree.import)?;
    Ok(())
}

fn add_each_next_import(out: &mut Vec<u32>, trees: &[NextImport]) -> Result<(), Memory>
    ensures { OnOk result (Adds out.old.items out.new.items (each next_import_text trees.now)) }
{
    for tree in trees {
        add_next_import(out, tree)?;
    }
    Ok(())
}

fn add_import(out: &mut Vec<u32>, tree: &Import) -> Result<(), Memory>
    ensures { OnOk result (Adds out.old.items out.new.items (import_text tree.now)) }
{
    put(out, tree.name)?;
    add_imported_name(out, &tree.of)?;
    Ok(())
}

fn add_imported_name(out: &mut Vec<u32>, tree: &Option<ImportedName>) -> Result<(), Memory>
    ensures { OnOk result (Adds out.old.items out.new.items (optional imported_name_text tree.now)) }
{
    match tree {
        None => Ok(()),
        Some(tree) => {
            put(out, tree.becomes)?;
            put(out, tree.name)?;
            Ok(())
        }
    }
}
