//! The terminals of names and lists of names.

ghost use Rattle.std.specs.Prelude.{OnOk};
ghost use Rattle.ob_syntax.specs.Leaves.{optional, each};
ghost use Rattle.ob_tree.specs.Adds.{Adds};
ghost use Rattle.ob_syntax.specs.NameText.{qualident_text, member_text, identdef_text, idents_text, next_identdef_text, next_ident_text};

use super::{put, put_maybe};
use ob_syntax::names::{Identdef, Idents, Member, NextIdent, NextIdentdef, Qualident};
use outside::Memory;

pub fn add_qualident(out: &mut Vec<u32>, tree: &Qualident) -> Result<(), Memory>
    ensures { OnOk result (Adds out.old.items out.new.items (qualident_text tree.now)) }
{
    put(out, tree.name)?;
    add_member(out, &tree.member)?;
    Ok(())
}

fn add_member(out: &mut Vec<u32>, tree: &Option<Member>) -> Result<(), Memory>
    ensures { OnOk result (Adds out.old.items out.new.items (optional member_text tree.now)) }
{
    match tree {
        None => Ok(()),
        Some(tree) => {
            put(out, tree.period)?;
            put(out, tree.name)?;
            Ok(())
        }
    }
}

pub fn add_identdef(out: &mut Vec<u32>, tree: &Identdef) -> Result<(), Memory>
    ensures { OnOk result (Adds out.old.items out.new.items (identdef_text tree.now)) }
{
    put(out, tree.name)?;
    put_maybe(out, tree.star)?;
    Ok(())
}

pub fn add_idents(out: &mut Vec<u32>, tree: &Idents) -> Result<(), Memory>
    ensures { OnOk result (Adds out.old.items out.new.items (idents_text tree.now)) }
{
    add_identdef(out, &tree.first)?;
    add_each_next_identdef(out, &tree.more)?;
    Ok(())
}

fn add_next_identdef(out: &mut Vec<u32>, tree: &NextIdentdef) -> Result<(), Memory>
    ensures { OnOk result (Adds out.old.items out.new.items (next_identdef_text tree.now)) }
{
    put(out, tree.comma)?;
    add_identdef(out, &tree.name)?;
    Ok(())
}

fn add_each_next_identdef(out: &mut Vec<u32>, trees: &[NextIdentdef]) -> Result<(), Memory>
    ensures { OnOk result (Adds out.old.items out.new.items (each next_identdef_text trees.now)) }
{
    for tree in trees {
        add_next_identdef(out, tree)?;
    }
    Ok(())
}

fn add_next_ident(out: &mut Vec<u32>, tree: &NextIdent) -> Result<(), Memory>
    ensures { OnOk result (Adds out.old.items out.new.items (next_ident_text tree.now)) }
{
    put(out, tree.comma)?;
    put(out, tree.name)?;
    Ok(())
}

pub fn add_each_next_ident(out: &mut Vec<u32>, trees: &[NextIdent]) -> Result<(), Memory>
    ensures { OnOk result (Adds out.old.items out.new.items (each next_ident_text trees.now)) }
{
    for tree in trees {
        add_next_ident(out, tree)?;
    }
    Ok(())
}
