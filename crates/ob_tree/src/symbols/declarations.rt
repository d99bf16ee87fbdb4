//! The terminals of declarations.

ghost use Rattle.std.specs.Prelude.{OnOk};
ghost use Rattle.ob_syntax.specs.Leaves.{optional, each};
ghost use Rattle.ob_tree.specs.Adds.{Adds};
ghost use Rattle.ob_syntax.specs.DeclarationText.{decls_text, consts_text, const_decl_text, types_text, type_decl_text, vars_text, var_decl_text, procedure_decl_text, procedure_text, returned_text};

use super::expressions::add_expression;
use super::names::{add_identdef, add_idents};
use super::put;
use super::statements::add_body;
use super::types::{add_formals, add_type_tree};
use ob_syntax::declarations::{
    ConstDecl, Consts, Decls, Procedure, ProcedureDecl, Returned, TypeDecl, Types, VarDecl, Vars,
};
use outside::Memory;

#[cycle(adds)]
pub fn add_decls(out: &mut Vec<u32>, tree: &Decls) -> Result<(), Memory>
    ensures { OnOk result (Adds out.old.items out.new.items (decls_text tree.now)) }
{
    add_consts(out, &tree.consts)?;
    add_types(out, &tree.types)?;
    add_vars(out, &tree.vars)?;
    add_each_procedure_decl(out, &tree.procedures)?;
    Ok(())
}

fn add_consts(out: &mut Vec<u32>, tree: &Option<Consts>) -> Result<(), Memory>
    ensures { OnOk result (Adds out.old.items out.new.items (optional consts_text tree.now)) }
{
    match tree {
        None => Ok(()),
        Some(tree) => {
            put(out, tree.const_word)?;
            add_each_const_decl(out, &tree.each)?;
            Ok(())
        }
    }
}

fn add_const_decl(out: &mut Vec<u32>, tree: &ConstDecl) -> Result<(), Memory>
    ensures { OnOk result (Adds out.old.items out.new.items (const_decl_text tree.now)) }
{
    add_identdef(out, &tree.name)?;
    put(out, tree.equal)?;
    add_expression(out, &tree.value)?;
    put(out, tree.semicolon)?;
    Ok(())
}

fn add_each_const_decl(out: &mut Vec<u32>, trees: &[ConstDecl]) -> Result<(), Memory>
    ensures { OnOk result (Adds out.old.items out.new.items (each const_decl_text trees.now)) }
{
    for tree in trees {
        add_const_decl(out, tree)?;
    }
    Ok(())
}

fn add_types(out: &mut Vec<u32>, tree: &Option<Types>) -> Result<(), Memory>
    ensures { OnOk result (Adds out.old.items out.new.items (optional types_text tree.now)) }
{
    match tree {
        None => Ok(()),
        Some(tree) => {
            put(out, tree.type_word)?;
            add_each_type_decl(out, &tree.each)?;
            Ok(())
        }
    }
}

fn add_type_decl(out: &mut Vec<u32>, tree: &TypeDecl) -> Result<(), Memory>
    ensures { OnOk result (Adds out.old.items out.new.items (type_decl_text tree.now)) }
{
    add_identdef(out, &tree.name)?;
    put(out, tree.equal)?;
    add_type_tree(out, &tree.is)?;
    put(out, tree.semicolon)?;
    Ok(())
}

fn add_each_type_decl(out: &mut Vec<u32>, trees: &[TypeDecl]) -> Result<(), Memory>
    ensures { OnOk result (Adds out.old.items out.new.items (each type_decl_text trees.now)) }
{
    for tree in trees {
        add_type_decl(out, tree)?;
    }
    Ok(())
}

fn add_vars(out: &mut Vec<u32>, tree: &Option<Vars>) -> Result<(), Memory>
    ensures { OnOk result (Adds out.old.items out.new.items (optional vars_text tree.now)) }
{
    match tree {
        None => Ok(()),
        Some(tree) => {
            put(out, tree.var_word)?;
            add_each_var_decl(out, &tree.each)?;
            Ok(())
        }
    }
}

fn add_var_decl(out: &mut Vec<u32>, tree: &VarDecl) -> Result<(), Memory>
    ensures { OnOk result (Adds out.old.items out.new.items (var_decl_text tree.now)) }
{
    add_idents(out, &tree.names)?;
    put(out, tree.colon)?;
    add_type_tree(out, &tree.of)?;
    put(out, tree.semicolon)?;
    Ok(())
}

fn add_each_var_decl(out: &mut Vec<u32>, trees: &[VarDecl]) -> Result<(), Memory>
    ensures { OnOk result (Adds out.old.items out.new.items (each var_decl_text trees.now)) }
{
    for tree in trees {
        add_var_decl(out, tree)?;
    }
    Ok(())
}

#[cycle(adds)]
fn add_procedure_decl(out: &mut Vec<u32>, tree: &ProcedureDecl) -> Result<(), Memory>
    ensures { OnOk result (Adds out.old.items out.new.items (procedure_decl_text tree.now)) }
{
    add_procedure(out, &tree.procedure)?;
    put(out, tree.semicolon)?;
    Ok(())
}

#[cycle(adds)]
fn add_each_procedure_decl(out: &mut Vec<u32>, trees: &[ProcedureDecl]) -> Result<(), Memory>
    ensures { OnOk result (Adds out.old.items out.new.items (each procedure_decl_text trees.now)) }
{
    for tree in trees {
        add_procedure_decl(out, tree)?;
    }
    Ok(())
}

#[cycle(adds)]
fn add_procedure(out: &mut Vec<u32>, tree: &Procedure) -> Result<(), Memory>
    ensures { OnOk result (Adds out.old.items out.new.items (procedure_text tree.now)) }
{
    put(out, tree.procedure_word)?;
    add_identdef(out, &tree.name)?;
    add_formals(out, &tree.formals)?;
    put(out, tree.semicolon)?;
    add_decls(out, &tree.decls)?;
    add_body(out, &tree.body)?;
    add_returned(out, &tree.returned)?;
    put(out, tree.end_word)?;
    put(out, tree.end_name)?;
    Ok(())
}

fn add_returned(out: &mut Vec<u32>, tree: &Option<Returned>) -> Result<(), Memory>
    ensures { OnOk result (Adds out.old.items out.new.items (optional returned_text tree.now)) }
{
    match tree {
        None => Ok(()),
        Some(tree) => {
            put(out, tree.return_word)?;
            add_expression(out, &tree.value)?;
            Ok(())
        }
    }
}
