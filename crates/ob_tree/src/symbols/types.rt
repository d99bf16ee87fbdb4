//! The terminals of types and formal parameters.

ghost use Rattle.std.specs.Prelude.{OnOk};
ghost use Rattle.ob_syntax.specs.Leaves.{optional, each};
ghost use Rattle.ob_tree.specs.Adds.{Adds};
ghost use Rattle.ob_syntax.specs.TypeText.{type_tree_text, array_type_text, record_type_text, base_text, fields_text, next_fields_text, pointer_type_text, procedure_type_text, formals_text, sections_text, next_section_text, result_type_text, section_text, open_array_text};

use super::expressions::{add_each_next_expression, add_expression};
use super::names::{add_each_next_ident, add_idents, add_qualident};
use super::{put, put_maybe};
use ob_syntax::types::{
    ArrayType, Base, Fields, Formals, NextFields, NextSection, OpenArray, PointerType,
    ProcedureType, RecordType, ResultType, Section, Sections, TypeTree,
};
use outside::Memory;

#[cycle(adds)]
pub fn add_type_tree(out: &mut Vec<u32>, tree: &TypeTree) -> Result<(), Memory>
    ensures { OnOk result (Adds out.old.items out.new.items (type_tree_text tree.now)) }
{
    match tree {
        TypeTree::Named(tree) => {
            add_qualident(out, tree)?;
            Ok(())
        }
        TypeTree::Array(tree) => {
            add_array_type(out, tree)?;
            Ok(())
        }
        TypeTree::Record(tree) => {
            add_record_type(out, tree)?;
            Ok(())
        }
        TypeTree::Pointer(tree) => {
            add_pointer_type(out, tree)?;
            Ok(())
        }
        TypeTree::Procedure(tree) => {
            add_procedure_type(out, tree)?;
            Ok(())
        }
    }
}

#[cycle(adds)]
fn add_array_type(out: &mut Vec<u32>, tree: &ArrayType) -> Result<(), Memory>
    ensures { OnOk result (Adds out.old.items out.new.items (array_type_text tree.now)) }
{
    put(out, tree.array_word)?;
    add_expression(out, &tree.first)?;
    add_each_next_expression(out, &tree.more)?;
    put(out, tree.of_word)?;
    add_type_tree(out, &tree.element)?;
    Ok(())
}

#[cycle(adds)]
fn add_record_type(out: &mut Vec<u32>, tree: &RecordType) -> Result<(), Memory>
    ensures { OnOk result (Adds out.old.items out.new.items (record_type_text tree.now)) }
{
    put(out, tree.record_word)?;
    add_base(out, &tree.base)?;
    add_fields(out, &tree.first)?;
    add_each_next_fields(out, &tree.more)?;
    put(out, tree.end_word)?;
    Ok(())
}

fn add_base(out: &mut Vec<u32>, tree: &Option<Base>) -> Result<(), Memory>
    ensures { OnOk result (Adds out.old.items out.new.items (optional base_text tree.now)) }
{
    match tree {
        None => Ok(()),
        Some(tree) => {
            put(out, tree.left_paren)?;
            add_qualident(out, &tree.name)?;
            put(out, tree.right_paren)?;
            Ok(())
        }
    }
}

#[cycle(adds)]
fn add_fields(out: &mut Vec<u32>, tree: &Option<Fields>) -> Result<(), Memory>
    ensures { OnOk result (Adds out.old.items out.new.items (optional fields_text tree.now)) }
{
    match tree {
        None => Ok(()),
        Some(tree) => {
            add_idents(out, &tree.names)?;
            put(out, tree.colon)?;
            add_type_tree(out, &tree.of)?;
            Ok(())
        }
    }
}

#[cycle(adds)]
fn add_next_fields(out: &mut Vec<u32>, tree: &NextFields) -> Result<(), Memory>
    ensures { OnOk result (Adds out.old.items out.new.items (next_fields_text tree.now)) }
{
    put(out, tree.semicolon)?;
    add_fields(out, &tree.fields)?;
    Ok(())
}

#[cycle(adds)]
fn add_each_next_fields(out: &mut Vec<u32>, trees: &[NextFields]) -> Result<(), Memory>
    ensures { OnOk result (Adds out.old.items out.new.items (each next_fields_text trees.now)) }
{
    for tree in trees {
        add_next_fields(out, tree)?;
    }
    Ok(())
}

#[cycle(adds)]
fn add_pointer_type(out: &mut Vec<u32>, tree: &PointerType) -> Result<(), Memory>
    ensures { OnOk result (Adds out.old.items out.new.items (pointer_type_text tree.now)) }
{
    put(out, tree.pointer_word)?;
    put(out, tree.to_word)?;
    add_type_tree(out, &tree.base)?;
    Ok(())
}

fn add_procedure_type(out: &mut Vec<u32>, tree: &ProcedureType) -> Result<(), Memory>
    ensures { OnOk result (Adds out.old.items out.new.items (procedure_type_text tree.now)) }
{
    put(out, tree.procedure_word)?;
    add_formals(out, &tree.formals)?;
    Ok(())
}

pub fn add_formals(out: &mut Vec<u32>, tree: &Option<Formals>) -> Result<(), Memory>
    ensures { OnOk result (Adds out.old.items out.new.items (optional formals_text tree.now)) }
{
    match tree {
        None => Ok(()),
        Some(tree) => {
            put(out, tree.left_paren)?;
            add_sections(out, &tree.sections)?;
            put(out, tree.right_paren)?;
            add_result_type(out, &tree.result)?;
            Ok(())
        }
    }
}

fn add_sections(out: &mut Vec<u32>, tree: &Option<Sections>) -> Result<(), Memory>
    ensures { OnOk result (Adds out.old.items out.new.items (optional sections_text tree.now)) }
{
    match tree {
        None => Ok(()),
        Some(tree) => {
            add_section(out, &tree.first)?;
            add_each_next_section(out, &tree.more)?;
            Ok(())
        }
    }
}

fn add_next_section(out: &mut Vec<u32>, tree: &NextSection) -> Result<(), Memory>
    ensures { OnOk result (Adds out.old.items out.new.items (next_section_text tree.now)) }
{
    put(out, tree.semicolon)?;
    add_section(out, &tree.section)?;
    Ok(())
}

fn add_each_next_section(out: &mut Vec<u32>, trees: &[NextSection]) -> Result<(), Memory>
    ensures { OnOk result (Adds out.old.items out.new.items (each next_section_text trees.now)) }
{
    for tree in trees {
        add_next_section(out, tree)?;
    }
    Ok(())
}

fn add_result_type(out: &mut Vec<u32>, tree: &Option<ResultType>) -> Result<(), Memory>
    ensures { OnOk result (Adds out.old.items out.new.items (optional result_type_text tree.now)) }
{
    match tree {
        None => Ok(()),
        Some(tree) => {
            put(out, tree.colon)?;
            add_qualident(out, &tree.name)?;
            Ok(())
        }
    }
}

fn add_section(out: &mut Vec<u32>, tree: &Section) -> Result<(), Memory>
    ensures { OnOk result (Adds out.old.items out.new.items (section_text tree.now)) }
{
    put_maybe(out, tree.var_word)?;
    put(out, tree.first)?;
    add_each_next_ident(out, &tree.more)?;
    put(out, tree.colon)?;
    add_open_array(out, &tree.open_array)?;
    add_qualident(out, &tree.of)?;
    Ok(())
}

fn add_open_array(out: &mut Vec<u32>, tree: &Option<OpenArray>) -> Result<(), Memory>
    ensures { OnOk result (Adds out.old.items out.new.items (optional open_array_text tree.now)) }
{
    match tree {
        None => Ok(()),
        Some(tree) => {
            put(out, tree.array_word)?;
            put(out, tree.of_word)?;
            Ok(())
        }
    }
}
