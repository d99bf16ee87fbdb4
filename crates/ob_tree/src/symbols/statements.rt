//! The terminals of statements.

ghost use Rattle.std.specs.Prelude.{OnOk};
ghost use Rattle.ob_syntax.specs.Leaves.{boxed, optional, each};
ghost use Rattle.ob_tree.specs.Adds.{Adds};
ghost use Rattle.ob_syntax.specs.StatementText.{body_text, stats_text, next_stat_text, stat_text, assign_or_call_text, assigned_text, if_stat_text, elsif_text, else_text, case_stat_text, next_case_text, case_text, case_part_text, next_range_text, range_text, high_text, label_text, while_stat_text, elsif_do_text, repeat_stat_text, for_stat_text, by_text};

use super::expressions::{add_designator, add_expression};
use super::names::add_qualident;
use super::put;
use ob_syntax::statements::{
    AssignOrCall, Assigned, Body, By, Case, CasePart, CaseStat, Else, Elsif, ElsifDo, ForStat,
    High, IfStat, Label, NextCase, NextRange, NextStat, Range, RepeatStat, Stat, Stats, WhileStat,
};
use outside::Memory;

pub fn add_body(out: &mut Vec<u32>, tree: &Option<Body>) -> Result<(), Memory>
    ensures { OnOk result (Adds out.old.items out.new.items (optional body_text tree.now)) }
{
    match tree {
        None => Ok(()),
        Some(tree) => {
            put(out, tree.begin_word)?;
            add_stats(out, &tree.stats)?;
            Ok(())
        }
    }
}

#[cycle(adds)]
fn add_stats(out: &mut Vec<u32>, tree: &Stats) -> Result<(), Memory>
    ensures { OnOk result (Adds out.old.items out.new.items (stats_text tree.now)) }
{
    add_stat(out, &tree.first)?;
    add_each_next_stat(out, &tree.more)?;
    Ok(())
}

#[cycle(adds)]
fn add_next_stat(out: &mut Vec<u32>, tree: &NextStat) -> Result<(), Memory>
    ensures { OnOk result (Adds out.old.items out.new.items (next_stat_text tree.now)) }
{
    put(out, tree.semicolon)?;
    add_stat(out, &tree.stat)?;
    Ok(())
}

#[cycle(adds)]
fn add_each_next_stat(out: &mut Vec<u32>, trees: &[NextStat]) -> Result<(), Memory>
    ensures { OnOk result (Adds out.old.items out.new.items (each next_stat_text trees.now)) }
{
    for tree in trees {
        add_next_stat(out, tree)?;
    }
    Ok(())
}

#[cycle(adds)]
fn add_stat(out: &mut Vec<u32>, tree: &Stat) -> Result<(), Memory>
    ensures { OnOk result (Adds out.old.items out.new.items (stat_text tree.now)) }
{
    match tree {
        Stat::Empty => Ok(()),
        Stat::AssignOrCall(tree) => {
            add_assign_or_call(out, tree)?;
            Ok(())
        }
        Stat::If(tree) => {
            add_if_stat(out, tree)?;
            Ok(())
        }
        Stat::Case(tree) => {
            add_case_stat(out, tree)?;
            Ok(())
        }
        Stat::While(tree) => {
            add_while_stat(out, tree)?;
            Ok(())
        }
        Stat::Repeat(tree) => {
            add_repeat_stat(out, tree)?;
            Ok(())
        }
        Stat::For(tree) => {
            add_for_stat(out, tree)?;
            Ok(())
        }
    }
}

fn add_assign_or_call(out: &mut Vec<u32>, tree: &AssignOrCall) -> Result<(), Memory>
    ensures { OnOk result (Adds out.old.items out.new.items (assign_or_call_text tree.now)) }
{
    add_designator(out, &tree.designator)?;
    add_assigned(out, &tree.assigned)?;
    Ok(())
}

fn add_assigned(out: &mut Vec<u32>, tree: &Option<Assigned>) -> Result<(), Memory>
    ensures { OnOk result (Adds out.old.items out.new.items (optional assigned_text tree.now)) }
{
    match tree {
        None => Ok(()),
        Some(tree) => {
            put(out, tree.becomes)?;
            add_expression(out, &tree.value)?;
            Ok(())
        }
    }
}

#[cycle(adds)]
fn add_if_stat(out: &mut Vec<u32>, tree: &IfStat) -> Result<(), Memory>
    ensures { OnOk result (Adds out.old.items out.new.items (if_stat_text tree.now)) }
{
    put(out, tree.if_word)?;
    add_expression(out, &tree.guard)?;
    put(out, tree.then_word)?;
    add_stats(out, &tree.body)?;
    add_each_elsif(out, &tree.elsifs)?;
    add_else(out, &tree.otherwise)?;
    put(out, tree.end_word)?;
    Ok(())
}

#[cycle(adds)]
fn add_elsif(out: &mut Vec<u32>, tree: &Elsif) -> Result<(), Memory>
    ensures { OnOk result (Adds out.old.items out.new.items (elsif_text tree.now)) }
{
    put(out, tree.elsif_word)?;
    add_expression(out, &tree.guard)?;
    put(out, tree.then_word)?;
    add_stats(out, &tree.body)?;
    Ok(())
}

#[cycle(adds)]
fn add_each_elsif(out: &mut Vec<u32>, trees: &[Elsif]) -> Result<(), Memory>
    ensures { OnOk result (Adds out.old.items out.new.items (each elsif_text trees.now)) }
{
    for tree in trees {
        add_elsif(out, tree)?;
    }
    Ok(())
}

#[cycle(adds)]
fn add_else(out: &mut Vec<u32>, tree: &Option<Else>) -> Result<(), Memory>
    ensures { OnOk result (Adds out.old.items out.new.items (optional else_text tree.now)) }
{
    match tree {
        None => Ok(()),
        Some(tree) => {
            put(out, tree.else_word)?;
            add_stats(out, &tree.body)?;
            Ok(())
        }
    }
}

#[cycle(adds)]
fn add_case_stat(out: &mut Vec<u32>, tree: &CaseStat) -> Result<(), Memory>
    ensures { OnOk result (Adds out.old.items out.new.items (case_stat_text tree.now)) }
{
    put(out, tree.case_word)?;
    add_expression(out, &tree.selector)?;
    put(out, tree.of_word)?;
    add_case(out, &tree.first)?;
    add_each_next_case(out, &tree.more)?;
    put(out, tree.end_word)?;
    Ok(())
}

#[cycle(adds)]
fn add_next_case(out: &mut Vec<u32>, tree: &NextCase) -> Result<(), Memory>
    ensures { OnOk result (Adds out.old.items out.new.items (next_case_text tree.now)) }
{
    put(out, tree.bar)?;
    add_case(out, &tree.case)?;
    Ok(())
}

#[cycle(adds)]
fn add_each_next_case(out: &mut Vec<u32>, trees: &[NextCase]) -> Result<(), Memory>
    ensures { OnOk result (Adds out.old.items out.new.items (each next_case_text trees.now)) }
{
    for tree in trees {
        add_next_case(out, tree)?;
    }
    Ok(())
}

#[cycle(adds)]
fn add_case(out: &mut Vec<u32>, tree: &Case) -> Result<(), Memory>
    ensures { OnOk result (Adds out.old.items out.new.items (case_text tree.now)) }
{
    add_maybe_case_part(out, &tree.part)?;
    Ok(())
}

#[cycle(adds)]
fn add_maybe_case_part(out: &mut Vec<u32>, tree: &Option<Box<CasePart>>) -> Result<(), Memory>
    ensures { OnOk result (Adds out.old.items out.new.items (optional (boxed case_part_text) tree.now)) }
{
    match tree {
        None => Ok(()),
        Some(tree) => {
            add_case_part(out, tree)?;
            Ok(())
        }
    }
}

#[cycle(adds)]
fn add_case_part(out: &mut Vec<u32>, tree: &CasePart) -> Result<(), Memory>
    ensures { OnOk result (Adds out.old.items out.new.items (case_part_text tree.now)) }
{
    add_range(out, &tree.first)?;
    add_each_next_range(out, &tree.more)?;
    put(out, tree.colon)?;
    add_stats(out, &tree.body)?;
    Ok(())
}

fn add_next_range(out: &mut Vec<u32>, tree: &NextRange) -> Result<(), Memory>
    ensures { OnOk result (Adds out.old.items out.new.items (next_range_text tree.now)) }
{
    put(out, tree.comma)?;
    add_range(out, &tree.range)?;
    Ok(())
}

fn add_each_next_range(out: &mut Vec<u32>, trees: &[NextRange]) -> Result<(), Memory>
    ensures { OnOk result (Adds out.old.items out.new.items (each next_range_text trees.now)) }
{
    for tree in trees {
        add_next_range(out, tree)?;
    }
    Ok(())
}

fn add_range(out: &mut Vec<u32>, tree: &Range) -> Result<(), Memory>
    ensures { OnOk result (Adds out.old.items out.new.items (range_text tree.now)) }
{
    add_label(out, &tree.low)?;
    add_high(out, &tree.high)?;
    Ok(())
}

fn add_high(out: &mut Vec<u32>, tree: &Option<High>) -> Result<(), Memory>
    ensures { OnOk result (Adds out.old.items out.new.items (optional high_text tree.now)) }
{
    match tree {
        None => Ok(()),
        Some(tree) => {
            put(out, tree.dots)?;
            add_label(out, &tree.label)?;
            Ok(())
        }
    }
}

fn add_label(out: &mut Vec<u32>, tree: &Label) -> Result<(), Memory>
    ensures { OnOk result (Adds out.old.items out.new.items (label_text tree.now)) }
{
    match tree {
        Label::Int(index) => {
            put(out, *index)?;
            Ok(())
        }
        Label::Text(index) => {
            put(out, *index)?;
            Ok(())
        }
        Label::Char(index) => {
            put(out, *index)?;
            Ok(())
        }
        Label::Named(tree) => {
            add_qualident(out, tree)?;
            Ok(())
        }
    }
}

#[cycle(adds)]
fn add_while_stat(out: &mut Vec<u32>, tree: &WhileStat) -> Result<(), Memory>
    ensures { OnOk result (Adds out.old.items out.new.items (while_stat_text tree.now)) }
{
    put(out, tree.while_word)?;
    add_expression(out, &tree.guard)?;
    put(out, tree.do_word)?;
    add_stats(out, &tree.body)?;
    add_each_elsif_do(out, &tree.elsifs)?;
    put(out, tree.end_word)?;
    Ok(())
}

#[cycle(adds)]
fn add_elsif_do(out: &mut Vec<u32>, tree: &ElsifDo) -> Result<(), Memory>
    ensures { OnOk result (Adds out.old.items out.new.items (elsif_do_text tree.now)) }
{
    put(out, tree.elsif_word)?;
    add_expression(out, &tree.guard)?;
    put(out, tree.do_word)?;
    add_stats(out, &tree.body)?;
    Ok(())
}

#[cycle(adds)]
fn add_each_elsif_do(out: &mut Vec<u32>, trees: &[ElsifDo]) -> Result<(), Memory>
    ensures { OnOk result (Adds out.old.items out.new.items (each elsif_do_text trees.now)) }
{
    for tree in trees {
        add_elsif_do(out, tree)?;
    }
    Ok(())
}

#[cycle(adds)]
fn add_repeat_stat(out: &mut Vec<u32>, tree: &RepeatStat) -> Result<(), Memory>
    ensures { OnOk result (Adds out.old.items out.new.items (repeat_stat_text tree.now)) }
{
    put(out, tree.repeat_word)?;
    add_stats(out, &tree.body)?;
    put(out, tree.until_word)?;
    add_expression(out, &tree.guard)?;
    Ok(())
}

#[cycle(adds)]
fn add_for_stat(out: &mut Vec<u32>, tree: &ForStat) -> Result<(), Memory>
    ensures { OnOk result (Adds out.old.items out.new.items (for_stat_text tree.now)) }
{
    put(out, tree.for_word)?;
    put(out, tree.variable)?;
    put(out, tree.becomes)?;
    add_expression(out, &tree.from)?;
    put(out, tree.to_word)?;
    add_expression(out, &tree.to)?;
    add_by(out, &tree.by)?;
    put(out, tree.do_word)?;
    add_stats(out, &tree.body)?;
    put(out, tree.end_word)?;
    Ok(())
}

fn add_by(out: &mut Vec<u32>, tree: &Option<By>) -> Result<(), Memory>
    ensures { OnOk result (Adds out.old.items out.new.items (optional by_text tree.now)) }
{
    match tree {
        None => Ok(()),
        Some(tree) => {
            put(out, tree.by_word)?;
            add_expression(out, &tree.step)?;
            Ok(())
        }
    }
}
