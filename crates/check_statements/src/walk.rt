//! The walk over statements.

ghost use Rattle.std.specs.Prelude.{◌≡◌};
ghost use Rattle.ob_syntax.specs.Plain.{plain_expression, plain_stats, plain_stat, plain_case};
ghost use Rattle.check_statements.specs.syntax.Lists.{plain_maybe_else};
ghost use Rattle.ob_judge.specs.Image.{Statements, Branches, Checked as JudgedCondition};
ghost use Rattle.ob_judge.specs.Cases.{SelectorOf};
ghost use Rattle.ob_judge.specs.Statements.{statements as judged_statements, statement as judged_statement, else_part};
ghost use Rattle.check_statements.specs.steps.Steps.{put_one, put_more, branch_one, branches_more, branches_more_do, if_of, while_of, repeat_of, for_of, part_one, part_more, filled, case_stat_of};
ghost use Rattle.ob_syntax.specs.declared.statements.Elsif.{out-Elsif};
ghost use Rattle.ob_syntax.specs.declared.statements.ElsifDo.{out-ElsifDo};
ghost use Rattle.check_types.specs.steps.Answers.{Answers};
ghost use Rattle.check_types.specs.names.Worlds.{world_of};
ghost use Rattle.check_selectors.specs.standard.Made.{IsChecked};
ghost use Rattle.check_statements.specs.assignments.Assigned.{IsStatement};
ghost use Rattle.check_statements.specs.Standing.{AreStatements, IsPut, ArePut, ArePutBranches, AreBranches, branch_with, SoFar, ArePutParts, AreParts};

use crate::assignments::condition;
use crate::cases::{narrowed, selector, tag_of, type_labels, value_labels};
use crate::deeds::assign_or_call;
use crate::heads::for_head;
use crate::parts::{CaseParts, case_made, in_part, no_parts};
use crate::puts::with_put;
use crate::ranges::LabelRanges;
use crate::trees::{
    for_statement, if_statement, repeat_statement, while_statement, with_branch, with_case_part,
    with_type_part,
};
use check_expressions::expression;
use check_operands::symbols::expression_first;
use check_types::TypeRef;
use check_types::names::{Scope, VariablePlace};
use check_types::steps::CheckFault;
use ob_syntax::statements::{
    Case, CasePart as CaseTree, CaseStat, Else, Elsif, ElsifDo, ForStat, IfStat, NextCase,
    NextStat, RepeatStat, Stat, Stats, WhileStat,
};
use ob_types::{Branch, CasePart, Checked, Stmt, TypePart};
use std::alloc::Global;

/// Statements, one after the other.
#[cycle(walk)]
pub fn statements<'a>(
    scope: &Scope<'a>,
    alloc: Global,
    tree: &Stats,
) -> Result<Vec<Stmt>, CheckFault>
    ensures { Answers (AreStatements scope.now)
        (judged_statements scope.now.source.now (world_of scope.now) (plain_stats tree.now)) result }
{
    let room = Vec::with_capacity(alloc, 1 + tree.more.len())?;
    let first = put(scope, alloc, &tree.first, room)?;
    further(scope, alloc, &tree.more, first)
}

/// Further statements.
#[cycle(walk)]
fn further<'a>(
    scope: &Scope<'a>,
    alloc: Global,
    more: &[NextStat],
    first: Vec<Stmt>,
) -> Result<Vec<Stmt>, CheckFault>
    ensures { (a : Statements → Statements) → ArePut scope.now first a →
        Answers (AreStatements scope.now) (put_more scope.now.source.now (world_of scope.now) a more.now) result }
{
    let mut all = first;
    for next in more {
        all = put(scope, alloc, &next.stat, all)?;
    }
    Ok(all)
}

/// One more statement.
#[cycle(walk)]
fn put<'a>(
    scope: &Scope<'a>,
    alloc: Global,
    tree: &Stat,
    so_far: Vec<Stmt>,
) -> Result<Vec<Stmt>, CheckFault>
    ensures { (a : Statements → Statements) → ArePut scope.now so_far a →
        Answers (ArePut scope.now) (put_one scope.now.source.now (world_of scope.now) a tree.now) result }
{
    let made = statement(scope, alloc, tree)?;
    let all = with_put(so_far, made)?;
    Ok(all)
}

/// A statement, if it isn't empty.
#[cycle(walk)]
fn statement<'a>(scope: &Scope<'a>, alloc: Global, tree: &Stat) -> Result<Option<Stmt>, CheckFault>
    ensures { Answers (IsPut scope.now)
        (judged_statement scope.now.source.now (world_of scope.now) (plain_stat tree.now)) result }
{
    match tree {
        Stat::Empty => Ok(None),
        Stat::AssignOrCall(inner) => {
            let made = assign_or_call(scope, alloc, inner)?;
            Ok(Some(made))
        }
        Stat::If(inner) => {
            let made = if_branches(scope, alloc, inner)?;
            Ok(Some(made))
        }
        Stat::Case(inner) => {
            let made = case(scope, alloc, inner)?;
            Ok(Some(made))
        }
        Stat::While(inner) => {
            let made = while_branches(scope, alloc, inner)?;
            Ok(Some(made))
        }
        Stat::Repeat(inner) => {
            let made = repeat(scope, alloc, inner)?;
            Ok(Some(made))
        }
        Stat::For(inner) => {
            let made = for_loop(scope, alloc, inner)?;
            Ok(Some(made))
        }
    }
}

/// IF.
#[cycle(walk)]
fn if_branches<'a>(scope: &Scope<'a>, alloc: Global, tree: &IfStat) -> Result<Stmt, CheckFault>
    ensures { Answers (IsStatement scope.now) (if_of scope.now.source.now (world_of scope.now) tree.now) result }
{
    let guard = condition(scope, alloc, &tree.guard)?;
    let room = Vec::with_capacity(alloc, 1 + tree.elsifs.len())?;
    let first = guarded_branch(scope, alloc, &tree.body, room, guard)?;
    let branches = elsifs(scope, alloc, &tree.elsifs, first)?;
    let other = otherwise(scope, alloc, &tree.otherwise)?;
    Ok(if_statement(branches, other))
}

/// One more branch, whose condition has been judged.
#[cycle(walk)]
fn guarded_branch<'a>(
    scope: &Scope<'a>,
    alloc: Global,
    body: &Stats,
    so_far: Vec<Branch>,
    guard: Checked,
) -> Result<Vec<Branch>, CheckFault>
    ensures { (a : Branches → Branches) (g : JudgedCondition) → ArePutBranches scope.now so_far a → IsChecked scope.now guard g →
        Answers (ArePutBranches scope.now)
        (branch_with scope.now.source.now (world_of scope.now) a g (plain_stats body.now)) result }
{
    let done = statements(scope, alloc, body)?;
    let all = with_branch(so_far, guard, done)?;
    Ok(all)
}

/// ELSIFs of IF.
#[cycle(walk)]
fn elsifs<'a>(
    scope: &Scope<'a>,
    alloc: Global,
    more: &[Elsif],
    first: Vec<Branch>,
) -> Result<Vec<Branch>, CheckFault>
    ensures { (a : Branches → Branches) → ArePutBranches scope.now first a →
        Answers (AreBranches scope.now) (branches_more scope.now.source.now (world_of scope.now) a more.now) result }
{
    let mut all = first;
    for next in more {
        all = elsif(scope, alloc, next, all)?;
    }
    Ok(all)
}

/// ELSIF of IF.
#[cycle(walk)]
fn elsif<'a>(
    scope: &Scope<'a>,
    alloc: Global,
    tree: &Elsif,
    so_far: Vec<Branch>,
) -> Result<Vec<Branch>, CheckFault>
    ensures { (a : Branches → Branches) → ArePutBranches scope.now so_far a →
        Answers (ArePutBranches scope.now)
        (branch_one scope.now.source.now (world_of scope.now) a (plain_expression (out-Elsif tree.now).guard)
        (plain_stats (out-Elsif tree.now).body))
        result }
{
    let guard = condition(scope, alloc, &tree.guard)?;
    guarded_branch(scope, alloc, &tree.body, so_far, guard)
}

/// ELSE, or no statement.
#[cycle(walk)]
fn otherwise<'a>(
    scope: &Scope<'a>,
    alloc: Global,
    tree: &Option<Else>,
) -> Result<Vec<Stmt>, CheckFault>
    ensures { Answers (AreStatements scope.now)
        (else_part scope.now.source.now (world_of scope.now) (plain_maybe_else tree.now)) result }
{
    match tree {
        None => Ok(Vec::new(alloc)),
        Some(inner) => statements(scope, alloc, &inner.body),
    }
}

/// WHILE.
#[cycle(walk)]
fn while_branches<'a>(
    scope: &Scope<'a>,
    alloc: Global,
    tree: &WhileStat,
) -> Result<Stmt, CheckFault>
    ensures { Answers (IsStatement scope.now) (while_of scope.now.source.now (world_of scope.now) tree.now) result }
{
    let guard = condition(scope, alloc, &tree.guard)?;
    let room = Vec::with_capacity(alloc, 1 + tree.elsifs.len())?;
    let first = guarded_branch(scope, alloc, &tree.body, room, guard)?;
    let branches = elsif_dos(scope, alloc, &tree.elsifs, first)?;
    Ok(while_statement(branches))
}

/// ELSIFs of WHILE.
#[cycle(walk)]
fn elsif_dos<'a>(
    scope: &Scope<'a>,
    alloc: Global,
    more: &[ElsifDo],
    first: Vec<Branch>,
) -> Result<Vec<Branch>, CheckFault>
    ensures { (a : Branches → Branches) → ArePutBranches scope.now first a →
        Answers (AreBranches scope.now) (branches_more_do scope.now.source.now (world_of scope.now) a more.now) result }
{
    let mut all = first;
    for next in more {
        all = elsif_do(scope, alloc, next, all)?;
    }
    Ok(all)
}

/// ELSIF of WHILE.
#[cycle(walk)]
fn elsif_do<'a>(
    scope: &Scope<'a>,
    alloc: Global,
    tree: &ElsifDo,
    so_far: Vec<Branch>,
) -> Result<Vec<Branch>, CheckFault>
    ensures { (a : Branches → Branches) → ArePutBranches scope.now so_far a →
        Answers (ArePutBranches scope.now)
        (branch_one scope.now.source.now (world_of scope.now) a (plain_expression (out-ElsifDo tree.now).guard)
        (plain_stats (out-ElsifDo tree.now).body))
        result }
{
    let guard = condition(scope, alloc, &tree.guard)?;
    guarded_branch(scope, alloc, &tree.body, so_far, guard)
}

/// REPEAT.
#[cycle(walk)]
fn repeat<'a>(scope: &Scope<'a>, alloc: Global, tree: &RepeatStat) -> Result<Stmt, CheckFault>
    ensures { Answers (IsStatement scope.now) (repeat_of scope.now.source.now (world_of scope.now) tree.now) result }
{
    let body = statements(scope, alloc, &tree.body)?;
    let guard = condition(scope, alloc, &tree.guard)?;
    Ok(repeat_statement(body, guard))
}

/// FOR.
#[cycle(walk)]
fn for_loop<'a>(scope: &Scope<'a>, alloc: Global, tree: &ForStat) -> Result<Stmt, CheckFault>
    ensures { Answers (IsStatement scope.now) (for_of scope.now.source.now (world_of scope.now) tree.now) result }
{
    let head = for_head(scope, alloc, tree.variable, &tree.from, &tree.to, &tree.by)?;
    let body = statements(scope, alloc, &tree.body)?;
    let made = for_statement(
        alloc,
        head.variable,
        head.first,
        head.limit,
        head.step,
        body,
    )?;
    Ok(made)
}

/// CASE: 31 unless it is on a number, a character, or the type of a variable.
#[cycle(walk)]
fn case<'a>(scope: &Scope<'a>, alloc: Global, tree: &CaseStat) -> Result<Stmt, CheckFault>
    ensures { Answers (IsStatement scope.now) (case_stat_of scope.now.source.now (world_of scope.now) tree.now) result }
{
    let x = expression(scope, alloc, &tree.selector)?;
    match selector(scope, &tree.selector, x.of) {
        None => Err(scope.source.fault(31, expression_first(&tree.selector))),
        Some(on) => {
            let first = case_part(scope, alloc, &tree.first, no_parts(alloc, on))?;
            let all = case_parts(scope, alloc, &tree.more, first)?;
            Ok(case_made(scope, x, all))
        }
    }
}

/// Further parts of a CASE.
#[cycle(walk)]
fn case_parts<'a>(
    scope: &Scope<'a>,
    alloc: Global,
    more: &[NextCase],
    first: CaseParts,
) -> Result<CaseParts, CheckFault>
    ensures { (on : SelectorOf) (a : SoFar) → ArePutParts scope.now on first a →
        Answers (AreParts scope.now on) (part_more scope.now.source.now (world_of scope.now) on a more.now) result }
{
    let mut all = first;
    for next in more {
        all = case_part(scope, alloc, &next.case, all)?;
    }
    Ok(all)
}

/// One more part of a CASE, which may be empty.
#[cycle(walk)]
fn case_part<'a>(
    scope: &Scope<'a>,
    alloc: Global,
    tree: &Case,
    so_far: CaseParts,
) -> Result<CaseParts, CheckFault>
    ensures { (on : SelectorOf) (a : SoFar) → ArePutParts scope.now on so_far a →
        Answers (ArePutParts scope.now on)
        (part_one scope.now.source.now (world_of scope.now) on a (plain_case tree.now)) result }
{
    match &tree.part {
        None => Ok(so_far),
        Some(inner) => match so_far {
            CaseParts::Values {
                of_char,
                parts,
                taken,
            } => value_part(scope, alloc, inner, of_char, parts, taken),
            CaseParts::Types {
                variable,
                of,
                parts,
            } => type_part(scope, alloc, inner, variable, of, parts),
        },
    }
}

/// A part for values.
#[cycle(walk)]
fn value_part<'a>(
    scope: &Scope<'a>,
    alloc: Global,
    tree: &CaseTree,
    of_char: bool,
    parts: Vec<CasePart>,
    taken: LabelRanges,
) -> Result<CaseParts, CheckFault>
    ensures { (on : SelectorOf) (a : SoFar) → ArePutParts scope.now on (CaseParts.Values of_char parts taken) a →
        Answers (ArePutParts scope.now on) (filled scope.now.source.now (world_of scope.now) on a tree.now) result }
{
    let labelled = value_labels(scope, alloc, of_char, taken, &tree.first, &tree.more)?;
    let body = statements(scope, alloc, &tree.body)?;
    let all = with_case_part(parts, labelled.labels, body)?;
    Ok(CaseParts::Values {
        of_char,
        parts: all,
        taken: labelled.taken,
    })
}

/// A part for a type.
#[cycle(walk)]
fn type_part<'a>(
    scope: &Scope<'a>,
    alloc: Global,
    tree: &CaseTree,
    variable: VariablePlace,
    of: TypeRef,
    parts: Vec<TypePart>,
) -> Result<CaseParts, CheckFault>
    ensures { (on : SelectorOf) (a : SoFar) → ArePutParts scope.now on (CaseParts.Types variable of parts) a →
        Answers (ArePutParts scope.now on) (filled scope.now.source.now (world_of scope.now) on a tree.now) result }
{
    let to = type_labels(scope, of, &tree.first, &tree.more)?;
    let narrowings = narrowed(scope, alloc, variable, to)?;
    let inner = in_part(scope, narrowings.as_slice());
    let body = statements(&inner, alloc, &tree.body)?;
    let all = with_type_part(parts, tag_of(scope, to), body)?;
    Ok(CaseParts::Types {
        variable,
        of,
        parts: all,
    })
}
