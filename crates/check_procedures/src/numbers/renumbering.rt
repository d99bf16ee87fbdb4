//! A whole body.

ghost use Rattle.std.specs.Prelude.{◌≡◌, ◌≤◌, IfOk, IfErr, OnOk, option_map, length, []};
ghost use Rattle.ob_judge.specs.Texts.{texts_of as texts_in};
ghost use Rattle.judged_tree.specs.Plain.{plain_body, plain_checked};
ghost use Rattle.check_types.specs.declared.table.TypeTable.{TypeTable};
ghost use Rattle.check_types.specs.names.Worlds.{table_of};
ghost use Rattle.check_operands.specs.Operands.{texts_of};
ghost use Rattle.table_builder.specs.Growing.{Grows};
ghost use Rattle.check_making.specs.scopes.InTurn.{UseInTurn};
ghost use Rattle.check_procedures.specs.numbers.Numbering.{NumbersAll, KeepsMeaning, numbering_of};
ghost use Rattle.check_procedures.specs.numbers.Readings.{pair, bodies, answers};

use crate::numbers::statements::{renumber_checked, renumber_statements};
use check_types::names::Scope;
use check_types::steps::CheckFault;
use items::Items;
use ob_types::{Characters, Checked, Stmt};
use outside::Memory;
use std::alloc::Global;

/// Statements and an answer whose uses of strings are numbered by their order, and the characters of these uses.
#[derive(Drop)]
pub struct Numbered {
    pub texts: Items<Characters>,
    pub body: Items<Stmt>,
    pub answer: Option<Checked>,
}

// The expression behind RETURN, if there is one.
fn renumber_answer<'a>(
    scope: &Scope<'a>,
    alloc: Global,
    uses: &mut Items<Characters>,
    answer: &mut Option<Checked>,
) -> Result<(), Memory>
    ensures { OnOk result (KeepsMeaning answers (numbering_of scope.now)
        (record { tree = answer.old; made = answer.new; before = uses.old; after = uses.new })) }
{
    match answer {
        None => Ok(()),
        Some(x) => {
            renumber_checked(scope, alloc, uses, x)?;
            Ok(())
        }
    }
}

// The same, where all that may fail is memory.
fn with_uses<'a>(
    scope: &Scope<'a>,
    alloc: Global,
    body: Vec<Stmt>,
    answer: Option<Checked>,
) -> Result<Numbered, Memory>
    ensures { IfOk result (λ n. KeepsMeaning (pair bodies answers) (numbering_of scope.now)
        (record { tree = (body.items, answer); made = (n.body, n.answer); before = []; after = n.texts })) }
{
    let mut body = body;
    let mut answer = answer;
    let mut texts = Items::new(alloc);
    renumber_statements(scope, alloc, &mut texts, &mut body)?;
    renumber_answer(scope, alloc, &mut texts, &mut answer)?;
    Ok(Numbered {
        texts,
        body: Items::from_vec(body),
        answer,
    })
}

/// A procedure's statements and answer with their final numbers: uses of strings by their order in the tree, types by
/// numbers that are in the table. There was no memory also where there are more uses than can be numbered.
pub fn renumbered<'a>(
    scope: &Scope<'a>,
    alloc: Global,
    body: Vec<Stmt>,
    answer: Option<Checked>,
) -> Result<Numbered, CheckFault>
    requires numbers { NumbersAll scope.now.types.now }
    ensures texts { IfOk result (λ n. n.texts
        ≡ texts_in (plain_body (table_of scope.now) (texts_of scope.now) body.items)
        (option_map (plain_checked (table_of scope.now) (texts_of scope.now)) answer)) }
    ensures body { IfOk result (λ n. plain_body (table_of scope.now) n.texts n.body
        ≡ plain_body (table_of scope.now) (texts_of scope.now) body.items) }
    ensures answer { IfOk result (λ n. option_map (plain_checked (table_of scope.now) n.texts) n.answer
        ≡ option_map (plain_checked (table_of scope.now) (texts_of scope.now)) answer) }
    ensures body_stays { IfOk result (λ n. (u : TypeTable) → Grows scope.now.types.now u → length u.types.signatures ≤ 4294967295
        → plain_body u.types n.texts n.body ≡ plain_body (table_of scope.now) n.texts n.body) }
    ensures answer_stays { IfOk result (λ n. (u : TypeTable) → Grows scope.now.types.now u → length u.types.signatures ≤ 4294967295
        → option_map (plain_checked u.types n.texts) n.answer ≡ option_map (plain_checked (table_of scope.now) n.texts) n.answer) }
    ensures in_turn { IfOk result (λ n. UseInTurn n.texts n.body n.answer) }
    ensures memory { IfErr result (λ e. e ≡ CheckFault.Memory) }
{
    match with_uses(scope, alloc, body, answer) {
        Ok(numbered) => Ok(numbered),
        Err(_) => Err(CheckFault::Memory),
    }
}
