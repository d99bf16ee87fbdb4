//! What completes a procedure: its body, RETURN and the name behind END (Oberon-07 report, section 10).

ghost use Rattle.std.specs.Prelude.{◌≡◌, length};
ghost use Rattle.std.specs.Str.{bytes_eq};
ghost use Rattle.ob_judge.specs.Image.{Procedure as JudgedProcedure};
ghost use Rattle.ob_judge.specs.Judged.{rule};
ghost use Rattle.ob_judge.specs.Making.{Making};
ghost use Rattle.ob_judge.specs.Modules.{SoFar};
ghost use Rattle.ob_judge.specs.Parameters.{Listed};
ghost use Rattle.ob_judge.specs.Scopes.{place, spelled};
ghost use Rattle.ob_judge.specs.Shapes.{Shape};
ghost use Rattle.judged_tree.specs.Tables.{are_before};
ghost use Rattle.judged_outlines.specs.Upright.{Upright};
ghost use Rattle.judged_modules.specs.steps.Procedures.{OneProcedure, plain_procedure};
ghost use Rattle.judged_modules.specs.steps.Steps.{completed as judged_completed};
ghost use Rattle.check_procedures.specs.lines.Lines.{IsLineTable};
ghost use Rattle.table_builder.specs.Entries.{IsNumbered};
ghost use Rattle.check_types.specs.TypeMeaning.{type_shape};
ghost use Rattle.check_types.specs.steps.Answers.{Answers};
ghost use Rattle.check_types.specs.names.Worlds.{world_of, table_of as table_in};
ghost use Rattle.check_selectors.specs.standard.Made.{IsKept};
ghost use Rattle.check_making.specs.Making.{Makes, IsSettled};
ghost use Rattle.check_making.specs.parameters.Headings.{IsHeading};
ghost use Rattle.check_making.specs.scopes.Building.{StandsFor};
ghost use Rattle.check_procedures.specs.numbers.Numbering.{NumbersAll};
ghost use Rattle.check_procedures.specs.Completing.{HasLine, HasLocals, IsBody, IsCompleted};

use crate::lines::line_at;
use crate::numbers::{Numbered, renumbered};
use check_making::parameters::Heading;
use check_making::scopes::variable_numbers;
use check_making::{Declaring, Surroundings};
use check_statements::assignments::answer;
use check_statements::body_of;
use check_types::TypeRef;
use check_types::names::Scope;
use check_types::steps::CheckFault;
use items::Items;
use ob_syntax::declarations::Procedure as ProcedureTree;
use ob_types::Procedure;

/// Behind END stands this name again.
pub fn end_name(round: &Surroundings, name: u32, end: u32) -> Result<(), CheckFault>
    ensures { Answers IsKept
        (rule 37 (place round.now.source.now end) (bytes_eq (spelled round.now.source.now end) (spelled round.now.source.now name))) result }
{
    if round.source.spelled(end) == round.source.spelled(name) {
        Ok(())
    } else {
        Err(round.source.fault(37, end))
    }
}

/// A procedure's statements, the expression behind RETURN, and the name behind END, judged in its scope.
pub fn judged_body<'a>(
    scope: &Scope<'a>,
    round: &Surroundings,
    outcome: TypeRef,
    tree: &ProcedureTree,
) -> Result<Numbered, CheckFault>
    requires numbers { NumbersAll scope.now.types.now }
    requires source { scope.now.source.now ≡ round.now.source.now }
    ensures { (m : Making) (h : Listed × Shape) → world_of scope.now ≡ m.world → type_shape (table_in scope.now) outcome ≡ h.1
        → Answers (IsBody round.now.source.now (plain_procedure tree.now) h m scope.now.types.now)
        (judged_completed round.now.source.now (plain_procedure tree.now) h m) result }
{
    let body = body_of(scope, round.alloc, &tree.body)?;
    let given = answer(scope, round.alloc, outcome, tree.end_word, &tree.returned)?;
    end_name(round, tree.name.name, tree.end_name)?;
    let numbered = renumbered(scope, round.alloc, body, given)?;
    Ok(numbered)
}

/// A procedure from its line, its heading, the types of its variables and its body.
pub fn procedure_with(
    state: &Declaring,
    round: &Surroundings,
    line: u32,
    heading: Heading,
    locals: Items<u32>,
    numbered: Numbered,
) -> Procedure
    requires settled { IsSettled round.now state.now }
    requires formals { are_before (length state.now.types.table.entries.items) heading.listed.formals }
    requires outcome { IsNumbered state.now.types.table.entries.items heading.outcome }
    ensures { (q : OneProcedure) (h : Listed × Shape) (m : Making) (j : JudgedProcedure) → HasLine round.now line q → IsHeading state.now heading h
        → HasLocals state.now.types.table locals m → IsCompleted round.now state.now.types.table q h m j
        → IsBody round.now.source.now q h m state.now.types.table numbered j → StandsFor state.now.types.table result j }
{
    Procedure {
        module: round.module_number,
        line,
        is_body: false,
        formals: heading.listed.formals,
        result: state.types.number(heading.outcome),
        locals,
        texts: numbered.texts,
        body: numbered.body,
        answer: numbered.answer,
    }
}

/// What a procedure is, where its declarations have been judged.
pub fn completed(
    state: &Declaring,
    round: &Surroundings,
    lines: &[u32],
    heading: Heading,
    tree: &ProcedureTree,
) -> Result<Procedure, CheckFault>
    requires settled { IsSettled round.now state.now }
    requires lines { IsLineTable round.now.source.now.bytes lines.now }
    requires formals { are_before (length state.now.types.table.entries.items) heading.listed.formals }
    requires outcome { IsNumbered state.now.types.table.entries.items heading.outcome }
    ensures { (c : SoFar) (m : Making) (h : Listed × Shape) → Makes round.now state.now m → Upright c m → IsHeading state.now heading h
        → Answers (StandsFor state.now.types.table) (judged_completed round.now.source.now (plain_procedure tree.now) h m) result }
{
    let scope = state.scope(round);
    let numbered = judged_body(&scope, round, heading.outcome, tree)?;
    let locals = variable_numbers(state, round)?;
    let line = line_at(round.source, lines, tree.name.name);
    Ok(procedure_with(state, round, line, heading, locals, numbered))
}
