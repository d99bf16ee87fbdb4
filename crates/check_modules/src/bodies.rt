//! A module's body.

ghost use Rattle.std.specs.Prelude.{◌≡◌, OnOk};
ghost use Rattle.ob_syntax.specs.Plain.{plain_module};
ghost use Rattle.ob_judge.specs.Image.{Procedure as JudgedProcedure};
ghost use Rattle.ob_judge.specs.Making.{Making};
ghost use Rattle.ob_judge.specs.Modules.{SoFar};
ghost use Rattle.judged_outlines.specs.Upright.{Upright};
ghost use Rattle.check_procedures.specs.lines.Lines.{IsLineTable};
ghost use Rattle.check_types.specs.steps.Answers.{Answers};
ghost use Rattle.check_making.specs.Making.{Makes, IsSettled};
ghost use Rattle.check_making.specs.scopes.Building.{StandsFor};
ghost use Rattle.check_making.specs.scopes.Built.{BuildsAs, IsNumber};
ghost use Rattle.check_modules.specs.Parts.{completed_module, numbered_part};

use check_making::scopes::Building;
use check_making::{Declaring, Surroundings};
use check_procedures::end_name;
use check_procedures::lines::line_at;
use check_procedures::numbers::renumbered;
use check_statements::body_of;
use check_types::TypeRef;
use check_types::steps::CheckFault;
use items::Items;
use ob_syntax::modules::Module;
use ob_types::Procedure;

/// What a module's body is, where its declarations have been judged.
pub fn completed(
    state: &Declaring,
    round: &Surroundings,
    lines: &[u32],
    tree: &Module,
) -> Result<Procedure, CheckFault>
    requires settled { IsSettled round.now state.now }
    requires lines { IsLineTable round.now.source.now.bytes lines.now }
    ensures { (c : SoFar) (m : Making) → Makes round.now state.now m → Upright c m
        → Answers (StandsFor state.now.types.table) (completed_module round.now.source.now (plain_module tree.now) m) result }
{
    let scope = state.scope(round);
    let body = body_of(&scope, round.alloc, &tree.body)?;
    end_name(round, tree.name, tree.end_name)?;
    let numbered = renumbered(&scope, round.alloc, body, None)?;
    let line = line_at(round.source, lines, tree.name);
    let nothing = state.types.number(TypeRef::Nothing);
    Ok(Procedure {
        module: round.module_number,
        line,
        is_body: true,
        formals: Items::new(round.alloc),
        result: nothing,
        locals: Items::new(round.alloc),
        texts: numbered.texts,
        body: numbered.body,
        answer: None,
    })
}

/// A module's body at the next number.
pub fn number_body(
    state: &mut Building,
    round: &Surroundings,
    body: Procedure,
) -> Result<u32, CheckFault>
    requires { IsSettled round.now state.old.declaring }
    ensures declaring { state.new.declaring ≡ state.old.declaring }
    ensures judged { (j : JudgedProcedure) → StandsFor state.old.declaring.types.table body j
        → BuildsAs IsNumber round.now state.old state.new (numbered_part round.now.source.now j) result }
{
    let number = state.new_procedure(round)?;
    state.set_procedure(round, number, body);
    Ok(number)
}
