//! A module's end.

ghost use Rattle.std.specs.Prelude.{◌≡◌, IfOk, OnOk};
ghost use Rattle.ob_syntax.specs.Plain.{plain_module};
ghost use Rattle.ob_judge.specs.Making.{Making};
ghost use Rattle.ob_judge.specs.Modules.{SoFar};
ghost use Rattle.judged_outlines.specs.Upright.{Upright};
ghost use Rattle.check_procedures.specs.lines.Lines.{IsLineTable};
ghost use Rattle.check_types.specs.steps.Answers.{Answers};
ghost use Rattle.check_making.specs.Making.{IsSettled};
ghost use Rattle.check_making.specs.scopes.Building.{Represents};
ghost use Rattle.check_modules.specs.programs.Entities.{AreTold};
ghost use Rattle.check_modules.specs.Parts.{ending_part};
ghost use Rattle.check_modules.specs.Ended.{IsEnded, SeenStays};

use crate::bodies::{completed, number_body};
use crate::importing::known_module;
use crate::programs::module_with;
use check_making::Surroundings;
use check_making::scopes::Building;
use check_types::names::KnownModule;
use check_types::steps::CheckFault;
use ob_syntax::modules::Module as ModuleTree;
use ob_types::Module;

/// A module that has been judged, as the program has it, and what later modules see of it.
#[derive(Drop)]
pub struct JudgedModule {
    pub own: Module,
    pub seen: KnownModule,
}

/// A module's body, the name behind END, and the module, once its declarations have been judged.
pub fn end_module(
    state: &mut Building,
    round: &Surroundings,
    lines: &[u32],
    tree: &ModuleTree,
) -> Result<JudgedModule, CheckFault>
    requires settled { IsSettled round.now state.old.declaring }
    requires lines { IsLineTable round.now.source.now.bytes lines.now }
    requires told { AreTold state.old.declaring.types.table.entries.items state.old.declaring.objects.items }
    ensures types { OnOk result (state.new.declaring.types ≡ state.old.declaring.types) }
    ensures strings { OnOk result (state.new.declaring.strings ≡ state.old.declaring.strings) }
    ensures places { OnOk result (state.new.declaring.places ≡ state.old.declaring.places) }
    ensures seen { IfOk result (λ e. SeenStays state.new e) }
    ensures judged { (c : SoFar) (m : Making) → Represents round.now state.old m → Upright c m
        → Answers (IsEnded round.now tree.now.name state.new) (ending_part round.now.source.now (plain_module tree.now) m) result }
{
    let procedure = completed(&state.declaring, round, lines, tree)?;
    let body = number_body(state, round, procedure)?;
    let own = module_with(&state.declaring, round, tree.name, body)?;
    let seen = known_module(&mut state.declaring, round, tree.name)?;
    Ok(JudgedModule { own, seen })
}
