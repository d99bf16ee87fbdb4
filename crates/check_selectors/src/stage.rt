//! What a designator has come to.

ghost use Rattle.std.specs.Prelude.{◌≡◌, option_map};
ghost use Rattle.ob_judge.specs.Names.{Stage as JudgedStage};
ghost use Rattle.check_types.specs.names.Meaning.{imported_of, standard_of as standard_meant};
ghost use Rattle.ob_judge.specs.Names.{Whole as WholeName};
ghost use Rattle.check_types.specs.declared.names.scope.Scope.{Scope as TheScope};
ghost use Rattle.check_types.specs.names.Meaning.{object_of};
ghost use Rattle.check_types.specs.names.Worlds.{table_of, strings_of};
ghost use Rattle.check_selectors.specs.Stages.{IsStage};
ghost use Rattle.check_selectors.specs.Behind.{module_in, standard_in};

use crate::parts::Part;
use check_operands::Operand;
use check_types::names::{Imported, Named, Scope, Standard};

/// What a designator has come to: a name alone, a part of what it names, or a call, which is last.
#[derive(Drop)]
pub enum Stage {
    Whole(Named),
    Partly(Part),
    Ended(Operand),
}

// The module that a name stands for.
fn named_module(named: Named) -> Option<Imported>
    ensures { (s : TheScope) → module_in (WholeName (object_of (table_of s) (strings_of s) named)) ≡ option_map imported_of result }
{
    match named {
        Named::Module(imported) => Some(imported),
        _ => None,
    }
}

// The standard procedure that a name stands for.
fn named_standard(named: Named) -> Option<Standard>
    ensures { (s : TheScope) → standard_in (WholeName (object_of (table_of s) (strings_of s) named)) ≡ option_map standard_meant result }
{
    match named {
        Named::Standard(standard) => Some(standard),
        _ => None,
    }
}

/// The module that a stage is.
pub fn module_of<'a>(scope: &Scope<'a>, stage: &Stage) -> Option<Imported>
    ensures { (a : JudgedStage) → IsStage scope.now stage.now a → module_in a ≡ option_map imported_of result }
{
    match stage {
        Stage::Whole(named) => named_module(*named),
        Stage::Partly(_) => None,
        Stage::Ended(_) => None,
    }
}

/// The standard procedure that a stage is.
pub fn standard_of<'a>(scope: &Scope<'a>, stage: &Stage) -> Option<Standard>
    ensures { (a : JudgedStage) → IsStage scope.now stage.now a → standard_in a ≡ option_map standard_meant result }
{
    match stage {
        Stage::Whole(named) => named_standard(*named),
        Stage::Partly(_) => None,
        Stage::Ended(_) => None,
    }
}
