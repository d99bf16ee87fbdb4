//! The parts of a CASE.

ghost use Rattle.std.specs.Prelude.{◌≡◌, []};
ghost use Rattle.ob_judge.specs.Image.{Parts};
ghost use Rattle.ob_judge.specs.Operands.{Operand as Judgement};
ghost use Rattle.ob_judge.specs.Cases.{SelectorOf, case_of as judged_case};
ghost use Rattle.check_types.specs.declared.names.scope.Scope.{Scope as TheScope};
ghost use Rattle.check_types.specs.declared.names.scope.VariablePlace.{VariablePlace as ThePlace};
ghost use Rattle.check_types.specs.names.Worlds.{table_of};
ghost use Rattle.check_operands.specs.Operands.{Stands};
ghost use Rattle.check_statements.specs.assignments.Assigned.{IsStatement};
ghost use Rattle.check_statements.specs.cases.Selecting.{selecting_meant};
ghost use Rattle.check_statements.specs.Standing.{AreParts, ArePutParts};

use crate::cases::Selecting;
use crate::ranges::LabelRanges;
use crate::trees::{case_parameter, case_pointer, case_values};
use check_operands::{Operand, checked, designator};
use check_types::TypeRef;
use check_types::names::{Narrowing, Scope, VariablePlace};
use ob_types::{CasePart, Stmt, TypePart};
use std::alloc::Global;

/// What a CASE is on, with its parts so far: of INTEGER or CHAR with all labels, or of types.
#[derive(Drop)]
pub enum CaseParts {
    Values {
        of_char: bool,
        parts: Vec<CasePart>,
        taken: LabelRanges,
    },
    Types {
        variable: VariablePlace,
        of: TypeRef,
        parts: Vec<TypePart>,
    },
}

/// No part yet.
pub fn no_parts(alloc: Global, on: Selecting) -> CaseParts
    ensures { (s : TheScope) → ArePutParts s (selecting_meant (table_of s) on) result ((λ rest. rest), []) }
{
    match on {
        Selecting::Numbers => CaseParts::Values {
            of_char: false,
            parts: Vec::new(alloc),
            taken: LabelRanges::new(alloc),
        },
        Selecting::Characters => CaseParts::Values {
            of_char: true,
            parts: Vec::new(alloc),
            taken: LabelRanges::new(alloc),
        },
        Selecting::Types { variable, of } => CaseParts::Types {
            variable,
            of,
            parts: Vec::new(alloc),
        },
    }
}

// A CASE on types: on a pointer, or on a VAR parameter.
fn on_types<'a>(scope: &Scope<'a>, x: Operand, of: TypeRef, parts: Vec<TypePart>) -> Stmt
    ensures { (variable : ThePlace) (on : SelectorOf) (a : Judgement) (b : Parts) → Stands scope.now x a →
        AreParts scope.now on (CaseParts.Types variable of parts) b →
        IsStatement scope.now result (judged_case on a b) }
{
    if of.is_pointer() {
        case_pointer(checked(scope, x), parts)
    } else {
        case_parameter(designator(scope, x), parts)
    }
}

/// A CASE on this operand.
pub fn case_made<'a>(scope: &Scope<'a>, x: Operand, all: CaseParts) -> Stmt
    ensures { (on : SelectorOf) (a : Judgement) (b : Parts) → Stands scope.now x a → AreParts scope.now on all b →
        IsStatement scope.now result (judged_case on a b) }
{
    match all {
        CaseParts::Values { parts, .. } => case_values(checked(scope, x), parts),
        CaseParts::Types { of, parts, .. } => on_types(scope, x, of, parts),
    }
}

/// The same scope, where these variables are narrowed.
pub fn in_part<'b, 'a: 'b>(scope: &Scope<'a>, narrowed: &'b [Narrowing]) -> Scope<'b>
    ensures same { result ≡ record scope.now { narrowed = result.narrowed } }
    ensures narrowed { result.narrowed.now ≡ narrowed.now }
{
    Scope {
        source: scope.source,
        types: scope.types,
        strings: scope.strings,
        modules: scope.modules,
        levels: scope.levels,
        closed: scope.closed,
        narrowed,
        module_number: scope.module_number,
        procedure: scope.procedure,
        constant: scope.constant,
    }
}
