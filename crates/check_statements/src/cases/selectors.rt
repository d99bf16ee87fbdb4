//! What a CASE is on.

ghost use Rattle.std.specs.Prelude.{◌≡◌, ℕ, List, Some, option_map};
ghost use Rattle.ob_types.specs.Table.{Table};
ghost use Rattle.ob_syntax.specs.Plain.{plain_expression, plain_simple};
ghost use Rattle.ob_judge.specs.Symbols.{bare, bare_simple as bare_in_simple};
ghost use Rattle.ob_judge.specs.Operands.{is_tagged_home as tagged_home};
ghost use Rattle.ob_judge.specs.Cases.{case_variable as judged_variable, named_alone, on_values as judged_values, selector_of};
ghost use Rattle.check_types.specs.TypeMeaning.{type_shape};
ghost use Rattle.check_types.specs.names.Meaning.{place_of, object_of, home_of};
ghost use Rattle.check_types.specs.names.Worlds.{table_of, strings_of, world_of};
ghost use Rattle.check_statements.specs.cases.Selecting.{name_in, selecting_meant};

use check_operands::symbols::bare_simple;
use check_types::TypeRef;
use check_types::names::{Home, Named, Scope, VariablePlace};
use ob_syntax::expressions::{Expression, Simple};

/// What a CASE is on: numbers, characters, or the type of a variable.
#[derive(Clone, Copy)]
pub enum Selecting {
    Numbers,
    Characters,
    Types {
        variable: VariablePlace,
        of: TypeRef,
    },
}

// Whether a variable has a dynamic type by itself.
fn is_tagged(home: Home) -> bool
    ensures { tagged_home (home_of home) ≡ result }
{
    match home {
        Home::Tagged => true,
        _ => false,
    }
}

// A pointer variable, or a VAR record parameter.
fn variable_of_types(named: Named) -> Option<VariablePlace>
    ensures { (t : Table) (strings : List (List ℕ)) → option_map place_of result ≡ judged_variable (Some (object_of t strings named)) }
{
    match named {
        Named::Variable(variable) => {
            if variable.of.is_pointer() || is_tagged(variable.home) {
                Some(variable.place)
            } else {
                None
            }
        }
        _ => None,
    }
}

// The name that a sum is, alone.
fn simple_name(tree: &Simple) -> Option<u32>
    ensures { result ≡ name_in (bare_in_simple (plain_simple tree.now)) }
{
    match bare_simple(tree) {
        Some(name) => match name.member {
            None => Some(name.name),
            Some(_) => None,
        },
        None => None,
    }
}

// The name that an expression is, alone.
fn name_alone(tree: &Expression) -> Option<u32>
    ensures { result ≡ name_in (bare (plain_expression tree.now)) }
{
    match &tree.compared {
        None => simple_name(&tree.left),
        Some(_) => None,
    }
}

// The variable whose type a CASE may be on.
fn case_variable<'a>(scope: &Scope<'a>, tree: &Expression) -> Option<VariablePlace>
    ensures { option_map place_of result
        ≡ judged_variable (named_alone scope.now.source.now (world_of scope.now) (bare (plain_expression tree.now))) }
{
    match name_alone(tree) {
        None => None,
        Some(name) => match scope.look_up(scope.source.spelled(name)) {
            None => None,
            Some(declared) => variable_of_types(declared.named),
        },
    }
}

// INTEGER and BYTE, or CHAR.
fn on_values(of: TypeRef) -> Option<Selecting>
    ensures { (t : Table) → option_map (selecting_meant t) result ≡ judged_values (type_shape t of) }
{
    match of {
        TypeRef::Int => Some(Selecting::Numbers),
        TypeRef::Byte => Some(Selecting::Numbers),
        TypeRef::Char => Some(Selecting::Characters),
        _ => None,
    }
}

/// What a CASE is on, where its expression has this type.
pub fn selector<'a>(scope: &Scope<'a>, tree: &Expression, of: TypeRef) -> Option<Selecting>
    ensures { option_map (selecting_meant (table_of scope.now)) result
        ≡ selector_of (judged_variable (named_alone scope.now.source.now (world_of scope.now) (bare (plain_expression tree.now))))
        (type_shape (table_of scope.now) of) }
{
    match case_variable(scope, tree) {
        Some(variable) => Some(Selecting::Types { variable, of }),
        None => on_values(of),
    }
}
