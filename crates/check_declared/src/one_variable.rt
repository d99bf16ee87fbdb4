//! Variables of a type (Oberon-07 report, section 7).

ghost use Rattle.std.specs.Prelude.{◌≡◌, ◌+◌, length, OnOk, IfOk, IfErr};
ghost use Rattle.ob_judge.specs.Declarations.{variable_part};
ghost use Rattle.table_builder.specs.Entries.{IsElement};
ghost use Rattle.check_making.specs.Making.{shape_in, IsSettled};
ghost use Rattle.check_making.specs.Parts.{Judges};
ghost use Rattle.check_declared.specs.Variables.{variable_here};

use check_making::{Declaring, Surroundings};
use check_types::TypeRef;
use check_types::names::{Home, Named, Variable, VariablePlace};
use check_types::steps::CheckFault;
use ob_syntax::names::Identdef;

// How many variables there are, behind so many; without a number for the next there is no memory for it.
fn next_place(values: u32, variables: &[TypeRef]) -> Result<u32, CheckFault>
    ensures number { IfOk result (λ n. n ≡ values + length variables.now) }
    ensures memory { IfErr result (λ e. e ≡ CheckFault.Memory) }
{
    let count = match u32::try_from(variables.len()) {
        Ok(count) => count,
        Err(_) => return Err(CheckFault::Memory),
    };
    match values.checked_add(count) {
        Some(n) => Ok(n),
        None => Err(CheckFault::Memory),
    }
}

// The next variable of a type.
fn variable_of(round: &Surroundings, procedure: Option<u32>, of: TypeRef, n: u32) -> Variable
    ensures { result ≡ variable_here round.now.module_number procedure of n }
{
    let (place, home) = match procedure {
        None => (
            VariablePlace::Global {
                module: round.module_number,
                variable: n,
            },
            Home::OfModule,
        ),
        Some(_) => (VariablePlace::Local(n), Home::Free),
    };
    Variable {
        of,
        place,
        home,
        owner: round.module_number,
        procedure,
    }
}

/// A variable of a type is known.
pub fn variable(
    state: &mut Declaring,
    round: &Surroundings,
    of: TypeRef,
    ident: &Identdef,
) -> Result<(), CheckFault>
    requires settled { IsSettled round.now state.old }
    requires element { IsElement state.old.types.table.entries.items of }
    ensures settled { OnOk result (IsSettled round.now state.new) }
    ensures types { state.new.types ≡ state.old.types }
    ensures judged { Judges round.now state.old state.new (variable_part round.now.source.now (shape_in state.old of) ident.now) result }
{
    let n = next_place(state.values, &state.variables)?;
    let variable = variable_of(round, state.procedure, of, n);
    state.declare(round, ident, Named::Variable(variable))?;
    state.variables.push(of)?;
    Ok(())
}
