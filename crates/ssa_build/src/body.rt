//! A procedure's code, from its beginning to its result.

ghost use Rattle.std.specs.Prelude.{◌≡◌, IfOk};
ghost use Rattle.ob_types.specs.declared.program.Program.{Program};
ghost use Rattle.ssa_lowered.specs.Data.{layout};
ghost use Rattle.ssa_lowered.specs.Lowered.{Here, answer as answer_there, whole};
ghost use Rattle.ssa_lowered.specs.Variables.{some_structured};
ghost use Rattle.ssa_exprs.specs.Making.{Gives};
ghost use Rattle.ssa_exprs.specs.Tables.{Serves};
ghost use Rattle.ssa_build.specs.Bodies.{InProgram};
ghost use Rattle.ssa_build.specs.Makes.{Makes};

use crate::entry::{further, open, store_all, zero};
use ob_types::{Checked, Procedure, Types};
use outside::Memory;
use ssa_exprs::{Making, Tables, value};
use ssa_statements::statements;
use ssa_tables::{Locals, is_structured};

/// Whether there is an array or a record among some types.
fn has_structured(types: &Types, list: &[u32]) -> bool
    ensures { result ≡ some_structured types.now list.now }
{
    for k in list {
        if is_structured(types.kind(*k)) {
            return true;
        }
    }
    false
}

/// The expression behind RETURN.
fn answer(t: &Tables<'_>, b: &mut Making, answer: &Option<Checked>) -> Result<Option<u32>, Memory>
    ensures { IfOk result (λ r. (p : Program) (here : Here) → Serves t.now p here → Gives b.old b.new (answer_there p (layout p.types) here answer.now) r) }
{
    match answer {
        None => Ok(None),
        Some(x) => {
            let v = value(t, b, &x.form)?;
            Ok(Some(v))
        }
    }
}

/// The whole procedure; gives its result.
pub fn lower_body(
    t: &Tables<'_>,
    b: &mut Making,
    types: &Types,
    procedure: &Procedure,
    locals: &Locals,
    words: u32,
) -> Result<Option<u32>, Memory>
    ensures { IfOk result (λ r. InProgram t.now types.now procedure.now locals.now (λ p here. Makes b.old b.new (whole p (layout p.types) here words locals.now.structured) r)) }
{
    let variables = locals.variables.as_slice();
    let structured = has_structured(types, procedure.locals.as_slice());
    further(b, words)?;
    zero(b, structured, locals.bytes, locals.structured)?;
    store_all(b, types, locals.bytes, variables)?;
    let env = open(b, variables)?;
    b.enter(env);
    statements(t, b, procedure.body.as_slice())?;
    let result = answer(t, b, &procedure.answer)?;
    Ok(result)
}
