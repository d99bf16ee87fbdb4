//! A procedure's name (Oberon-07 report, section 10).

ghost use Rattle.std.specs.Prelude.{◌≡◌, ◌<◌, ◌-◌, length, OnOk};
ghost use Rattle.check_types.specs.declared.types.TypeRef.TheVariants as TheType;
ghost use Rattle.check_types.specs.TypeMeaning.{type_shape};
ghost use Rattle.table_builder.specs.Entries.{IsNumbered};
ghost use Rattle.check_making.specs.Making.{table_of, IsSettled};
ghost use Rattle.check_making.specs.Parts.{Judges};
ghost use Rattle.check_making.specs.scopes.Naming.{named_procedure};

use crate::{Declaring, Surroundings, declare_in, offer};
use check_types::names::{Declared, Level, Named};
use check_types::steps::CheckFault;
use ob_syntax::names::Identdef;

// The place of the scope round the innermost.
fn outer(levels: &[Level]) -> usize
    requires { 1 < length levels.now }
    ensures { result ≡ length levels.now - 2 }
{
    levels.len() - 2
}

/// A procedure's name is known in the scope round its own, and is one of the module's where it isn't local.
pub fn declare_procedure(
    state: &mut Declaring,
    round: &Surroundings,
    ident: &Identdef,
    number: u32,
    signature: u32,
    is_local: bool,
) -> Result<(), CheckFault>
    requires settled { IsSettled round.now state.old }
    requires within { 0 < round.now.depth }
    requires typed { IsNumbered state.old.types.table.entries.items (TheType.Procedure signature) }
    ensures settled { OnOk result (IsSettled round.now state.new) }
    ensures types { state.new.types ≡ state.old.types }
    ensures judged { Judges round.now state.old state.new
        (named_procedure round.now.source.now number ident.now (type_shape (table_of state.old) (TheType.Procedure signature)) is_local) result }
{
    let name = round.source.spelled(ident.name);
    let declared = Declared {
        named: Named::Procedure {
            number,
            signature,
            is_local,
        },
        exported: ident.star.is_some(),
    };
    offer(&mut state.objects, !is_local, round.alloc, name, declared)?;
    let at = outer(&state.levels);
    declare_in(&mut state.levels, at, round.alloc, name, declared)?;
    Ok(())
}
