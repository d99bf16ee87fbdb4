//! Names that are known from here on.

ghost use Rattle.std.specs.Prelude.{◌≡◌, ◌<◌, ◌-◌, ◌∷◌, ◌++◌, [], length, OnOk};
ghost use Rattle.ob_judge.specs.Parameters.{declared as judged_declared};
ghost use Rattle.check_making.specs.Staying.{HasType, NamedStays, IsDeclaredIn};
ghost use Rattle.check_making.specs.Making.{table_of, strings_of, object_in, offered_if, IsSettled};
ghost use Rattle.check_making.specs.Parts.{Judges};

use crate::making::{Declaring, Offered, Surroundings};
use check_types::names::{Declared, Level, Named};
use check_types::steps::CheckFault;
use items::Items;
use ob_syntax::names::Identdef;
use std::alloc::{AllocError, Global};

/// The place of the innermost of some scopes.
pub fn innermost(levels: &[Level]) -> usize
    requires { 0 < length levels.now }
    ensures { result ≡ length levels.now - 1 }
{
    levels.len() - 1
}

/// One more name in one of some scopes.
pub fn declare_in(
    levels: &mut Vec<Level>,
    at: usize,
    alloc: Global,
    name: &[u8],
    declared: Declared,
) -> Result<(), AllocError>
    requires { at < length levels.old.items }
    ensures { OnOk result (IsDeclaredIn levels.old.items levels.new.items at name.now declared) }
{
    levels[at].declare(alloc, name, declared)?;
    Ok(())
}

/// One more name of the module, unless it is a procedure's.
pub fn offer(
    objects: &mut Vec<Offered>,
    of_module: bool,
    alloc: Global,
    name: &[u8],
    declared: Declared,
) -> Result<(), AllocError>
    ensures { OnOk result (objects.new.items ≡ offered_if of_module name.now declared objects.old.items) }
{
    if of_module {
        let name = Items::from_slice(alloc, name)?;
        objects.push(Offered { name, declared })?;
    }
    Ok(())
}

impl Declaring {
    /// A name is known from here on.
    pub fn declare(
        &mut self,
        round: &Surroundings,
        ident: &Identdef,
        named: Named,
    ) -> Result<(), CheckFault>
        requires settled { IsSettled round.now self.old }
        requires stays { NamedStays self.old.types.table (strings_of self.old) named }
        requires typed { HasType (table_of self.old) (object_in self.old named) }
        ensures settled { OnOk result (IsSettled round.now self.new) }
        ensures types { self.new.types ≡ self.old.types }
        ensures forward { self.new.forward ≡ self.old.forward }
        ensures judged { Judges round.now self.old self.new (judged_declared round.now.source.now ident.now (object_in self.old named)) result }
    {
        let name = round.source.spelled(ident.name);
        let declared = Declared {
            named,
            exported: ident.star.is_some(),
        };
        let of_module = self.procedure.is_none();
        offer(&mut self.objects, of_module, round.alloc, name, declared)?;
        let at = innermost(&self.levels);
        declare_in(&mut self.levels, at, round.alloc, name, declared)?;
        Ok(())
    }
}
