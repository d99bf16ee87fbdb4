//! Names judged.

ghost use Rattle.std.specs.Prelude.{◌≡◌, ℕ, List, Some, map, option_map, slice_get};
ghost use Rattle.ob_types.specs.Table.{Table};
ghost use Rattle.ob_judge.specs.Scopes.{is_visible as visible, spelled, place};
ghost use Rattle.ob_judge.specs.Scopes.{look_up as looked_up};
ghost use Rattle.ob_judge.specs.Modules.{offered};
ghost use Rattle.ob_judge.specs.Names.{named as judged_name, member as judged_member, member_of_object as judged_member_of, qualified as judged_qualident, type_of_object, type_named as judged_type, names_of as names_in_module, is_place as same_place, narrowing_of as narrowing_at};
ghost use Rattle.check_types.specs.TypeMeaning.{type_shape};
ghost use Rattle.check_types.specs.steps.Answers.{Answers};
ghost use Rattle.ob_judge.specs.Standards.{predeclared as names_round};
ghost use Rattle.check_types.specs.names.Entries.{found_as};
ghost use Rattle.check_types.specs.names.Before.{names_before};
ghost use Rattle.check_types.specs.names.Meaning.{entry_of, names_of, names_inside, object_of, imported_of, place_of, narrowing_of, narrowings_before};
ghost use Rattle.check_types.specs.names.Worlds.{table_of, strings_of, world_of, IsNamed, IsOfType};

use crate::TypeRef;
use crate::names::levels::Level;
use crate::names::predeclared::{name_of_in, name_of_out, predeclared};
use crate::names::scope::{
    Closed, Declared, Imported, KnownModule, Named, Narrowing, Scope, VariablePlace,
};
use crate::steps::CheckFault;

// What a name stands for in open scopes, the innermost of which is the last: it is looked for from there outward.
fn seen<'a>(levels: &'a [Level], name: &[u8]) -> Option<&'a Declared>
    ensures { (t : Table) (strings : List (List ℕ)) → option_map (λ d. entry_of t strings d.now) result ≡ looked_up name.now (map (names_of t strings) levels.now) }
{
    for i in (0..levels.len()).rev() {
        if let Some(declared) = levels[i].seen(name) {
            return Some(declared);
        }
    }
    None
}

/// What a name stands for in open scopes, the innermost of which is the last: it is looked for from there outward.
pub fn look_up(levels: &[Level], name: &[u8]) -> Option<Declared>
    ensures { (t : Table) (strings : List (List ℕ)) → option_map (entry_of t strings) result ≡ looked_up name.now (map (names_of t strings) levels.now) }
{
    seen(levels, name).copied()
}

// A declaration as other modules see it: not an import.
fn offer(found: Option<Declared>) -> Option<Declared>
    ensures { (t : Table) (strings : List (List ℕ)) → option_map (entry_of t strings) result ≡ offered (option_map (entry_of t strings) found) }
{
    match found {
        None => None,
        Some(declared) => match declared.named {
            Named::Module(_) => None,
            _ => Some(declared),
        },
    }
}

// Whether two places are the same variable's.
fn is_place(a: VariablePlace, b: VariablePlace) -> bool
    ensures { same_place (place_of a) (place_of b) ≡ result }
{
    match (a, b) {
        (
            VariablePlace::Global {
                module: m,
                variable: v,
            },
            VariablePlace::Global {
                module: n,
                variable: u,
            },
        ) => m == n && v == u,
        (VariablePlace::Local(v), VariablePlace::Local(u)) => v == u,
        (VariablePlace::Parameter(v), VariablePlace::Parameter(u)) => v == u,
        _ => false,
    }
}

// What a name stands for in open scopes, but for later procedures.
fn seen_before<'a>(levels: &'a [Level], procedures: u32, name: &[u8]) -> Option<&'a Declared>
    ensures { (t : Table) (strings : List (List ℕ)) → option_map (λ d. entry_of t strings d.now) result
        ≡ looked_up name.now (map (λ l. names_before procedures (names_of t strings l)) levels.now) }
{
    for i in (0..levels.len()).rev() {
        if let Some(declared) = levels[i].seen_before(procedures, name) {
            return Some(declared);
        }
    }
    None
}

// What a name stands for in a scope that was closed, and then in those round it.
fn seen_inside<'a>(levels: &'a [Level], closed: Closed<'a>, name: &[u8]) -> Option<&'a Declared>
    ensures { (t : Table) (strings : List (List ℕ)) → option_map (λ d. entry_of t strings d.now) result
        ≡ looked_up name.now (names_inside t strings levels.now (Some closed.entry)) }
{
    match closed.names.seen(name) {
        Some(declared) => Some(declared),
        None => seen_before(levels, closed.procedures, name),
    }
}

impl<'a> Scope<'a> {
    // What a name stands for here, unless it is predeclared.
    fn seen(&self, name: &[u8]) -> Option<&Declared>
        ensures { (t : Table) (strings : List (List ℕ)) → option_map (λ d. entry_of t strings d.now) result
            ≡ looked_up name.now (names_inside t strings self.now.levels.now self.now.closed) }
    {
        match self.closed {
            None => seen(self.levels, name),
            Some(closed) => seen_inside(self.levels, closed, name),
        }
    }

    /// What a name stands for here, before it is judged.
    pub fn look_up(&self, name: &[u8]) -> Option<Declared>
        ensures { option_map (entry_of (table_of self.now) (strings_of self.now)) result ≡ looked_up name.now (world_of self.now).levels }
    {
        self.seen(name).copied().or_else(|| predeclared(name))
    }

    // Whether a variable is seen here.
    fn is_visible(&self, named: &Named) -> bool
        ensures { visible self.now.procedure (object_of (table_of self.now) (strings_of self.now) named.now) ≡ result }
    {
        match named {
            Named::Variable(variable) => match (variable.procedure, self.procedure) {
                (None, _) => true,
                (Some(_), None) => false,
                (Some(owner), Some(here)) => owner == here,
            },
            _ => true,
        }
    }

    // What a name that is known stands for, if it is seen here.
    #[inline(always)]
    fn known(&self, i: u32, declared: &Declared) -> Result<Named, CheckFault>
        ensures { Answers (IsNamed self.now) (found_as self.now.source.now (world_of self.now) i (Some (entry_of (table_of self.now) (strings_of self.now) declared.now))) result }
    {
        if self.is_visible(&declared.named) {
            Ok(declared.named)
        } else {
            Err(self.source.fault(34, i))
        }
    }

    // What a name stands for round all modules, as it is seen here.
    #[inline(never)]
    fn outermost(&self, i: u32) -> Result<Named, CheckFault>
        ensures { Answers (IsNamed self.now) (found_as self.now.source.now (world_of self.now) i (names_round (spelled self.now.source.now i))) result }
    {
        match predeclared(self.source.spelled(i)) {
            None => Err(self.source.fault(30, i)),
            Some(declared) => self.known(i, &declared),
        }
    }

    /// What a name stands for here.
    pub fn named(&self, i: u32) -> Result<Named, CheckFault>
        ensures { Answers (IsNamed self.now) (judged_name self.now.source.now (world_of self.now) i) result }
    {
        match self.seen(self.source.spelled(i)) {
            None => self.outermost(i),
            Some(declared) => self.known(i, declared),
        }
    }

    // What a name stands for in a module before.
    fn find_in(&self, number: u32, name: &[u8]) -> Option<Declared>
        ensures { option_map (entry_of (table_of self.now) (strings_of self.now)) result ≡ names_in_module self.now.source.now
            (world_of self.now) (imported_of (Imported.Earlier number)) name.now }
    {
        match self.modules.get(number as usize) {
            None => None,
            Some(known) => offer(known.names.find(name)),
        }
    }

    // What a name stands for in a module that is imported.
    fn find_member(&self, imported: Imported, name: &[u8]) -> Option<Declared>
        ensures { option_map (entry_of (table_of self.now) (strings_of self.now)) result ≡ names_in_module self.now.source.now (world_of self.now) (imported_of imported) name.now }
    {
        match imported {
            Imported::Out => name_of_out(name),
            Imported::In => name_of_in(name),
            Imported::Earlier(number) => self.find_in(number, name),
        }
    }

    /// What a name of a module stands for.
    pub fn member(&self, imported: Imported, i: u32) -> Result<Named, CheckFault>
        ensures { Answers (IsNamed self.now) (judged_member self.now.source.now (world_of self.now) (imported_of imported) i) result }
    {
        match self.find_member(imported, self.source.spelled(i)) {
            None => Err(self.source.fault(30, i)),
            Some(declared) => {
                if declared.exported {
                    Ok(declared.named)
                } else {
                    Err(self.source.fault(34, i))
                }
            }
        }
    }

    // A member of what a name stands for.
    fn member_of(&self, name: u32, i: u32, named: Named) -> Result<Named, CheckFault>
        ensures { Answers (IsNamed self.now) (judged_member_of self.now.source.now (world_of self.now) name i (object_of (table_of self.now) (strings_of self.now) named)) result }
    {
        match named {
            Named::Module(imported) => self.member(imported, i),
            _ => Err(self.source.fault(31, name)),
        }
    }

    // What a name of a module that is named here stands for.
    fn named_member(&self, name: u32, i: u32) -> Result<Named, CheckFault>
        ensures { Answers (IsNamed self.now) (judged_qualident self.now.source.now (world_of self.now) name (Some i)) result }
    {
        let named = self.named(name)?;
        self.member_of(name, i, named)
    }

    /// What a qualident names.
    pub fn qualified(&self, name: u32, member: Option<u32>) -> Result<Named, CheckFault>
        ensures { Answers (IsNamed self.now) (judged_qualident self.now.source.now (world_of self.now) name member) result }
    {
        match member {
            None => self.named(name),
            Some(i) => self.named_member(name, i),
        }
    }

    /// The type that a qualident names, or this rule is broken at it.
    pub fn type_named(
        &self,
        number: u8,
        name: u32,
        member: Option<u32>,
    ) -> Result<TypeRef, CheckFault>
        ensures { Answers (IsOfType self.now) (judged_type self.now.source.now (world_of self.now) number name member) result }
    {
        let named = self.qualified(name, member)?;
        match named {
            Named::Type(of) => Ok(of),
            _ => Err(self.source.fault(number, name)),
        }
    }

    /// How a variable is narrowed here, if it is.
    pub fn narrowing(&self, variable: VariablePlace) -> Option<Narrowing>
        ensures { option_map (narrowing_of (table_of self.now) (strings_of self.now)) result ≡ narrowing_at (place_of variable) (world_of self.now).narrowed }
    {
        let mut found = None;
        for narrowing in self.narrowed {
            if is_place(variable, narrowing.variable) {
                found = Some(*narrowing);
            }
        }
        found
    }
}
