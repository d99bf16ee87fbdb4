//! Names looked up between declarations.

ghost use Rattle.std.specs.Prelude.{◌≡◌};
ghost use Rattle.ob_judge.specs.Names.{member_symbol as symbol_of};
ghost use Rattle.ob_judge.specs.Parameters.{type_at as judged_type};
ghost use Rattle.check_types.specs.names.Worlds.{world_of};
ghost use Rattle.check_making.specs.Making.{strings_of, world_in, IsSettled, IsTypeOf};
ghost use Rattle.check_making.specs.Parts.{JudgesHere};

use crate::making::{Declaring, Surroundings};
use check_types::TypeRef;
use check_types::names::Scope;
use check_types::steps::CheckFault;
use ob_syntax::names::{Member, Qualident};

// The symbol of a member.
fn member_symbol(member: &Option<Member>) -> Option<u32>
    ensures { result ≡ symbol_of member.now }
{
    match member {
        Some(member) => Some(member.name),
        None => None,
    }
}

impl Declaring {
    /// The scope as it is.
    pub fn scope<'a>(&'a self, round: &'a Surroundings<'a>) -> Scope<'a>
        ensures source { result.source.now ≡ round.now.source.now }
        ensures world { world_of result ≡ world_in round.now self.now }
        ensures types { result.types.now ≡ self.now.types.table }
        ensures strings { result.strings.now ≡ strings_of self.now }
    {
        Scope {
            source: round.source,
            types: &self.types.table,
            strings: self.strings.as_slice(),
            modules: round.modules,
            levels: self.levels.as_slice(),
            closed: None,
            narrowed: &[],
            module_number: round.module_number,
            procedure: self.procedure,
            constant: false,
        }
    }

    /// The type that a qualident names, or this rule is broken at it.
    pub fn type_at(
        &self,
        round: &Surroundings,
        number: u8,
        qualident: &Qualident,
    ) -> Result<TypeRef, CheckFault>
        requires { IsSettled round.now self.now }
        ensures { JudgesHere (IsTypeOf self.now) round.now self.now (judged_type round.now.source.now number qualident.now) result }
    {
        let scope = self.scope(round);
        scope.type_named(number, qualident.name, member_symbol(&qualident.member))
    }
}
