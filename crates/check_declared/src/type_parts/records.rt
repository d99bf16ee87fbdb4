//! Record and pointer types before their parts (Oberon-07 report, sections 6.3 and 6.4).

ghost use Rattle.std.specs.Prelude.{◌≡◌, OnOk, IfOk};
ghost use Rattle.ob_judge.specs.Making.{Making, new_pointer};
ghost use Rattle.ob_judge.specs.Shapes.{Layout as JudgedLayout};
ghost use Rattle.ob_judge.specs.Types.{stand_fields as stand_names};
ghost use Rattle.table_builder.specs.Entries.{IsElement};
ghost use Rattle.legal_tables.specs.Promised.{HasLegalTypes};
ghost use Rattle.table_builder.specs.Growing.{Grows};
ghost use Rattle.check_making.specs.Making.{Makes};
ghost use Rattle.check_making.specs.Parts.{Judges, JudgesAs, IsPointer};
ghost use Rattle.check_making.specs.new_types.Fields.{names_in};
ghost use Rattle.check_making.specs.new_types.Layouts.{IsSoFarIn};
ghost use Rattle.check_making.specs.parameters.Names.{AreTheNames};
ghost use Rattle.check_making.specs.parameters.Stands.{Stands};
ghost use Rattle.check_declared.specs.type_parts.Records.{begun_part, HasLayout, IsBegunAs};

use check_making::new_types::{begun, stand_fields};
use check_making::parameters::names_aside;
use check_making::{Declaring, Surroundings};
use check_types::steps::CheckFault;
use check_types::{Layout, TypeRef};
use ob_syntax::names::Idents;
use ob_syntax::types::Base;
use std::collections::BTreeMap;

/// A record type whose fields are to be judged: its number, what is known of it by its base, and the names that stand
/// round it.
#[derive(Drop)]
pub struct BegunRecord {
    pub number: u32,
    pub layout: Layout,
    pub names: BTreeMap<Vec<u8>, u32>,
}

/// A record type at the next number, which extends this base; no name of a field stands yet.
pub fn begin_record(
    state: &mut Declaring,
    round: &Surroundings,
    base: &Option<Base>,
) -> Result<BegunRecord, CheckFault>
    requires { Stands round.now state.old }
    ensures stands { OnOk result (Stands round.now state.new) }
    ensures grows { OnOk result (Grows state.old.types.table state.new.types.table) }
    ensures layout { IfOk result (λ b. HasLayout state.new b.layout) }
    ensures names { IfOk result (λ b. (m : Making) → Makes round.now state.old m → AreTheNames b.names m.standing) }
    ensures legal { OnOk result (HasLegalTypes state.old.types.table → HasLegalTypes state.new.types.table) }
    ensures judged { JudgesAs (IsBegunAs state.new) round.now state.old state.new (begun_part round.now.source.now base.now) result }
{
    let number = state.new_record(round)?;
    let layout = begun(state, round, base)?;
    let names = names_aside(state, round);
    Ok(BegunRecord {
        number,
        layout,
        names,
    })
}

/// The names of fields of a record type stand, behind those so far: 36 where one is a field's already.
pub fn begin_fields(
    state: &mut Declaring,
    round: &Surroundings,
    layout: &Layout,
    idents: &Idents,
) -> Result<(), CheckFault>
    requires stands { Stands round.now state.old }
    requires layout { HasLayout state.old layout.now }
    ensures stands { OnOk result (Stands round.now state.new) }
    ensures types { OnOk result (state.new.types ≡ state.old.types) }
    ensures judged { (g : JudgedLayout) → IsSoFarIn state.old layout.now g →
        Judges round.now state.old state.new (stand_names round.now.source.now (names_in idents.now) g) result }
{
    stand_fields(state, round, layout, idents)
}

/// A pointer type at the next number, of which it isn't known yet what it points to.
pub fn begin_pointer(state: &mut Declaring, round: &Surroundings) -> Result<u32, CheckFault>
    requires { Stands round.now state.old }
    ensures stands { OnOk result (Stands round.now state.new) }
    ensures grows { OnOk result (Grows state.old.types.table state.new.types.table) }
    ensures element { IfOk result (λ n. IsElement state.new.types.table.entries.items (TypeRef.Pointer n)) }
    ensures legal { OnOk result (HasLegalTypes state.old.types.table → HasLegalTypes state.new.types.table) }
    ensures judged { JudgesAs (IsPointer state.new) round.now state.old state.new new_pointer result }
{
    state.new_pointer(round)
}
