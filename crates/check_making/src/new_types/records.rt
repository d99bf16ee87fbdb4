//! Record types, once their fields are judged (Oberon-07 report, section 6.3).

ghost use Rattle.std.specs.Prelude.{◌≡◌, ◌∷◌, Some, OnOk, IfOk, IfErr, slice_get};
ghost use Rattle.ob_judge.specs.Making.{no_layout};
ghost use Rattle.ob_judge.specs.Shapes.{Layout as JudgedLayout};
ghost use Rattle.check_types.specs.Known.{known_of};
ghost use Rattle.table_builder.specs.Entries.{IsElement};
ghost use Rattle.table_builder.specs.Growing.{Grows};
ghost use Rattle.legal_tables.specs.Promised.{HasLegalTypes};
ghost use Rattle.check_making.specs.Making.{IsSettled, IsTypeOf};
ghost use Rattle.check_making.specs.Parts.{JudgesAs};
ghost use Rattle.check_making.specs.new_types.Layouts.{IsSoFarIn};
ghost use Rattle.check_making.specs.new_types.Records.{IsKnown, IsWhole, with_layout};

use crate::new_types::array_types::LIMIT;
use crate::{Declaring, Surroundings};
use check_types::steps::CheckFault;
use check_types::{Layout, TypeRef};
use std::alloc::Global;
use table_builder::rounded;

// A number before others.
fn with_front(alloc: Global, first: u32, rest: &[u32]) -> Result<Vec<u32>, CheckFault>
    ensures items { IfOk result (λ v. v.items ≡ first ∷ rest.now) }
    ensures memory { IfErr result (λ e. e ≡ CheckFault.Memory) }
{
    let mut all = Vec::new(alloc);
    all.push(first)?;
    for n in rest {
        all.push(*n)?;
    }
    Ok(all)
}

// What is known of record type r of this module.
fn whole(round: &Surroundings, r: u32, layout: Layout) -> Result<Layout, CheckFault>
    ensures whole { IfOk result (λ l. IsWhole round.now.module_number r layout l) }
    ensures memory { IfErr result (λ e. e ≡ CheckFault.Memory) }
{
    let line = with_front(round.alloc, r, &layout.line)?;
    let fields = layout.fields.complete(round.alloc)?;
    Ok(Layout {
        module_number: round.module_number,
        line,
        added: layout.added,
        fields,
        cells: layout.cells,
        extent: rounded(layout.extent),
    })
}

/// A record type with these fields: 35 at RECORD where it has too many cells.
pub fn record_of(
    state: &mut Declaring,
    round: &Surroundings,
    record_word: u32,
    r: u32,
    layout: Layout,
) -> Result<TypeRef, CheckFault>
    requires settled { IsSettled round.now state.old }
    requires element { IsElement state.old.types.table.entries.items (TypeRef.Record r) }
    requires ready { IsKnown state.old.types.table layout }
    ensures settled { OnOk result (IsSettled round.now state.new) }
    ensures grows { OnOk result (Grows state.old.types.table state.new.types.table) }
    ensures judged { (g : JudgedLayout) → IsSoFarIn state.old layout g →
        JudgesAs (IsTypeOf state.new) round.now state.old state.new (with_layout round.now.source.now record_word r g) result }
    ensures legal { OnOk result (slice_get (known_of state.old.types.table).records r ≡ Some no_layout
        → HasLegalTypes state.old.types.table → HasLegalTypes state.new.types.table) }
{
    if layout.cells > LIMIT {
        return Err(round.source.fault(35, record_word));
    }
    let layout = whole(round, r, layout)?;
    state.set_record(round, r, layout)?;
    Ok(TypeRef::Record(r))
}
