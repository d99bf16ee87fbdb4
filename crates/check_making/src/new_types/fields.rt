//! Fields of record types (Oberon-07 report, section 6.3).

ghost use Rattle.std.specs.Prelude.{◌≡◌, ◌∷◌, [], ℕ, length, OnOk, IfOk, IfErr};
ghost use Rattle.ob_judge.specs.Judged.{Keeps};
ghost use Rattle.ob_judge.specs.Scopes.{World};
ghost use Rattle.ob_judge.specs.Shapes.{Layout as JudgedLayout};
ghost use Rattle.ob_judge.specs.Parameters.{next_list};
ghost use Rattle.ob_judge.specs.Types.{stand_fields as judged_names, add_fields as judged_fields};
ghost use Rattle.table_builder.specs.Builder.{IsBuilt};
ghost use Rattle.table_builder.specs.Entries.{IsElement};
ghost use Rattle.check_making.specs.new_types.Fields.{names_in};
ghost use Rattle.check_making.specs.Making.{shape_in, IsSettled};
ghost use Rattle.check_making.specs.Parts.{Judges, JudgesHere};
ghost use Rattle.check_making.specs.new_types.Layouts.{IsSoFarIn};
ghost use Rattle.check_making.specs.new_types.Fields.{IsWith};

use crate::{Declaring, Surroundings, next_number};
use check_types::steps::CheckFault;
use check_types::{Added, FieldEntry, Layout, TypeRef};
use items::Items;
use ob_syntax::names::{Identdef, Idents, NextIdentdef};
use ob_types::Extent;
use table_builder::{capped, with_part};

// A field's name stands: 36 where it is a field's already, also one of a base.
fn stand_field(
    state: &mut Declaring,
    round: &Surroundings,
    layout: &Layout,
    ident: &Identdef,
) -> Result<(), CheckFault>
    requires { IsSettled round.now state.old }
    ensures settled { OnOk result (IsSettled round.now state.new) }
    ensures types { OnOk result (state.new.types ≡ state.old.types) }
    ensures judged { (g : JudgedLayout) → IsSoFarIn state.old layout.now g →
        Judges round.now state.old state.new (judged_names round.now.source.now (ident.now ∷ []) g) result }
{
    let name = round.source.spelled(ident.name);
    if layout.fields.get(name).is_some() {
        return Err(round.source.fault(36, ident.name));
    }
    state.stand(round, ident.name)
}

// The names behind the first.
fn stand_more(
    state: &mut Declaring,
    round: &Surroundings,
    layout: &Layout,
    more: &[NextIdentdef],
) -> Result<(), CheckFault>
    requires { IsSettled round.now state.old }
    ensures settled { OnOk result (IsSettled round.now state.new) }
    ensures types { OnOk result (state.new.types ≡ state.old.types) }
    ensures judged { (g : JudgedLayout) → IsSoFarIn state.old layout.now g →
        Judges round.now state.old state.new (judged_names round.now.source.now (next_list more.now) g) result }
{
    for next in more {
        stand_field(state, round, layout, &next.name)?;
    }
    Ok(())
}

/// The names of fields stand.
pub fn stand_fields(
    state: &mut Declaring,
    round: &Surroundings,
    layout: &Layout,
    idents: &Idents,
) -> Result<(), CheckFault>
    requires { IsSettled round.now state.old }
    ensures settled { OnOk result (IsSettled round.now state.new) }
    ensures types { OnOk result (state.new.types ≡ state.old.types) }
    ensures judged { (g : JudgedLayout) → IsSoFarIn state.old layout.now g →
        Judges round.now state.old state.new (judged_names round.now.source.now (names_in idents.now) g) result }
{
    stand_field(state, round, layout, &idents.first)?;
    stand_more(state, round, layout, &idents.more)
}

// One more field, whose type has so many cells and takes so much.
fn with_field(
    round: &Surroundings,
    layout: Layout,
    ident: &Identdef,
    entry: FieldEntry,
    cells: u64,
    extent: Extent,
) -> Result<Layout, CheckFault>
    ensures with { IfOk result (λ l. IsWith round.now.source.now layout ident.now entry cells extent l) }
    ensures memory { IfErr result (λ e. e ≡ CheckFault.Memory) }
{
    let bytes = round.source.spelled(ident.name);
    let name = Items::from_slice(round.alloc, bytes)?;
    let key = Vec::from_slice(round.alloc, bytes)?;
    let all = capped(layout.cells.saturating_add(cells));
    let mut added = layout.added;
    added.push(Added {
        name,
        exported: entry.exported,
        of: entry.of,
    })?;
    let fields = layout.fields.with(key, entry)?;
    Ok(Layout {
        module_number: layout.module_number,
        line: layout.line,
        added,
        fields,
        cells: all,
        extent: with_part(layout.extent, extent),
    })
}

// One more field of a type, of record type r.
fn add_field(
    state: &Declaring,
    round: &Surroundings,
    r: u32,
    of: TypeRef,
    ident: &Identdef,
    layout: Layout,
) -> Result<Layout, CheckFault>
    requires built { IsBuilt state.now.types }
    requires element { IsElement state.now.types.table.entries.items of }
    ensures { (g : JudgedLayout) → IsSoFarIn state.now layout g →
        JudgesHere (IsSoFarIn state.now) round.now state.now
        (λ w. Keeps (judged_fields round.now.source.now r w (shape_in state.now of) (ident.now ∷ []) g)) result }
{
    let number = next_number(&layout.added)?;
    let exported = ident.star.is_some();
    let cells = state.types.cells(of);
    let extent = state.types.extent(of);
    let entry = FieldEntry {
        adder: r,
        number,
        of,
        exported,
        owner: round.module_number,
    };
    with_field(round, layout, ident, entry, cells, extent)
}

// The fields behind the first.
fn add_more(
    state: &Declaring,
    round: &Surroundings,
    r: u32,
    of: TypeRef,
    more: &[NextIdentdef],
    first: Layout,
) -> Result<Layout, CheckFault>
    requires built { IsBuilt state.now.types }
    requires element { IsElement state.now.types.table.entries.items of }
    ensures { (g : JudgedLayout) → IsSoFarIn state.now first g →
        JudgesHere (IsSoFarIn state.now) round.now state.now
        (λ w. Keeps (judged_fields round.now.source.now r w (shape_in state.now of) (next_list more.now) g)) result }
{
    let mut layout = first;
    for next in more {
        layout = add_field(state, round, r, of, &next.name, layout)?;
    }
    Ok(layout)
}

/// Fields of a type, which record type r adds.
pub fn add_fields(
    state: &Declaring,
    round: &Surroundings,
    r: u32,
    of: TypeRef,
    idents: &Idents,
    layout: Layout,
) -> Result<Layout, CheckFault>
    requires built { IsBuilt state.now.types }
    requires element { IsElement state.now.types.table.entries.items of }
    ensures { (g : JudgedLayout) → IsSoFarIn state.now layout g →
        JudgesHere (IsSoFarIn state.now) round.now state.now
        (λ w. Keeps (judged_fields round.now.source.now r w (shape_in state.now of) (names_in idents.now) g)) result }
{
    let with_first = add_field(state, round, r, of, &idents.first, layout)?;
    add_more(state, round, r, of, &idents.more, with_first)
}
