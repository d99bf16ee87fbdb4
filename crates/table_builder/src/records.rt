//! Record types as the program has them.

ghost use Rattle.std.specs.Prelude.{◌≡◌, ◌≤◌, ◌-◌, length, IfOk};
ghost use Rattle.ob_judge.specs.Modules.{base_in};
ghost use Rattle.table_builder.specs.Entries.{IsElement};
ghost use Rattle.table_builder.specs.Contents.{IsField, AreFields, IsRecordType, IsReady, AreElements};
ghost use Rattle.table_builder.specs.Builder.{IsBuilt};

use crate::builder::TableBuilder;
use check_types::{Added, Layout};
use items::Items;
use ob_types::{Field, RecordType};
use outside::Memory;

// The second of a line: the record type that the first extends.
fn base_of(line: &[u32]) -> Option<u32>
    ensures { result ≡ base_in line.now }
{
    match line {
        [_, base, ..] => Some(*base),
        _ => None,
    }
}

// How many record types the first of a line extends.
fn level_of(line: &[u32]) -> u32
    requires { length line.now ≤ 16 }
    ensures { result ≡ length line.now - 1 }
{
    line.len().saturating_sub(1) as u32
}

impl TableBuilder {
    // A field.
    fn field(&self, added: &Added) -> Result<Field, Memory>
        requires built { IsBuilt self.now }
        requires element { IsElement self.now.table.entries.items added.now.of }
        ensures { IfOk result (λ f. IsField self.now.table.entries.items f added.now) }
    {
        Ok(Field {
            name: Items::from_slice(self.alloc, added.name.as_slice())?,
            exported: added.exported,
            type_number: self.number(added.of),
        })
    }

    // Fields, in order.
    fn fields(&self, added: &[Added]) -> Result<Items<Field>, Memory>
        requires built { IsBuilt self.now }
        requires elements { AreElements self.now.table.entries.items added.now }
        ensures { IfOk result (λ fs. AreFields self.now.table.entries.items fs added.now) }
    {
        let mut fields = Items::new(self.alloc);
        for one in added {
            fields.push(self.field(one)?)?;
        }
        Ok(fields)
    }

    /// A record type of which all is known.
    pub fn declared(&self, layout: &Layout) -> Result<RecordType, Memory>
        requires built { IsBuilt self.now }
        requires ready { IsReady self.now.table.entries.items layout.now }
        ensures { IfOk result (λ x. IsRecordType self.now.table.entries.items x layout.now) }
    {
        Ok(RecordType {
            module: layout.module_number,
            base: base_of(&layout.line),
            level: level_of(&layout.line),
            fields: self.fields(&layout.added)?,
            cells: layout.cells as u32,
            extent: layout.extent,
        })
    }
}
