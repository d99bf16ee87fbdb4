//! Cells and bytes of types (Oberon-07 report, section 6), counted as far as any type may have them.

ghost use Rattle.std.specs.Prelude.{◌≡◌, ◌<◌, ◌≤◌, ◌*◌, ◌^◌, ℕ, Some, length, slice_get, min};
ghost use Rattle.ob_judge.specs.Shapes.{cells as cells_of, extent as extent_of};
ghost use Rattle.judged_tree.specs.TypeShapes.{shape_of};
ghost use Rattle.check_types.specs.TypeMeaning.{type_shape};
ghost use Rattle.check_types.specs.Known.{known_of};
ghost use Rattle.table_builder.specs.Entries.{IsNumbered};
ghost use Rattle.table_builder.specs.Builder.{IsBuilt};
ghost use Rattle.table_builder.specs.Cells.{most_cells, counted_extent, innermost, elements_in};

use crate::builder::TableBuilder;
use crate::elements::Elements;
use crate::extents::counted;
use check_types::TypeRef;
use ob_types::Extent;

/// More cells than any type may have: so many are counted, and no more.
pub const MOST_CELLS: u64 = 1 << 30;

/// A count, as far as cells are counted.
pub fn capped(count: u64) -> u64
    ensures is { result ≡ min most_cells count }
    ensures small { result ≤ 2 ^ 30 }
{
    count.min(MOST_CELLS)
}

impl TableBuilder {
    // A type as so many elements that are no arrays.
    fn elements(&self, of: TypeRef) -> Elements
        requires built { IsBuilt self.now }
        requires numbered { IsNumbered self.now.table.entries.items of }
        ensures count { result.count ≡ min most_cells (elements_in (type_shape self.now.table.types of)) }
        ensures small { result.count ≤ 2 ^ 30 }
        ensures innermost { shape_of self.now.table.types result.of ≡ innermost (type_shape self.now.table.types of) }
        ensures there { result.of < length self.now.table.entries.items }
        ensures single { (l e : ℕ) → slice_get self.now.table.entries.items result.of ≡ Some (TypeRef.Array l e) → ⊥ }
    {
        let n = self.number(of);
        self.elements[n as usize]
    }

    // The cells of a record type.
    fn record_cells(&self, r: u32) -> u64
        ensures is { result ≡ min most_cells (cells_of (known_of self.now.table) (type_shape self.now.table.types (TypeRef.Record r))) }
        ensures small { result ≤ 2 ^ 30 }
    {
        match self.table.layouts.get(r as usize) {
            Some(layout) => capped(layout.cells),
            None => 0,
        }
    }

    // The cells of a type that is no array of known length, by its number.
    fn own_cells(&self, n: u32) -> u64
        requires built { IsBuilt self.now }
        requires there { n < length self.now.table.entries.items }
        requires single { (l e : ℕ) → slice_get self.now.table.entries.items n ≡ Some (TypeRef.Array l e) → ⊥ }
        ensures is { result ≡ min most_cells (cells_of (known_of self.now.table) (shape_of self.now.table.types n)) }
        ensures small { result ≤ 2 ^ 30 }
    {
        match self.table.entries[n as usize] {
            TypeRef::Record(r) => self.record_cells(r),
            _ => 1,
        }
    }

    /// The cells of a type, as far as they are counted.
    pub fn cells(&self, of: TypeRef) -> u64
        requires built { IsBuilt self.now }
        requires numbered { IsNumbered self.now.table.entries.items of }
        ensures { result ≡ min most_cells (cells_of (known_of self.now.table) (type_shape self.now.table.types of)) }
    {
        let elements = self.elements(of);
        let count = u64::from(elements.count);
        capped(count * self.own_cells(elements.of))
    }

    // What a record type takes in memory, its bytes as far as they are counted.
    fn record_extent(&self, r: u32) -> Extent
        ensures { result ≡ counted_extent (extent_of (known_of self.now.table) (type_shape self.now.table.types (TypeRef.Record r))) }
    {
        match self.table.layouts.get(r as usize) {
            Some(layout) => counted(u64::from(layout.extent.bytes), layout.extent.wide),
            None => counted(0, false),
        }
    }

    // What a type takes that is no array of known length, by its number.
    fn own_extent(&self, n: u32) -> Extent
        requires built { IsBuilt self.now }
        requires there { n < length self.now.table.entries.items }
        requires single { (l e : ℕ) → slice_get self.now.table.entries.items n ≡ Some (TypeRef.Array l e) → ⊥ }
        ensures { result ≡ counted_extent (extent_of (known_of self.now.table) (shape_of self.now.table.types n)) }
    {
        match self.table.entries[n as usize] {
            TypeRef::Record(r) => self.record_extent(r),
            TypeRef::Bool | TypeRef::Char | TypeRef::Byte => counted(1, false),
            _ => counted(8, true),
        }
    }

    /// What a type takes in memory where small scalars take a byte, its bytes as far as they are counted.
    pub fn extent(&self, of: TypeRef) -> Extent
        requires built { IsBuilt self.now }
        requires numbered { IsNumbered self.now.table.entries.items of }
        ensures { result ≡ counted_extent (extent_of (known_of self.now.table) (type_shape self.now.table.types of)) }
    {
        let elements = self.elements(of);
        let count = u64::from(elements.count);
        let own = self.own_extent(elements.of);
        counted(count * u64::from(own.bytes), own.wide)
    }
}
