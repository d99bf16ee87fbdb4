//! The objects of one area.

ghost use Rattle.std.specs.Prelude.{◌≡◌};
ghost use Rattle.eval_store.specs.Did.{Wrote};

use crate::cell::Cell;
use crate::object::Object;
use crate::stop::Stop;
use outside::Memory;
use std::alloc::Global;
use std::marker::Model;

/// Objects, each at its number: contracts see the list of each one's cells. An object's cell is found by two indices.
#[derive(Drop)]
pub struct Objects {
    objects: Vec<Object>,
    cells: u64,
}

impl Model for Objects {
    ghost use Rattle.std.specs.Prelude.{◌≡◌, List};
    ghost use Rattle.ob_types.specs.Store.{Cell as TheCell};
    ghost use Rattle.ob_types.specs.Meaning.{cells_in};

    ghost Value = { List (List TheCell) };

    ghost view = { λ a. a.objects.items };

    ghost invariant = { λ a. a.cells ≡ cells_in a.objects.items };
}

/// Another value in an object's cell, where it is there.
fn write_cell(objects: &mut [Object], object: u64, at: u64, cell: Cell) -> Result<(), Stop>
    ensures { Wrote objects.old object at cell result objects.new }
{
    if object as usize >= objects.len() {
        return Err(Stop::NoSense);
    }
    if at as usize >= objects[object as usize].len() {
        return Err(Stop::NoSense);
    }
    let found = &mut objects[object as usize];
    found.set(at as usize, cell);
    Ok(())
}

impl Objects {
    ghost use Rattle.std.specs.Prelude.{◌≡◌, [], ◌∷◌, ◌++◌, length, take, OnOk, OnErr};
    ghost use Rattle.ob_types.specs.Store.{cell_of};
    ghost use Rattle.ob_types.specs.Meaning.{cells_in};
    ghost use Rattle.eval_store.specs.Did.{Wrote};

    /// No objects; takes no memory.
    pub fn new(alloc: Global) -> Objects
        ensures { result ≡ [] }
    {
        Objects {
            objects: Vec::new(alloc),
            cells: 0,
        }
    }

    /// How many objects there are.
    pub fn len(&self) -> usize
        ensures { result ≡ length self.now }
    {
        self.objects.len()
    }

    /// How many cells they have together.
    pub fn cells(&self) -> u64
        ensures { result ≡ cells_in self.now }
    {
        self.cells
    }

    /// A cell of an object.
    #[inline]
    pub fn get(&self, object: u64, cell: u64) -> Option<Cell>
        ensures { result ≡ cell_of self.now object cell }
    {
        match self.objects.as_slice().get(object as usize) {
            Some(found) => found.get(cell as usize),
            None => None,
        }
    }

    /// Another value in a cell of an object, where it is there.
    #[inline]
    pub fn set(&mut self, object: u64, at: u64, cell: Cell) -> Result<(), Stop>
        ensures { Wrote self.old object at cell result self.new }
    {
        write_cell(&mut self.objects, object, at, cell)
    }

    /// One more object.
    pub fn push(&mut self, object: Object) -> Result<(), Memory>
        ensures ok { OnOk result (self.new ≡ self.old ++ object ∷ []) }
        ensures err { OnErr result (self.new ≡ self.old) }
    {
        let more = object.len() as u64;
        match self.cells.checked_add(more) {
            None => Err(Memory),
            Some(cells) => {
                self.objects.push(object)?;
                self.cells = cells;
                Ok(())
            }
        }
    }

    /// Only so many objects, the first ones.
    pub fn truncate(&mut self, count: usize)
        ensures { self.new ≡ take count self.old }
    {
        while self.objects.len() > count {
            match self.objects.pop() {
                Some(object) => self.cells -= object.len() as u64,
                None => {}
            }
        }
    }
}
