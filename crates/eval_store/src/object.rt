//! The cells of an object.

use crate::cell::Cell;
use outside::Memory;
use std::alloc::Global;
use std::marker::Model;

/// An object: contracts see the list of its cells.
#[derive(Drop)]
pub struct Object {
    cells: Vec<Cell>,
}

impl Model for Object {
    ghost use Rattle.std.specs.Prelude.{List};
    ghost use Rattle.ob_types.specs.Store.{Cell as TheCell};

    ghost Value = { List TheCell };

    ghost view = { λ o. o.cells.items };
}

impl Object {
    ghost use Rattle.std.specs.Prelude.{◌≡◌, ◌<◌, ◌++◌, [], ◌∷◌, length, slice_get, slice_set, IfOk, OnOk, replicate};
    ghost use Rattle.ob_types.specs.Store.{Bits};

    /// So many cells of 0.
    pub fn zeros(alloc: Global, count: usize) -> Result<Object, Memory>
        ensures { IfOk result (λ o. o ≡ replicate count (Bits 0)) }
    {
        Ok(Object {
            cells: vec![in alloc; Cell::bits(0); count]?,
        })
    }

    /// These cells.
    pub fn from_vec(cells: Vec<Cell>) -> Object
        ensures { result ≡ cells.items }
    {
        Object { cells }
    }

    /// How many cells there are.
    pub fn len(&self) -> usize
        ensures { result ≡ length self.now }
    {
        self.cells.len()
    }

    /// A cell.
    #[inline]
    pub fn get(&self, at: usize) -> Option<Cell>
        ensures { result ≡ slice_get self.now at }
    {
        match self.cells.as_slice().get(at) {
            Some(cell) => Some(*cell),
            None => None,
        }
    }

    /// Another value in a cell.
    #[inline]
    pub fn set(&mut self, at: usize, cell: Cell)
        requires { at < length self.old }
        ensures { self.new ≡ slice_set self.old at cell }
    {
        self.cells[at] = cell;
    }
}
