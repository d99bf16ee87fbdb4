//! Cells.

use std::marker::Model;

/// What a cell holds.
#[derive(Clone, Copy)]
pub enum CellForm {
    /// 64 bits.
    Bits(u64),
    /// The number of an object that NEW made.
    Pointer(u64),
    /// A procedure's number.
    Code(u32),
}

/// A cell.
#[derive(Clone, Copy)]
pub struct Cell {
    pub(crate) form: CellForm,
}

impl Model for Cell {
    ghost use Rattle.ob_types.specs.Store.{Cell as TheCell};
    ghost use Rattle.eval_store.specs.Cells.{cell_of, form_of};

    ghost Value = { TheCell };

    ghost view = { λ c. cell_of c.form };

    ghost inverse = { λ c. record { form = form_of c } };
}

impl Cell {
    ghost use Rattle.std.specs.Prelude.{◌≡◌};
    ghost use Rattle.ob_types.specs.Store.{Cell as TheCell, Bits, Pointer, Code};
    ghost use Rattle.eval_store.specs.Cells.{cell_of, number_of};

    /// 64 bits.
    pub fn bits(n: u64) -> Cell
        ensures { result ≡ Bits n }
    {
        Cell {
            form: CellForm::Bits(n),
        }
    }

    /// An object's number.
    pub fn pointer(o: u64) -> Cell
        ensures { result ≡ Pointer o }
    {
        Cell {
            form: CellForm::Pointer(o),
        }
    }

    /// A procedure.
    pub fn code(f: u32) -> Cell
        ensures { result ≡ Code f }
    {
        Cell {
            form: CellForm::Code(f),
        }
    }

    /// What it holds.
    pub fn form(self) -> CellForm
        ensures { cell_of result ≡ self }
    {
        self.form
    }

    /// The bits of a cell that has bits.
    #[inline]
    pub fn number(self) -> Option<u64>
        ensures { result ≡ number_of self }
    {
        match self.form {
            CellForm::Bits(n) => Some(n),
            CellForm::Pointer(_) => None,
            CellForm::Code(_) => None,
        }
    }
}
