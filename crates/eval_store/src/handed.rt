//! Addresses, and what is handed over.

use crate::cell::{Cell, CellForm};
use std::marker::Model;

/// Where an object stands.
#[derive(Clone, Copy)]
pub enum Area {
    /// In.Done is object 0, module m's variables are object m + 1.
    Globals,
    /// The active calls, the first is 0.
    Frames,
    /// What NEW made, the first is 0.
    Heap,
    /// The strings.
    Strings,
}

/// A cell of an object.
#[derive(Clone, Copy)]
pub struct Address {
    pub area: Area,
    pub object: u64,
    pub cell: u64,
}

/// An array's or a string's address and length.
#[derive(Clone, Copy)]
pub struct Span {
    pub at: Address,
    pub length: u64,
}

/// What a designator names, or an argument: an address, an array's address and length, a record's address and dynamic
/// type, or a value.
#[derive(Clone, Copy)]
pub enum HandedForm {
    At(Address),
    Sized(Address, u64),
    Tagged(Address, u32),
    Value(CellForm),
}

/// What is handed over.
#[derive(Clone, Copy)]
pub struct Handed {
    pub(crate) form: HandedForm,
}

impl Address {
    ghost use Rattle.std.specs.Prelude.{◌≡◌, ◌*◌, IfSome};
    ghost use Rattle.ob_types.specs.Store.{past};
    ghost use Rattle.eval_store.specs.Areas.{address_of};

    /// So many steps of so many cells further, where that is a number of 64 bits.
    #[inline]
    pub fn past(self, steps: u64, cells: u64) -> Option<Address>
        ensures { IfSome result (λ b. address_of b ≡ past (address_of self) (steps * cells)) }
    {
        match steps.checked_mul(cells) {
            None => None,
            Some(distance) => match self.cell.checked_add(distance) {
                None => None,
                Some(cell) => Some(Address {
                    area: self.area,
                    object: self.object,
                    cell,
                }),
            },
        }
    }
}

impl Model for Handed {
    ghost use Rattle.ob_types.specs.Store.{Handed as TheHanded};
    ghost use Rattle.eval_store.specs.Handing.{handed_of, handed_form_of};

    ghost Value = { TheHanded };

    ghost view = { λ h. handed_of h.form };

    ghost inverse = { λ h. record { form = handed_form_of h } };
}

impl Handed {
    ghost use Rattle.std.specs.Prelude.{◌≡◌, IfSome, IfNone, Some, None};
    ghost use Rattle.ob_types.specs.Store.{Address as TheAddress, At, Sized, Tagged, Value, address_in, span_in, tag_in};
    ghost use Rattle.eval_store.specs.Areas.{address_of};
    ghost use Rattle.eval_store.specs.Handing.{handed_of, cell_in, span_of};

    /// A value.
    pub fn value(cell: Cell) -> Handed
        ensures { result ≡ Value cell }
    {
        Handed {
            form: HandedForm::Value(cell.form),
        }
    }

    /// An address.
    pub fn at(address: Address) -> Handed
        ensures { result ≡ At (address_of address) }
    {
        Handed {
            form: HandedForm::At(address),
        }
    }

    /// An array's address and length.
    pub fn sized(span: Span) -> Handed
        ensures { result ≡ Sized (address_of span.at) span.length }
    {
        Handed {
            form: HandedForm::Sized(span.at, span.length),
        }
    }

    /// A record's address and dynamic type.
    pub fn tagged(address: Address, tag: u32) -> Handed
        ensures { result ≡ Tagged (address_of address) tag }
    {
        Handed {
            form: HandedForm::Tagged(address, tag),
        }
    }

    /// What it is.
    pub fn form(self) -> HandedForm
        ensures { handed_of result ≡ self }
    {
        self.form
    }

    /// The cell of a value.
    #[inline]
    pub fn cell(self) -> Option<Cell>
        ensures { result ≡ cell_in self }
    {
        match self.form {
            HandedForm::Value(form) => Some(Cell { form }),
            HandedForm::At(_) => None,
            HandedForm::Sized(_, _) => None,
            HandedForm::Tagged(_, _) => None,
        }
    }

    /// The address.
    #[inline]
    pub fn place(self) -> Option<Address>
        ensures some { IfSome result (λ a. address_in self ≡ Some (address_of a)) }
        ensures none { IfNone result (address_in self ≡ None) }
    {
        match self.form {
            HandedForm::Value(_) => None,
            HandedForm::At(a) => Some(a),
            HandedForm::Sized(a, _) => Some(a),
            HandedForm::Tagged(a, _) => Some(a),
        }
    }

    /// An address that has nothing beside it.
    pub fn alone(self) -> Option<Address>
        ensures some { IfSome result (λ a. self ≡ At (address_of a)) }
        ensures none { IfNone result ((a : TheAddress) → self ≡ At a → ⊥) }
    {
        match self.form {
            HandedForm::At(a) => Some(a),
            _ => None,
        }
    }

    /// The address and length of an array that has its length beside it.
    #[inline]
    pub fn span(self) -> Option<Span>
        ensures some { IfSome result (λ a. span_in self ≡ Some (span_of a)) }
        ensures none { IfNone result (span_in self ≡ None) }
    {
        match self.form {
            HandedForm::Sized(at, length) => Some(Span { at, length }),
            _ => None,
        }
    }

    /// The dynamic type.
    #[inline]
    pub fn tag(self) -> Option<u32>
        ensures { result ≡ tag_in self }
    {
        match self.form {
            HandedForm::Tagged(_, t) => Some(t),
            _ => None,
        }
    }
}
