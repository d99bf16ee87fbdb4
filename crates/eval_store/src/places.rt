//! Designators: elements, fields, objects of pointers, guards.

ghost use Rattle.std.specs.Prelude.{◌≡◌};
ghost use Rattle.ob_types.specs.Layout.{extends};
ghost use Rattle.ob_types.specs.Operators.{inside};
ghost use Rattle.ob_types.specs.Expressions.{is_of as is_of_type};

use crate::cell::{Cell, CellForm};
use crate::handed::{Address, Area, Handed, Span};
use crate::stop::Stop;
use crate::world::World;
use ob_operators::truth;
use ob_types::Types;

/// At least 0 and below a limit.
#[inline]
pub fn is_inside(n: u64, limit: u64) -> bool
    ensures { result ≡ inside n limit }
{
    n.cast_signed() >= 0 && n < limit
}

/// Whether a dynamic type is a record type or an extension of it: NIL is of no type.
pub fn is_of(types: &Types, found: Option<u32>, base: u32) -> bool
    ensures { result ≡ is_of_type (extends types.now) found base }
{
    match found {
        None => false,
        Some(t) => types.record_extends(t, base),
    }
}

impl World {
    ghost use Rattle.std.specs.Prelude.{None};
    ghost use Rattle.run_laws.specs.Turns.{give};
    ghost use Rattle.ob_types.specs.Layout.{extends};
    ghost use Rattle.ob_types.specs.Store.{Sized, dynamic_in, object_in, code_in, tag_of, span};
    ghost use Rattle.ob_types.specs.Expressions.{element_place, field_of, object_of, narrowed, load, guarded, all_guarded, parameter_type, type_test, pointer_type, length_of, by_place, by_open, by_record};
    ghost use Rattle.eval_store.specs.Areas.{address_of};
    ghost use Rattle.eval_store.specs.Did.{Did, DidSpan};

    /// The value of a variable.
    #[inline]
    pub fn load(&self, handed: Handed) -> Result<Cell, Stop>
        ensures { Did (load (give handed) self.now) result self.now }
    {
        match handed.place() {
            None => Err(Stop::NoSense),
            Some(a) => return self.fetch(a),
        }
    }

    /// An array's address and length, which the type has where it isn't open.
    #[inline]
    pub fn span(&self, handed: Handed, length: Option<u64>) -> Result<Span, Stop>
        ensures { DidSpan (span (give handed) length self.now) result self.now }
    {
        match length {
            None => match handed.span() {
                None => Err(Stop::NoSense),
                Some(a) => Ok(a),
            },
            Some(n) => match handed.place() {
                None => Err(Stop::NoSense),
                Some(at) => Ok(Span { at, length: n }),
            },
        }
    }

    /// An array with its length beside it.
    pub fn as_span(&self, handed: Handed, length: Option<u64>) -> Result<Handed, Stop>
        ensures { Did (by_open (give handed) length self.now) result self.now }
    {
        match self.span(handed, length) {
            Err(stop) => Err(stop),
            Ok(a) => Ok(Handed::sized(a)),
        }
    }

    /// An address alone.
    pub fn as_place(&self, handed: Handed) -> Result<Handed, Stop>
        ensures { Did (by_place (give handed) self.now) result self.now }
    {
        match handed.place() {
            None => Err(Stop::NoSense),
            Some(a) => Ok(Handed::at(a)),
        }
    }

    /// A record with its dynamic type, where it has one beside it, or else with this.
    pub fn as_record(&self, handed: Handed, own: u32) -> Result<Handed, Stop>
        ensures { Did (by_record (give handed) own self.now) result self.now }
    {
        match handed.tag() {
            Some(_) => Ok(handed),
            None => match handed.alone() {
                None => Err(Stop::NoSense),
                Some(a) => Ok(Handed::tagged(a, own)),
            },
        }
    }

    /// LEN.
    pub fn length_of(&self, handed: Handed, length: Option<u64>) -> Result<Cell, Stop>
        ensures { Did (length_of (give handed) length self.now) result self.now }
    {
        match self.span(handed, length) {
            Err(stop) => Err(stop),
            Ok(a) => Ok(Cell::bits(a.length)),
        }
    }

    /// An element of an array that has its length beside it, of so many cells.
    #[inline]
    pub fn element_place(
        &self,
        procedure: u32,
        array: Span,
        cells: u64,
        index: Cell,
    ) -> Result<Handed, Stop>
        ensures { Did (element_place procedure (give (Sized (address_of array.at) array.length)) None cells (give index) self.now) result self.now }
    {
        match index.number() {
            None => Err(Stop::NoSense),
            Some(i) => {
                if !is_inside(i, array.length) {
                    return Err(Stop::Trapped(1, procedure));
                }
                match array.at.past(i, cells) {
                    None => Err(Stop::NoMemory),
                    Some(b) => Ok(Handed::at(b)),
                }
            }
        }
    }

    /// A field, so many cells into the record.
    #[inline]
    pub fn field_of(&self, handed: Handed, cells: u64) -> Result<Handed, Stop>
        ensures { Did (field_of (give handed) cells self.now) result self.now }
    {
        match handed.place() {
            None => Err(Stop::NoSense),
            Some(a) => match a.past(1, cells) {
                None => Err(Stop::NoMemory),
                Some(b) => Ok(Handed::at(b)),
            },
        }
    }

    /// The object of a pointer: NIL traps.
    #[inline]
    fn object_in(&self, procedure: u32, c: Cell) -> Result<u64, Stop>
        ensures { Did (object_in procedure c self.now) result self.now }
    {
        match c.form() {
            CellForm::Pointer(o) => Ok(o),
            CellForm::Bits(n) => {
                if n == 0 {
                    Err(Stop::Trapped(2, procedure))
                } else {
                    Err(Stop::NoSense)
                }
            }
            CellForm::Code(_) => Err(Stop::NoSense),
        }
    }

    /// The procedure of a procedure value: NIL traps.
    pub fn code_in(&self, procedure: u32, c: Cell) -> Result<u32, Stop>
        ensures { Did (code_in procedure c self.now) result self.now }
    {
        match c.form() {
            CellForm::Code(g) => Ok(g),
            CellForm::Bits(n) => {
                if n == 0 {
                    Err(Stop::Trapped(2, procedure))
                } else {
                    Err(Stop::NoSense)
                }
            }
            CellForm::Pointer(_) => Err(Stop::NoSense),
        }
    }

    /// The dynamic type of an object that NEW made.
    #[inline]
    fn tag_of(&self, object: u64) -> Result<u32, Stop>
        ensures { Did (tag_of object self.now) result self.now }
    {
        match self.tags.as_slice().get(object as usize) {
            Some(t) => Ok(*t),
            None => Err(Stop::NoSense),
        }
    }

    /// The object of a pointer, with its dynamic type: NIL traps.
    #[inline]
    pub fn object_of(&self, procedure: u32, c: Cell) -> Result<Handed, Stop>
        ensures { Did (object_of procedure (give c) self.now) result self.now }
    {
        match self.object_in(procedure, c) {
            Err(stop) => Err(stop),
            Ok(object) => match self.tag_of(object) {
                Err(stop) => Err(stop),
                Ok(t) => {
                    let a = Address {
                        area: Area::Heap,
                        object,
                        cell: 0,
                    };
                    Ok(Handed::tagged(a, t))
                }
            },
        }
    }

    /// A pointer whose object is of a record type, or of an extension of it.
    fn guarded(&self, types: &Types, procedure: u32, c: Cell, base: u32) -> Result<Cell, Stop>
        ensures { Did (guarded procedure (extends types.now) (give c) base self.now) result self.now }
    {
        match self.object_in(procedure, c) {
            Err(stop) => Err(stop),
            Ok(object) => match self.tag_of(object) {
                Err(stop) => Err(stop),
                Ok(t) => {
                    if types.record_extends(t, base) {
                        Ok(c)
                    } else {
                        Err(Stop::Trapped(3, procedure))
                    }
                }
            },
        }
    }

    /// A pointer, guarded by these record types one after the other.
    pub fn all_guarded(
        &self,
        types: &Types,
        procedure: u32,
        c: Cell,
        guards: &[u32],
    ) -> Result<Cell, Stop>
        ensures { Did (all_guarded procedure (extends types.now) (give c) guards.now self.now) result self.now }
    {
        let mut cell = c;
        for base in guards {
            match self.guarded(types, procedure, cell, *base) {
                Err(stop) => return Err(stop),
                Ok(next) => cell = next,
            }
        }
        Ok(cell)
    }

    /// A guard of a record that has its dynamic type beside it.
    pub fn narrowed(
        &self,
        types: &Types,
        procedure: u32,
        handed: Handed,
        base: u32,
    ) -> Result<Handed, Stop>
        ensures { Did (narrowed procedure (extends types.now) (give handed) base self.now) result self.now }
    {
        match handed.tag() {
            None => Err(Stop::NoSense),
            Some(t) => {
                if types.record_extends(t, base) {
                    Ok(handed)
                } else {
                    Err(Stop::Trapped(3, procedure))
                }
            }
        }
    }

    /// The dynamic type of a pointer's object: NIL has none.
    pub fn pointer_type(&self, c: Cell) -> Result<Option<u32>, Stop>
        ensures { Did (dynamic_in c self.now) result self.now }
    {
        match c.form() {
            CellForm::Pointer(object) => match self.tag_of(object) {
                Err(stop) => Err(stop),
                Ok(t) => Ok(Some(t)),
            },
            CellForm::Bits(n) => { if n == 0 { Ok(None) } else { Err(Stop::NoSense) } }
            CellForm::Code(_) => Err(Stop::NoSense),
        }
    }

    /// The dynamic type of a record that has it beside it.
    pub fn parameter_type(&self, handed: Handed) -> Result<Option<u32>, Stop>
        ensures { Did (parameter_type (give handed) self.now) result self.now }
    {
        match handed.tag() {
            None => Err(Stop::NoSense),
            Some(t) => Ok(Some(t)),
        }
    }

    /// IS of a pointer.
    pub fn pointer_is(&self, types: &Types, c: Cell, base: u32) -> Result<Cell, Stop>
        ensures { Did (type_test (extends types.now) (pointer_type (give c)) base self.now) result self.now }
    {
        match self.pointer_type(c) {
            Err(stop) => Err(stop),
            Ok(t) => Ok(Cell::bits(truth(is_of(types, t, base)))),
        }
    }

    /// IS of a VAR record parameter.
    pub fn parameter_is(&self, types: &Types, handed: Handed, base: u32) -> Result<Cell, Stop>
        ensures { Did (type_test (extends types.now) (parameter_type (give handed)) base self.now) result self.now }
    {
        match handed.tag() {
            None => Err(Stop::NoSense),
            Some(t) => Ok(Cell::bits(truth(types.record_extends(t, base)))),
        }
    }
}
