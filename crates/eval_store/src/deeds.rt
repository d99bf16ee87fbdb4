//! What statements do with the last values.

use crate::cell::Cell;
use crate::handed::{Address, Area, Handed};
use crate::object::Object;
use crate::stop::Stop;
use crate::world::World;
use ob_operators::{binary, elements, is_byte, is_element};
use ob_types::Binary;
use out_text::IntText;

/// As many cells may NEW take, with one more for each object.
const HEAP: u64 = 8388608;

impl World {
    ghost use Rattle.std.specs.Prelude.{◌≡◌, ◌<◌, ◌≤◌, None, IfSome, OnOk, replicate};
    ghost use Rattle.run_laws.specs.Turns.{Gives, give};
    ghost use Rattle.ob_types.specs.Store.{Bits};
    ghost use Rattle.ob_types.specs.Statements.{assign, copy_cells, copy, copy_array, copy_record, change_number, change_set, made, new as the_new, out_char, out_int, next_byte, receive, in_char, heap_cells};
    ghost use Rattle.eval_store.specs.Areas.{address_of};
    ghost use Rattle.eval_store.specs.Copies.{cell_paid};
    ghost use Rattle.eval_store.specs.Did.{Did};

    /// `:=` of a scalar.
    #[inline]
    pub fn assign(&mut self, handed: Handed, c: Cell) -> Result<(), Stop>
        ensures did { Did (assign (give handed) (give c) self.old) result self.new }
        ensures turns { self.new.turns ≡ self.old.turns }
    {
        match handed.place() {
            None => Err(Stop::NoSense),
            Some(a) => return self.put(a, c),
        }
    }

    /// A cell, and its turn.
    #[inline]
    fn copy_cell(&mut self, to: Address, from: Address) -> Result<(), Stop>
        ensures did { Did (cell_paid (address_of to) (address_of from) self.old) result self.new }
        ensures turns { OnOk result (self.new.turns < self.old.turns) }
    {
        match self.fetch(from) {
            Err(stop) => Err(stop),
            Ok(c) => match self.put(to, c) {
                Err(stop) => Err(stop),
                Ok(()) => return self.spend(),
            },
        }
    }

    /// So many cells from one address to another, a turn for each.
    fn copy_cells(&mut self, count: u64, to: Address, from: Address) -> Result<(), Stop>
        ensures did { Did (copy_cells count (address_of to) (address_of from) self.old) result self.new }
        ensures turns { OnOk result (self.new.turns ≤ self.old.turns) }
    {
        let mut left = count;
        let mut i: u64 = 0;
        'cells: while left > 0 {
            let Some(a) = from.past(i, 1) else {
                return Err(Stop::NoMemory);
            };
            let Some(b) = to.past(i, 1) else {
                return Err(Stop::NoMemory);
            };
            match self.copy_cell(b, a) {
                Err(stop) => return Err(stop),
                Ok(()) => {}
            }
            left -= 1;
            i += 1;
        }
        Ok(())
    }

    /// A copy: a turn at its beginning, even where there is no cell.
    fn copy(&mut self, count: u64, to: Address, from: Address) -> Result<(), Stop>
        ensures did { Did (copy count (address_of to) (address_of from) self.old) result self.new }
        ensures turns { OnOk result (self.new.turns < self.old.turns) }
    {
        match self.spend() {
            Err(stop) => Err(stop),
            Ok(()) => return self.copy_cells(count, to, from),
        }
    }

    /// `:=` of an array, from one that has its length beside it to another; each element has so many cells.
    pub fn copy_array(
        &mut self,
        procedure: u32,
        to: Handed,
        from: Handed,
        cells: u64,
    ) -> Result<(), Stop>
        ensures did { Did (copy_array procedure (give to) None (give from) None cells self.old) result self.new }
        ensures turns { OnOk result (self.new.turns < self.old.turns) }
    {
        match to.span() {
            None => Err(Stop::NoSense),
            Some(a) => match from.span() {
                None => Err(Stop::NoSense),
                Some(b) => {
                    if b.length > a.length {
                        return Err(Stop::Trapped(12, procedure));
                    }
                    match b.length.checked_mul(cells) {
                        None => Err(Stop::NoMemory),
                        Some(count) => return self.copy(count, a.at, b.at),
                    }
                }
            },
        }
    }

    /// `:=` of a record of so many cells.
    pub fn copy_record(&mut self, to: Handed, from: Handed, cells: u64) -> Result<(), Stop>
        ensures did { Did (copy_record (give to) (give from) cells self.old) result self.new }
        ensures turns { OnOk result (self.new.turns < self.old.turns) }
    {
        match to.place() {
            None => Err(Stop::NoSense),
            Some(a) => match from.place() {
                None => Err(Stop::NoSense),
                Some(b) => return self.copy(cells, a, b),
            },
        }
    }

    /// INC and DEC, of a BYTE or not.
    pub fn change_number(
        &mut self,
        procedure: u32,
        operator: Binary,
        handed: Handed,
        c: Cell,
        is_of_byte: bool,
    ) -> Result<(), Stop>
        ensures did { Did (change_number procedure operator (give handed) (give c) is_of_byte self.old) result self.new }
        ensures turns { self.new.turns ≡ self.old.turns }
    {
        let Some(a) = handed.place() else {
            return Err(Stop::NoSense);
        };
        let Some(n) = c.number() else {
            return Err(Stop::NoSense);
        };
        match self.fetch(a) {
            Err(stop) => Err(stop),
            Ok(d) => match d.number() {
                None => Err(Stop::NoSense),
                Some(v) => match binary(operator, v, n) {
                    None => Err(Stop::NoSense),
                    Some(w) => {
                        if is_of_byte && !is_byte(w) {
                            return Err(Stop::Trapped(11, procedure));
                        }
                        return self.put(a, Cell::bits(w));
                    }
                },
            },
        }
    }

    /// INCL and EXCL.
    pub fn change_set(
        &mut self,
        procedure: u32,
        operator: Binary,
        handed: Handed,
        c: Cell,
    ) -> Result<(), Stop>
        ensures did { Did (change_set procedure operator (give handed) (give c) self.old) result self.new }
        ensures turns { self.new.turns ≡ self.old.turns }
    {
        let Some(a) = handed.place() else {
            return Err(Stop::NoSense);
        };
        let Some(n) = c.number() else {
            return Err(Stop::NoSense);
        };
        if !is_element(n) {
            return Err(Stop::Trapped(7, procedure));
        }
        match self.fetch(a) {
            Err(stop) => Err(stop),
            Ok(d) => match d.number() {
                None => Err(Stop::NoSense),
                Some(v) => match binary(operator, v, elements(n, n)) {
                    None => Err(Stop::NoSense),
                    Some(w) => return self.put(a, Cell::bits(w)),
                },
            },
        }
    }

    /// The cells that NEW has taken: each object's, and one more.
    #[tactic(auto, using(crate::proofs::Counting::heap_sum))]
    fn heap_cells(&self) -> Option<u64>
        ensures { IfSome result (λ n. n ≡ heap_cells self.now.store.heap) }
    {
        self.heap.cells().checked_add(self.heap.len() as u64)
    }

    /// One more object of the heap, of so many cells of 0.
    fn make(&mut self, cells: u64, tag: u32) -> Result<(), Stop>
        ensures did { Did (made (replicate cells (Bits 0)) tag self.old) result self.new }
        ensures turns { self.new.turns ≡ self.old.turns }
    {
        let Ok(object) = Object::zeros(self.alloc, cells as usize) else {
            return Err(Stop::NoMemory);
        };
        if self.tags.push(tag).is_err() {
            return Err(Stop::NoMemory);
        }
        if self.heap.push(object).is_err() {
            return Err(Stop::NoMemory);
        }
        Ok(())
    }

    /// NEW of a record type of so many cells.
    pub fn new_object(
        &mut self,
        procedure: u32,
        handed: Handed,
        tag: u32,
        cells: u64,
    ) -> Result<(), Stop>
        ensures did { Did (the_new procedure (give handed) tag cells self.old) result self.new }
        ensures turns { self.new.turns ≡ self.old.turns }
    {
        let Some(a) = handed.place() else {
            return Err(Stop::NoSense);
        };
        let Some(taken) = self.heap_cells() else {
            return Err(Stop::NoMemory);
        };
        if taken > HEAP || cells >= HEAP - taken {
            return Err(Stop::Trapped(10, procedure));
        }
        let object = self.heap.len() as u64;
        match self.make(cells, tag) {
            Err(stop) => Err(stop),
            Ok(()) => return self.put(a, Cell::pointer(object)),
        }
    }

    /// Out.Char.
    pub fn out_char(&mut self, c: Cell) -> Result<(), Stop>
        ensures did { Did (out_char (give c) self.old) result self.new }
        ensures turns { self.new.turns ≡ self.old.turns }
    {
        match c.number() {
            None => Err(Stop::NoSense),
            Some(n) => {
                if n < 256 {
                    return self.print(n as u8);
                }
                Err(Stop::NoSense)
            }
        }
    }

    /// Out.Int.
    pub fn out_int(&mut self, c: Cell, width: Cell) -> Result<(), Stop>
        ensures did { Did (out_int (give c) (give width) self.old) result self.new }
        ensures turns { self.new.turns ≡ self.old.turns }
    {
        match c.number() {
            None => Err(Stop::NoSense),
            Some(v) => match width.number() {
                None => Err(Stop::NoSense),
                Some(n) => return self.print_all(IntText::new(v, n).as_slice()),
            },
        }
    }

    /// The next byte of the input, which loses it: none at its end.
    fn next_byte(&mut self) -> Option<u8>
        ensures did { next_byte self.old ≡ Gives result self.new }
        ensures turns { self.new.turns ≡ self.old.turns }
    {
        if self.read < self.input.len() {
            let byte = self.input[self.read];
            self.read += 1;
            return Some(byte);
        }
        None
    }

    /// Done first, then the character.
    fn receive(&mut self, a: Address, byte: Option<u8>) -> Result<(), Stop>
        ensures did { Did (receive (address_of a) byte self.old) result self.new }
        ensures turns { self.new.turns ≡ self.old.turns }
    {
        let done = Address {
            area: Area::Globals,
            object: 0,
            cell: 0,
        };
        match byte {
            None => match self.put(done, Cell::bits(0)) {
                Err(stop) => Err(stop),
                Ok(()) => return self.put(a, Cell::bits(0)),
            },
            Some(x) => match self.put(done, Cell::bits(1)) {
                Err(stop) => Err(stop),
                Ok(()) => return self.put(a, Cell::bits(u64::from(x))),
            },
        }
    }

    /// In.Char.
    pub fn in_char(&mut self, handed: Handed) -> Result<(), Stop>
        ensures did { Did (in_char (give handed) self.old) result self.new }
        ensures turns { self.new.turns ≡ self.old.turns }
    {
        match handed.place() {
            None => Err(Stop::NoSense),
            Some(a) => {
                let byte = self.next_byte();
                return self.receive(a, byte);
            }
        }
    }
}
