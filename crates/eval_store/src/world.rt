//! All objects, the input that is left, what was written, and the turns that are left.

use crate::cell::Cell;
use crate::handed::{Address, Area};
use crate::object::Object;
use crate::objects::Objects;
use crate::stop::Stop;
use std::alloc::Global;
use std::marker::Model;

/// What the meaning's acts work on: contracts see the meaning's state.
#[derive(Drop)]
pub struct World {
    pub(crate) alloc: Global,
    pub(crate) globals: Objects,
    pub(crate) frames: Objects,
    pub(crate) heap: Objects,
    pub(crate) tags: Vec<u32>,
    pub(crate) strings: Objects,
    pub(crate) input: Vec<u8>,
    pub(crate) read: usize,
    pub(crate) out: Vec<u8>,
    pub(crate) turns: u64,
}

impl Model for World {
    ghost use Rattle.std.specs.Prelude.{drop};
    ghost use Rattle.run_laws.specs.Turns.{State};
    ghost use Rattle.ob_types.specs.Store.{Store};

    ghost Value = { State Store };

    ghost view = { λ w. record {
      store = record { globals = w.globals; frames = w.frames; heap = w.heap; tags = w.tags.items; strings = w.strings; input = drop w.read w.input.items };
      out = w.out.items;
      turns = w.turns;
    } };
}

impl World {
    ghost use Rattle.std.specs.Prelude.{◌≡◌, ◌<◌, ◌≤◌, ◌+◌, ◌++◌, [], ◌∷◌, length, take, OnOk, IfErr};
    ghost use Rattle.run_laws.specs.Turns.{Gives, spend as the_spend};
    ghost use Rattle.ob_types.specs.Store.{fetch as the_fetch, put as the_put, write as the_write, spend_all, cell_of, objects};
    ghost use Rattle.ob_types.specs.Meaning.{cells_in};
    ghost use Rattle.eval_store.specs.Areas.{area_of, address_of};
    ghost use Rattle.eval_store.specs.Did.{Did};

    /// A world with these variables and strings, this input, and nothing else.
    pub fn new(
        alloc: Global,
        globals: Objects,
        strings: Objects,
        input: Vec<u8>,
        turns: u64,
    ) -> World
        ensures { result ≡ record { store = record { globals = globals; frames = []; heap = []; tags = []; strings = strings; input = input.items }; out = []; turns = turns } }
    {
        World {
            alloc,
            globals,
            frames: Objects::new(alloc),
            heap: Objects::new(alloc),
            tags: Vec::new(alloc),
            strings,
            input,
            read: 0,
            out: Vec::new(alloc),
            turns,
        }
    }

    /// Where memory comes from.
    pub fn allocator(&self) -> Global {
        self.alloc
    }

    #[inline]
    fn read(&self, a: Address) -> Option<Cell>
        ensures { result ≡ cell_of (objects (area_of a.area) self.now.store) a.object a.cell }
    {
        match a.area {
            Area::Globals => self.globals.get(a.object, a.cell),
            Area::Frames => self.frames.get(a.object, a.cell),
            Area::Heap => self.heap.get(a.object, a.cell),
            Area::Strings => self.strings.get(a.object, a.cell),
        }
    }

    /// The value of a cell.
    #[inline]
    pub fn fetch(&self, a: Address) -> Result<Cell, Stop>
        ensures { Did (the_fetch (address_of a) self.now) result self.now }
    {
        match self.read(a) {
            Some(cell) => Ok(cell),
            None => Err(Stop::NoSense),
        }
    }

    /// A cell gets a value.
    #[inline]
    pub fn put(&mut self, a: Address, cell: Cell) -> Result<(), Stop>
        ensures did { Did (the_put (address_of a) cell self.old) result self.new }
        ensures turns { self.new.turns ≡ self.old.turns }
    {
        match a.area {
            Area::Globals => return self.globals.set(a.object, a.cell, cell),
            Area::Frames => return self.frames.set(a.object, a.cell, cell),
            Area::Heap => return self.heap.set(a.object, a.cell, cell),
            Area::Strings => return Err(Stop::NoSense),
        }
    }

    /// The turns that are left.
    #[inline]
    pub fn turns(&self) -> u64
        ensures { result ≡ self.now.turns }
    {
        self.turns
    }

    /// One turn.
    #[inline]
    pub fn spend(&mut self) -> Result<(), Stop>
        ensures did { Did (the_spend self.old) result self.new }
        ensures turns { OnOk result (self.new.turns < self.old.turns) }
    {
        if self.turns == 0 {
            return Err(Stop::TurnsSpent);
        }
        self.turns -= 1;
        Ok(())
    }

    /// So many turns.
    pub fn spend_some(&mut self, count: u64) -> Result<(), Stop>
        ensures did { Did (spend_all count self.old) result self.new }
        ensures turns { OnOk result (self.new.turns + count ≡ self.old.turns) }
    {
        if self.turns < count {
            return Err(Stop::TurnsSpent);
        }
        self.turns -= count;
        Ok(())
    }

    /// How many calls are active.
    pub fn depth(&self) -> usize
        ensures { result ≡ length self.now.store.frames }
    {
        self.frames.len()
    }

    /// The cells of all active calls.
    pub fn frame_cells(&self) -> u64
        ensures { result ≡ cells_in self.now.store.frames }
    {
        self.frames.cells()
    }

    /// A call's object, behind those of the other calls.
    pub fn enter(&mut self, object: Object) -> Result<(), Stop>
        ensures ok { OnOk result (self.new ≡ record self.old { store = record self.old.store { frames = self.old.store.frames ++ object ∷ [] } }) }
        ensures err { IfErr result (λ e. e ≡ Stop.NoMemory) }
    {
        if self.frames.push(object).is_err() {
            return Err(Stop::NoMemory);
        }
        Ok(())
    }

    /// Only so many calls' objects, the first ones.
    pub fn leave(&mut self, count: u64)
        ensures { self.new ≡ record self.old { store = record self.old.store { frames = take count self.old.store.frames } } }
    {
        self.frames.truncate(count as usize);
    }

    /// One more byte is written.
    pub fn print(&mut self, byte: u8) -> Result<(), Stop>
        ensures did { Did (the_write (byte ∷ []) self.old) result self.new }
        ensures turns { self.new.turns ≡ self.old.turns }
    {
        if self.out.push(byte).is_err() {
            return Err(Stop::NoMemory);
        }
        Ok(())
    }

    /// Some bytes are written.
    pub fn print_all(&mut self, bytes: &[u8]) -> Result<(), Stop>
        ensures did { Did (the_write bytes.now self.old) result self.new }
        ensures turns { self.new.turns ≡ self.old.turns }
    {
        if self.out.extend_from_slice(bytes).is_err() {
            return Err(Stop::NoMemory);
        }
        Ok(())
    }

    /// What was written.
    pub fn written(&self) -> &[u8]
        ensures { result.now ≡ self.now.out }
    {
        self.out.as_slice()
    }

    /// What was written is gone.
    pub fn clear_written(&mut self)
        ensures { self.new ≡ record self.old { out = [] } }
    {
        self.out.clear();
    }
}
