//! Which move goes to a place.

ghost use Rattle.std.specs.Prelude.{◌≡◌, length, IfOk, OnOk, Some};
ghost use Rattle.parallel_move.specs.Writers.{writer_of, with_writer};
ghost use Rattle.parallel_move.specs.Entries.{AreWriters};

use lir_core::{Move, Place};
use std::alloc::{AllocError, Global};
use std::collections::BTreeMap;

/// For each place the move that goes there, if one does.
#[derive(Drop)]
pub(crate) struct Writers {
    regs: BTreeMap<u8, usize>,
    homes: BTreeMap<u32, usize>,
    outs: BTreeMap<u32, usize>,
}

impl Writers {
    /// The writers among some moves.
    pub(crate) fn of(alloc: Global, moves: &[Move]) -> Result<Writers, AllocError>
        ensures { IfOk result (λ writers. AreWriters moves.now (length moves.now) (writer_of writers)) }
    {
        let mut writers = Writers {
            regs: BTreeMap::new(alloc),
            homes: BTreeMap::new(alloc),
            outs: BTreeMap::new(alloc),
        };
        for (i, m) in moves.iter().enumerate() {
            writers.insert(m.to, i)?;
        }
        Ok(writers)
    }

    /// The move that goes to a place.
    pub(crate) fn at(&self, place: Place) -> Option<usize>
        ensures { result ≡ writer_of self.now place }
    {
        match place {
            Place::Reg(r) => self.regs.get(&r).copied(),
            Place::Home(v) => self.homes.get(&v).copied(),
            Place::Out(s) => self.outs.get(&s).copied(),
        }
    }

    fn insert(&mut self, place: Place, i: usize) -> Result<(), AllocError>
        ensures { OnOk result ((p : Place) → writer_of self.new p ≡ with_writer place i (writer_of self.old) p) }
    {
        match place {
            Place::Reg(r) => {
                self.regs.insert(r, i)?;
            }
            Place::Home(v) => {
                self.homes.insert(v, i)?;
            }
            Place::Out(s) => {
                self.outs.insert(s, i)?;
            }
        }
        Ok(())
    }
}
