//! Texts in arrays and strings: the characters before the first 0X.
//!
//! The meaning reads all cells of an array before it takes the text out of it. Here reading ends with the text: that
//! the other cells are numbers follows where the meaning makes sense, which is asked for.

use crate::cell::Cell;
use crate::handed::{Address, Handed};
use crate::stop::Stop;
use crate::world::World;
use ob_operators::{related, truth};
use ob_types::Relation;

/// How far two texts agree, and the characters behind that.
#[derive(Clone, Copy)]
pub struct Parting {
    pub common: u64,
    pub left: u64,
    pub right: u64,
}

impl World {
    ghost use Rattle.std.specs.Prelude.{◌≡◌, ◌<◌, None, List, ℕ, IfOk, IfErr, OnOk};
    ghost use Rattle.run_laws.specs.Turns.{give};
    ghost use Rattle.ob_types.specs.Store.{write as the_write};
    ghost use Rattle.ob_types.specs.Operators.{text_of};
    ghost use Rattle.ob_types.specs.Expressions.{texts_compared};
    ghost use Rattle.ob_types.specs.Statements.{out_string};
    ghost use Rattle.eval_store.specs.Areas.{address_of};
    ghost use Rattle.eval_store.specs.Characters.{Holds, PartAt, character};
    ghost use Rattle.eval_store.specs.Did.{Did, Sensible};

    /// The character at a place of an array, and 0X behind its end.
    #[inline]
    fn character(&self, a: Address, length: u64, i: u64) -> Result<u64, Stop>
        ensures ok { IfOk result (λ x. (xs : List ℕ) → Holds length (address_of a) self.now xs → x ≡ character xs i) }
        ensures err { IfErr result (λ e. (xs : List ℕ) → Holds length (address_of a) self.now xs → e ≡ Stop.NoMemory) }
    {
        if i >= length {
            return Ok(0);
        }
        let Some(b) = a.past(i, 1) else {
            return Err(Stop::NoMemory);
        };
        match self.fetch(b) {
            Err(stop) => Err(stop),
            Ok(c) => match c.number() {
                None => Err(Stop::NoSense),
                Some(x) => Ok(x),
            },
        }
    }

    /// Where two texts part.
    fn parted(&self, a: Address, n: u64, b: Address, m: u64) -> Result<Parting, Stop>
        ensures ok { IfOk result (λ q. (xs ys : List ℕ) → Holds n (address_of a) self.now xs → Holds m (address_of b) self.now ys → PartAt xs ys q) }
        ensures err { IfErr result (λ e. (xs ys : List ℕ) → Holds n (address_of a) self.now xs → Holds m (address_of b) self.now ys → e ≡ Stop.NoMemory) }
    {
        let mut common: u64 = 0;
        'characters: while common < u64::MAX {
            let left = match self.character(a, n, common) {
                Err(stop) => return Err(stop),
                Ok(x) => x,
            };
            let right = match self.character(b, m, common) {
                Err(stop) => return Err(stop),
                Ok(y) => y,
            };
            if left != right || left == 0 {
                return Ok(Parting {
                    common,
                    left,
                    right,
                });
            }
            common += 1;
        }
        Err(Stop::NoMemory)
    }

    /// A relation of two texts, in arrays that have their lengths beside them: a turn for each position compared.
    pub fn texts_compared(&mut self, relation: Relation, d: Handed, e: Handed) -> Result<Cell, Stop>
        requires sensible { Sensible (texts_compared relation (give d) None (give e) None self.old) }
        ensures did { Did (texts_compared relation (give d) None (give e) None self.old) result self.new }
        ensures turns { OnOk result (self.new.turns < self.old.turns) }
    {
        let Some(a) = d.span() else {
            return Err(Stop::NoSense);
        };
        let Some(b) = e.span() else {
            return Err(Stop::NoSense);
        };
        match self.parted(a.at, a.length, b.at, b.length) {
            Err(stop) => Err(stop),
            Ok(q) => match q.common.checked_add(1) {
                None => Err(Stop::NoMemory),
                Some(count) => match self.spend_some(count) {
                    Err(stop) => Err(stop),
                    Ok(()) => Ok(Cell::bits(truth(related(relation, q.left, q.right)))),
                },
            },
        }
    }

    /// The text in an array is written.
    fn print_text(&mut self, a: Address, length: u64) -> Result<(), Stop>
        ensures turns { self.new.turns ≡ self.old.turns }
        ensures did { (xs : List ℕ) → Holds length (address_of a) self.old xs → Did (the_write (text_of xs) self.old) result self.new }
    {
        let mut i: u64 = 0;
        'characters: while i < u64::MAX {
            match self.character(a, length, i) {
                Err(stop) => return Err(stop),
                Ok(x) => {
                    if x == 0 {
                        return Ok(());
                    }
                    if x >= 256 {
                        return Err(Stop::NoMemory);
                    }
                    match self.print(x as u8) {
                        Err(stop) => return Err(stop),
                        Ok(()) => {}
                    }
                }
            }
            i += 1;
        }
        Err(Stop::NoMemory)
    }

    /// Out.String, of an array that has its length beside it.
    pub fn out_string(&mut self, handed: Handed) -> Result<(), Stop>
        requires sensible { Sensible (out_string (give handed) None self.old) }
        ensures did { Did (out_string (give handed) None self.old) result self.new }
        ensures turns { self.new.turns ≡ self.old.turns }
    {
        match handed.span() {
            None => Err(Stop::NoSense),
            Some(a) => return self.print_text(a.at, a.length),
        }
    }
}
