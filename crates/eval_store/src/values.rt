//! Operators and tests on values.

use crate::cell::Cell;
use crate::relation::relation_of;
use crate::stop::Stop;
use crate::world::World;
use ob_operators::{
    as_byte, binary, has, holds, is_element, truth, unary, with_element, with_elements,
};
use ob_types::{Binary, Relation, Unary};

impl World {
    ghost use Rattle.std.specs.Prelude.{◌≡◌, true};
    ghost use Rattle.run_laws.specs.Turns.{give};
    ghost use Rattle.ob_types.specs.Store.{bits_in};
    ghost use Rattle.ob_types.specs.Operators.{inside};
    ghost use Rattle.ob_types.specs.Expressions.{one_operand, two_operands, compared, with_element as one_more, as_byte as byte_of};
    ghost use Rattle.ob_types.specs.Statements.{assert as asserted, test};
    ghost use Rattle.eval_store.specs.Tests.{element_in, has_in};
    ghost use Rattle.eval_store.specs.Did.{Did};

    /// A value that is a number.
    #[inline]
    pub fn number(&self, c: Cell) -> Result<u64, Stop>
        ensures { Did (bits_in c self.now) result self.now }
    {
        match c.number() {
            Some(n) => Ok(n),
            None => Err(Stop::NoSense),
        }
    }

    /// Whether a value holds.
    #[inline]
    pub fn test(&self, c: Cell) -> Result<bool, Stop>
        ensures { Did (test (give c) self.now) result self.now }
    {
        match c.number() {
            Some(n) => Ok(holds(n)),
            None => Err(Stop::NoSense),
        }
    }

    /// An operator of one operand.
    #[inline]
    pub fn one_operand(&self, operator: Unary, c: Cell) -> Result<Cell, Stop>
        ensures { Did (one_operand operator (give c) self.now) result self.now }
    {
        match c.number() {
            Some(n) => Ok(Cell::bits(unary(operator, n))),
            None => Err(Stop::NoSense),
        }
    }

    /// An operator of two operands, in a procedure.
    #[inline]
    pub fn two_operands(
        &self,
        procedure: u32,
        operator: Binary,
        c: Cell,
        d: Cell,
    ) -> Result<Cell, Stop>
        ensures { Did (two_operands procedure operator (give c) (give d) self.now) result self.now }
    {
        match c.number() {
            None => Err(Stop::NoSense),
            Some(a) => match d.number() {
                None => Err(Stop::NoSense),
                Some(b) => match binary(operator, a, b) {
                    None => Err(Stop::Trapped(4, procedure)),
                    Some(n) => Ok(Cell::bits(n)),
                },
            },
        }
    }

    /// A relation of two values.
    #[inline]
    pub fn compared(&self, relation: Relation, c: Cell, d: Cell) -> Result<Cell, Stop>
        ensures { Did (compared relation (give c) (give d) self.now) result self.now }
    {
        match relation_of(relation, c, d) {
            None => Err(Stop::NoSense),
            Some(answer) => Ok(Cell::bits(truth(answer))),
        }
    }

    /// A number that may be an element of a set.
    pub fn element(&self, procedure: u32, c: Cell) -> Result<u64, Stop>
        ensures { Did (element_in procedure c self.now) result self.now }
    {
        match c.number() {
            None => Err(Stop::NoSense),
            Some(n) => {
                if is_element(n) {
                    Ok(n)
                } else {
                    Err(Stop::Trapped(7, procedure))
                }
            }
        }
    }

    /// IN, where the element was tested.
    pub fn contained(&self, n: u64, d: Cell) -> Result<Cell, Stop>
        requires { inside n 64 ≡ true }
        ensures { Did (has_in n d self.now) result self.now }
    {
        match d.number() {
            None => Err(Stop::NoSense),
            Some(b) => Ok(Cell::bits(truth(has(b, n)))),
        }
    }

    /// A set and one more element.
    pub fn with_element(&self, procedure: u32, c: Cell, d: Cell) -> Result<Cell, Stop>
        ensures { Did (one_more procedure (give c) (give d) self.now) result self.now }
    {
        match c.number() {
            None => Err(Stop::NoSense),
            Some(b) => match d.number() {
                None => Err(Stop::NoSense),
                Some(a) => match with_element(b, a) {
                    None => Err(Stop::Trapped(7, procedure)),
                    Some(n) => Ok(Cell::bits(n)),
                },
            },
        }
    }

    /// A number that becomes a BYTE.
    pub fn as_byte(&self, procedure: u32, c: Cell) -> Result<Cell, Stop>
        ensures { Did (byte_of procedure (give c) self.now) result self.now }
    {
        match c.number() {
            None => Err(Stop::NoSense),
            Some(n) => match as_byte(n) {
                None => Err(Stop::Trapped(11, procedure)),
                Some(b) => Ok(Cell::bits(b)),
            },
        }
    }

    /// ASSERT.
    pub fn assert(&self, procedure: u32, c: Cell) -> Result<(), Stop>
        ensures { Did (asserted procedure (give c) self.now) result self.now }
    {
        match c.number() {
            None => Err(Stop::NoSense),
            Some(n) => {
                if holds(n) {
                    Ok(())
                } else {
                    Err(Stop::Trapped(5, procedure))
                }
            }
        }
    }
}
