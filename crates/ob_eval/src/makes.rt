//! Acts that make values of the last ones.

use crate::machine::Machine;
use eval_layouts::LaidProgram;
use eval_store::{Cell, Stop};
use eval_tasks::Act;
use ob_operators::{elements, is_element};
use ob_types::{Binary, Relation, Unary};

impl<'a> Machine<'a> {
    ghost use Rattle.std.specs.Prelude.{◌≡◌, ◌∷◌, ◌+◌, length, OnOk, IfErr};
    ghost use Rattle.ob_types.specs.Store.{Value, Bits};
    ghost use Rattle.eval_store.specs.Did.{Sensible};
    ghost use Rattle.eval_tasks.specs.Tasks.{acts, guards as guarded_by};
    ghost use Rattle.ob_eval.specs.Steps.{before, Went, Falls};

    /// One more value, a number.
    #[inline]
    pub fn give_number(&mut self, n: u64) -> Result<(), Stop>
        ensures ok { OnOk result (self.new ≡ record self.old { values = Value (Bits n) ∷ self.old.values }) }
        ensures err { IfErr result (λ e. e ≡ Stop.NoMemory) }
    {
        self.give(Cell::bits(n))?;
        Ok(())
    }

    /// The value of a variable.
    pub fn fetch(&mut self, laid: &LaidProgram) -> Result<(), Stop>
        ensures went { Went laid.now (before laid.now (acts laid.now Act.Fetch) self.old) result self.new }
        ensures falls { Falls 1 self.old result self.new }
    {
        match self.take() {
            Err(stop) => Err(stop),
            Ok(handed) => match self.world.load(handed) {
                Err(stop) => Err(stop),
                Ok(made) => {
                    self.give(made)?;
                    Ok(())
                }
            },
        }
    }

    /// An operator of one operand.
    pub fn one_operand(&mut self, laid: &LaidProgram, operator: Unary) -> Result<(), Stop>
        ensures went { Went laid.now (before laid.now (acts laid.now (Act.OneOperand operator)) self.old) result self.new }
        ensures falls { Falls 1 self.old result self.new }
    {
        match self.take_cell() {
            Err(stop) => Err(stop),
            Ok(c) => match self.world.one_operand(operator, c) {
                Err(stop) => Err(stop),
                Ok(made) => {
                    self.give(made)?;
                    Ok(())
                }
            },
        }
    }

    /// That the last value is a number.
    pub fn number(&mut self, laid: &LaidProgram) -> Result<(), Stop>
        ensures went { Went laid.now (before laid.now (acts laid.now Act.Number) self.old) result self.new }
        ensures falls { Falls 1 self.old result self.new }
    {
        match self.take_cell() {
            Err(stop) => Err(stop),
            Ok(c) => match self.world.number(c) {
                Err(stop) => Err(stop),
                Ok(made) => {
                    self.give_number(made)?;
                    Ok(())
                }
            },
        }
    }

    /// That the last value is a number that may be an element of a set.
    pub fn element(&mut self, laid: &LaidProgram) -> Result<(), Stop>
        ensures went { Went laid.now (before laid.now (acts laid.now Act.Element) self.old) result self.new }
        ensures falls { Falls 1 self.old result self.new }
    {
        match self.take_cell() {
            Err(stop) => Err(stop),
            Ok(c) => match self.world.element(self.active.procedure, c) {
                Err(stop) => Err(stop),
                Ok(made) => {
                    self.give_number(made)?;
                    Ok(())
                }
            },
        }
    }

    /// An operator of two operands.
    pub fn two_operands(&mut self, laid: &LaidProgram, operator: Binary) -> Result<(), Stop>
        ensures went { Went laid.now (before laid.now (acts laid.now (Act.TwoOperands operator)) self.old) result self.new }
        ensures falls { Falls 1 self.old result self.new }
    {
        match self.take_cell() {
            Err(stop) => Err(stop),
            Ok(d) => match self.take_cell() {
                Err(stop) => Err(stop),
                Ok(c) => match self
                    .world
                    .two_operands(self.active.procedure, operator, c, d)
                {
                    Err(stop) => Err(stop),
                    Ok(made) => {
                        self.give(made)?;
                        Ok(())
                    }
                },
            },
        }
    }

    /// A relation of two values.
    pub fn compared(&mut self, laid: &LaidProgram, relation: Relation) -> Result<(), Stop>
        ensures went { Went laid.now (before laid.now (acts laid.now (Act.Compared relation)) self.old) result self.new }
        ensures falls { Falls 1 self.old result self.new }
    {
        match self.take_cell() {
            Err(stop) => Err(stop),
            Ok(d) => match self.take_cell() {
                Err(stop) => Err(stop),
                Ok(c) => match self.world.compared(relation, c, d) {
                    Err(stop) => Err(stop),
                    Ok(made) => {
                        self.give(made)?;
                        Ok(())
                    }
                },
            },
        }
    }

    /// One more element of a set.
    pub fn with_element(&mut self, laid: &LaidProgram) -> Result<(), Stop>
        ensures went { Went laid.now (before laid.now (acts laid.now Act.WithElement) self.old) result self.new }
        ensures falls { Falls 1 self.old result self.new }
    {
        match self.take_cell() {
            Err(stop) => Err(stop),
            Ok(d) => match self.take_cell() {
                Err(stop) => Err(stop),
                Ok(c) => match self.world.with_element(self.active.procedure, c, d) {
                    Err(stop) => Err(stop),
                    Ok(made) => {
                        self.give(made)?;
                        Ok(())
                    }
                },
            },
        }
    }

    /// IS of a pointer.
    pub fn pointer_is(&mut self, laid: &LaidProgram, r: u32) -> Result<(), Stop>
        ensures went { Went laid.now (before laid.now (acts laid.now (Act.PointerIs r)) self.old) result self.new }
        ensures falls { Falls 1 self.old result self.new }
    {
        match self.take_cell() {
            Err(stop) => Err(stop),
            Ok(c) => match self.world.pointer_is(laid.types(), c, r) {
                Err(stop) => Err(stop),
                Ok(made) => {
                    self.give(made)?;
                    Ok(())
                }
            },
        }
    }

    /// IS of a VAR record parameter.
    pub fn parameter_is(&mut self, laid: &LaidProgram, r: u32) -> Result<(), Stop>
        ensures went { Went laid.now (before laid.now (acts laid.now (Act.ParameterIs r)) self.old) result self.new }
        ensures falls { Falls 1 self.old result self.new }
    {
        match self.take() {
            Err(stop) => Err(stop),
            Ok(handed) => match self.world.parameter_is(laid.types(), handed, r) {
                Err(stop) => Err(stop),
                Ok(made) => {
                    self.give(made)?;
                    Ok(())
                }
            },
        }
    }

    /// A number that becomes a BYTE.
    pub fn as_byte(&mut self, laid: &LaidProgram) -> Result<(), Stop>
        ensures went { Went laid.now (before laid.now (acts laid.now Act.AsByte) self.old) result self.new }
        ensures falls { Falls 1 self.old result self.new }
    {
        match self.take_cell() {
            Err(stop) => Err(stop),
            Ok(c) => match self.world.as_byte(self.active.procedure, c) {
                Err(stop) => Err(stop),
                Ok(made) => {
                    self.give(made)?;
                    Ok(())
                }
            },
        }
    }

    /// LEN.
    pub fn length_of(&mut self, laid: &LaidProgram, length: Option<u64>) -> Result<(), Stop>
        ensures went { Went laid.now (before laid.now (acts laid.now (Act.LengthOf length)) self.old) result self.new }
        ensures falls { Falls 1 self.old result self.new }
    {
        match self.take() {
            Err(stop) => Err(stop),
            Ok(handed) => match self.world.length_of(handed, length) {
                Err(stop) => Err(stop),
                Ok(made) => {
                    self.give(made)?;
                    Ok(())
                }
            },
        }
    }

    /// An array with its length.
    pub fn as_span(&mut self, laid: &LaidProgram, length: Option<u64>) -> Result<(), Stop>
        ensures went { Went laid.now (before laid.now (acts laid.now (Act.AsSpan length)) self.old) result self.new }
        ensures falls { Falls 1 self.old result self.new }
    {
        match self.take() {
            Err(stop) => Err(stop),
            Ok(handed) => match self.world.as_span(handed, length) {
                Err(stop) => Err(stop),
                Ok(made) => {
                    self.hand(made)?;
                    Ok(())
                }
            },
        }
    }

    /// An address alone.
    pub fn as_place(&mut self, laid: &LaidProgram) -> Result<(), Stop>
        ensures went { Went laid.now (before laid.now (acts laid.now Act.AsPlace) self.old) result self.new }
        ensures falls { Falls 1 self.old result self.new }
    {
        match self.take() {
            Err(stop) => Err(stop),
            Ok(handed) => match self.world.as_place(handed) {
                Err(stop) => Err(stop),
                Ok(made) => {
                    self.hand(made)?;
                    Ok(())
                }
            },
        }
    }

    /// A record with its dynamic type, or else with this.
    pub fn as_record(&mut self, laid: &LaidProgram, own: u32) -> Result<(), Stop>
        ensures went { Went laid.now (before laid.now (acts laid.now (Act.AsRecord own)) self.old) result self.new }
        ensures falls { Falls 1 self.old result self.new }
    {
        match self.take() {
            Err(stop) => Err(stop),
            Ok(handed) => match self.world.as_record(handed, own) {
                Err(stop) => Err(stop),
                Ok(made) => {
                    self.hand(made)?;
                    Ok(())
                }
            },
        }
    }

    /// IN, where the element was tested.
    pub fn contained(&mut self, laid: &LaidProgram) -> Result<(), Stop>
        ensures went { Went laid.now (before laid.now (acts laid.now Act.Contained) self.old) result self.new }
        ensures falls { Falls 1 self.old result self.new }
    {
        match self.take_cell() {
            Err(stop) => Err(stop),
            Ok(d) => match self.take_number() {
                Err(stop) => Err(stop),
                Ok(n) => {
                    if !is_element(n) {
                        return Err(Stop::NoMemory);
                    }
                    match self.world.contained(n, d) {
                        Err(stop) => Err(stop),
                        Ok(made) => {
                            self.give(made)?;
                            Ok(())
                        }
                    }
                }
            },
        }
    }

    /// A set and the elements from one to another, where the first was tested.
    pub fn with_range(&mut self, laid: &LaidProgram) -> Result<(), Stop>
        ensures went { Went laid.now (before laid.now (acts laid.now Act.WithRange) self.old) result self.new }
        ensures falls { Falls 1 self.old result self.new }
    {
        match self.take_cell() {
            Err(stop) => Err(stop),
            Ok(e) => match self.take_number() {
                Err(stop) => Err(stop),
                Ok(low) => match self.take_number() {
                    Err(stop) => Err(stop),
                    Ok(b) => {
                        if !is_element(low) {
                            return Err(Stop::NoMemory);
                        }
                        match self.world.element(self.active.procedure, e) {
                            Err(stop) => Err(stop),
                            Ok(high) => {
                                self.give(Cell::bits(b | elements(low, high)))?;
                                Ok(())
                            }
                        }
                    }
                },
            },
        }
    }

    /// Guards of a pointer.
    pub fn guard(&mut self, laid: &LaidProgram, guards: &[u32]) -> Result<(), Stop>
        ensures went { Went laid.now (before laid.now (guarded_by laid.now guards.now) self.old) result self.new }
        ensures falls { Falls (1 + length guards.now) self.old result self.new }
    {
        match self.take_cell() {
            Err(stop) => Err(stop),
            Ok(c) => match self
                .world
                .all_guarded(laid.types(), self.active.procedure, c, guards)
            {
                Err(stop) => Err(stop),
                Ok(made) => {
                    self.give(made)?;
                    Ok(())
                }
            },
        }
    }

    /// An element of an array that has its length beside it.
    pub fn element_of(&mut self, laid: &LaidProgram, cells: u64) -> Result<(), Stop>
        ensures went { Went laid.now (before laid.now (acts laid.now (Act.ElementOf cells)) self.old) result self.new }
        ensures falls { Falls 1 self.old result self.new }
    {
        match self.take_cell() {
            Err(stop) => Err(stop),
            Ok(c) => match self.take() {
                Err(stop) => Err(stop),
                Ok(handed) => match handed.span() {
                    None => Err(Stop::NoSense),
                    Some(array) => match self
                        .world
                        .element_place(self.active.procedure, array, cells, c)
                    {
                        Err(stop) => Err(stop),
                        Ok(made) => {
                            self.hand(made)?;
                            Ok(())
                        }
                    },
                },
            },
        }
    }

    /// A relation of two texts.
    pub fn texts_compared(&mut self, laid: &LaidProgram, relation: Relation) -> Result<(), Stop>
        requires sensible { Sensible (before laid.now (acts laid.now (Act.TextsCompared relation)) self.old) }
        ensures went { Went laid.now (before laid.now (acts laid.now (Act.TextsCompared relation)) self.old) result self.new }
        ensures falls { Falls 1 self.old result self.new }
    {
        match self.take() {
            Err(stop) => Err(stop),
            Ok(e) => match self.take() {
                Err(stop) => Err(stop),
                Ok(d) => match self.world.texts_compared(relation, d, e) {
                    Err(stop) => Err(stop),
                    Ok(made) => {
                        self.give(made)?;
                        Ok(())
                    }
                },
            },
        }
    }

    /// TRUE.
    pub fn yes(&mut self, laid: &LaidProgram) -> Result<(), Stop>
        ensures went { Went laid.now (before laid.now (acts laid.now Act.Yes) self.old) result self.new }
        ensures falls { Falls 1 self.old result self.new }
    {
        self.give(Cell::bits(1))?;
        Ok(())
    }

    /// The last value goes.
    pub fn drop_last(&mut self, laid: &LaidProgram) -> Result<(), Stop>
        ensures went { Went laid.now (before laid.now (acts laid.now Act.Drop) self.old) result self.new }
        ensures falls { Falls 1 self.old result self.new }
    {
        match self.take_cell() {
            Err(stop) => Err(stop),
            Ok(_) => Ok(()),
        }
    }
}
