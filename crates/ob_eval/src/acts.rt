//! Acts that change what the world holds, or write.

use crate::machine::Machine;
use eval_layouts::LaidProgram;
use eval_store::Stop;
use eval_tasks::Act;
use ob_types::Binary;

impl<'a> Machine<'a> {
    ghost use Rattle.std.specs.Prelude.{◌≡◌};
    ghost use Rattle.eval_store.specs.Did.{Sensible};
    ghost use Rattle.eval_tasks.specs.Tasks.{acts};
    ghost use Rattle.ob_eval.specs.Steps.{before, Went, Falls};

    /// A variable gets a value.
    pub fn put(&mut self, laid: &LaidProgram) -> Result<(), Stop>
        ensures went { Went laid.now (before laid.now (acts laid.now Act.Put) self.old) result self.new }
        ensures falls { Falls 1 self.old result self.new }
    {
        match self.take_cell() {
            Err(stop) => Err(stop),
            Ok(c) => match self.take() {
                Err(stop) => Err(stop),
                Ok(handed) => match self.world.assign(handed, c) {
                    Err(stop) => Err(stop),
                    Ok(()) => Ok(()),
                },
            },
        }
    }

    /// `:=` of an array.
    pub fn copy_array(&mut self, laid: &LaidProgram, cells: u64) -> Result<(), Stop>
        ensures went { Went laid.now (before laid.now (acts laid.now (Act.CopyArray cells)) self.old) result self.new }
        ensures falls { Falls 1 self.old result self.new }
    {
        match self.take() {
            Err(stop) => Err(stop),
            Ok(e) => match self.take() {
                Err(stop) => Err(stop),
                Ok(d) => match self.world.copy_array(self.active.procedure, d, e, cells) {
                    Err(stop) => Err(stop),
                    Ok(()) => Ok(()),
                },
            },
        }
    }

    /// `:=` of a record.
    pub fn copy_record(&mut self, laid: &LaidProgram, cells: u64) -> Result<(), Stop>
        ensures went { Went laid.now (before laid.now (acts laid.now (Act.CopyRecord cells)) self.old) result self.new }
        ensures falls { Falls 1 self.old result self.new }
    {
        match self.take() {
            Err(stop) => Err(stop),
            Ok(e) => match self.take() {
                Err(stop) => Err(stop),
                Ok(d) => match self.world.copy_record(d, e, cells) {
                    Err(stop) => Err(stop),
                    Ok(()) => Ok(()),
                },
            },
        }
    }

    /// INC and DEC.
    pub fn change_number(
        &mut self,
        laid: &LaidProgram,
        operator: Binary,
        is_of_byte: bool,
    ) -> Result<(), Stop>
        ensures went { Went laid.now (before laid.now (acts laid.now (Act.ChangeNumber operator is_of_byte)) self.old) result self.new }
        ensures falls { Falls 1 self.old result self.new }
    {
        match self.take_cell() {
            Err(stop) => Err(stop),
            Ok(c) => match self.take() {
                Err(stop) => Err(stop),
                Ok(handed) => match self
                    .world
                    .change_number(self.active.procedure, operator, handed, c, is_of_byte)
                {
                    Err(stop) => Err(stop),
                    Ok(()) => Ok(()),
                },
            },
        }
    }

    /// INCL and EXCL.
    pub fn change_set(&mut self, laid: &LaidProgram, operator: Binary) -> Result<(), Stop>
        ensures went { Went laid.now (before laid.now (acts laid.now (Act.ChangeSet operator)) self.old) result self.new }
        ensures falls { Falls 1 self.old result self.new }
    {
        match self.take_cell() {
            Err(stop) => Err(stop),
            Ok(c) => match self.take() {
                Err(stop) => Err(stop),
                Ok(handed) => match self
                    .world
                    .change_set(self.active.procedure, operator, handed, c)
                {
                    Err(stop) => Err(stop),
                    Ok(()) => Ok(()),
                },
            },
        }
    }

    /// ASSERT.
    pub fn assert(&mut self, laid: &LaidProgram) -> Result<(), Stop>
        ensures went { Went laid.now (before laid.now (acts laid.now Act.Assert) self.old) result self.new }
        ensures falls { Falls 1 self.old result self.new }
    {
        match self.take_cell() {
            Err(stop) => Err(stop),
            Ok(c) => match self.world.assert(self.active.procedure, c) {
                Err(stop) => Err(stop),
                Ok(()) => Ok(()),
            },
        }
    }

    /// Out.Char.
    pub fn out_char(&mut self, laid: &LaidProgram) -> Result<(), Stop>
        ensures went { Went laid.now (before laid.now (acts laid.now Act.OutChar) self.old) result self.new }
        ensures falls { Falls 1 self.old result self.new }
    {
        match self.take_cell() {
            Err(stop) => Err(stop),
            Ok(c) => match self.world.out_char(c) {
                Err(stop) => Err(stop),
                Ok(()) => Ok(()),
            },
        }
    }

    /// Out.Int.
    pub fn out_int(&mut self, laid: &LaidProgram) -> Result<(), Stop>
        ensures went { Went laid.now (before laid.now (acts laid.now Act.OutInt) self.old) result self.new }
        ensures falls { Falls 1 self.old result self.new }
    {
        match self.take_cell() {
            Err(stop) => Err(stop),
            Ok(d) => match self.take_cell() {
                Err(stop) => Err(stop),
                Ok(c) => match self.world.out_int(c, d) {
                    Err(stop) => Err(stop),
                    Ok(()) => Ok(()),
                },
            },
        }
    }

    /// In.Char.
    pub fn in_char(&mut self, laid: &LaidProgram) -> Result<(), Stop>
        ensures went { Went laid.now (before laid.now (acts laid.now Act.InChar) self.old) result self.new }
        ensures falls { Falls 1 self.old result self.new }
    {
        match self.take() {
            Err(stop) => Err(stop),
            Ok(handed) => match self.world.in_char(handed) {
                Err(stop) => Err(stop),
                Ok(()) => Ok(()),
            },
        }
    }

    /// FOR's first assignment: the address stays.
    pub fn put_first(&mut self, laid: &LaidProgram) -> Result<(), Stop>
        ensures went { Went laid.now (before laid.now (acts laid.now Act.PutFirst) self.old) result self.new }
        ensures falls { Falls 1 self.old result self.new }
    {
        match self.take_cell() {
            Err(stop) => Err(stop),
            Ok(c) => match self.take() {
                Err(stop) => Err(stop),
                Ok(handed) => match self.world.assign(handed, c) {
                    Err(stop) => Err(stop),
                    Ok(()) => {
                        self.hand(handed)?;
                        Ok(())
                    }
                },
            },
        }
    }

    /// NEW of a record type.
    pub fn make(&mut self, laid: &LaidProgram, r: u32) -> Result<(), Stop>
        ensures went { Went laid.now (before laid.now (acts laid.now (Act.Make r)) self.old) result self.new }
        ensures falls { Falls 1 self.old result self.new }
    {
        let Some(cells) = laid.record_cells(r) else {
            return Err(Stop::NoMemory);
        };
        match self.take() {
            Err(stop) => Err(stop),
            Ok(handed) => match self
                .world
                .new_object(self.active.procedure, handed, r, cells)
            {
                Err(stop) => Err(stop),
                Ok(()) => Ok(()),
            },
        }
    }

    /// Out.String.
    pub fn out_string(&mut self, laid: &LaidProgram) -> Result<(), Stop>
        requires sensible { Sensible (before laid.now (acts laid.now Act.OutString) self.old) }
        ensures went { Went laid.now (before laid.now (acts laid.now Act.OutString) self.old) result self.new }
        ensures falls { Falls 1 self.old result self.new }
    {
        match self.take() {
            Err(stop) => Err(stop),
            Ok(handed) => match self.world.out_string(handed) {
                Err(stop) => Err(stop),
                Ok(()) => Ok(()),
            },
        }
    }
}
