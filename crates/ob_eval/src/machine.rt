//! The machine.

use eval_at_once::Active;
use eval_store::{Cell, Handed, Stop, World};
use eval_tasks::{Stack, Task};

/// A machine: what is left to do, the values, the call that runs, and the world.
#[derive(Drop)]
pub struct Machine<'a> {
    pub tasks: Stack<Task<'a>>,
    pub values: Stack<Handed>,
    pub active: Active,
    pub world: World,
}

impl<'a> Machine<'a> {
    ghost use Rattle.std.specs.Prelude.{◌≡◌, ◌∷◌, OnOk, IfErr};
    ghost use Rattle.ob_types.specs.Store.{Value};
    ghost use Rattle.ob_eval.specs.Steps.{TookCell, TookNumber, Took};

    /// One more thing to do before the others.
    #[inline]
    pub fn add(&mut self, task: Task<'a>) -> Result<(), Stop>
        ensures ok { OnOk result (self.new ≡ record self.old { tasks = task.entry ∷ self.old.tasks }) }
        ensures err { IfErr result (λ e. e ≡ Stop.NoMemory) }
    {
        self.tasks.push(task)?;
        Ok(())
    }

    /// One more that is handed over.
    #[inline]
    pub fn hand(&mut self, handed: Handed) -> Result<(), Stop>
        ensures ok { OnOk result (self.new ≡ record self.old { values = handed ∷ self.old.values }) }
        ensures err { IfErr result (λ e. e ≡ Stop.NoMemory) }
    {
        self.values.push(handed)?;
        Ok(())
    }

    /// One more value.
    #[inline]
    pub fn give(&mut self, cell: Cell) -> Result<(), Stop>
        ensures ok { OnOk result (self.new ≡ record self.old { values = Value cell ∷ self.old.values }) }
        ensures err { IfErr result (λ e. e ≡ Stop.NoMemory) }
    {
        self.values.push(Handed::value(cell))?;
        Ok(())
    }

    /// The last that was handed over.
    #[inline]
    pub fn take(&mut self) -> Result<Handed, Stop>
        ensures { Took self.old result self.new }
    {
        match self.values.pop() {
            Some(handed) => Ok(handed),
            None => Err(Stop::NoSense),
        }
    }

    /// The last value.
    #[inline]
    pub fn take_cell(&mut self) -> Result<Cell, Stop>
        ensures { TookCell self.old result self.new }
    {
        match self.values.pop() {
            Some(handed) => match handed.cell() {
                Some(cell) => Ok(cell),
                None => Err(Stop::NoSense),
            },
            None => Err(Stop::NoSense),
        }
    }

    /// The last value, a number.
    #[inline]
    pub fn take_number(&mut self) -> Result<u64, Stop>
        ensures { TookNumber self.old result self.new }
    {
        match self.take_cell() {
            Err(stop) => Err(stop),
            Ok(cell) => match cell.number() {
                Some(n) => Ok(n),
                None => Err(Stop::NoSense),
            },
        }
    }
}
