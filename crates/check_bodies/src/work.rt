//! Bodies, as a pool takes them.

ghost use Rattle.std.specs.Prelude.{◌≡◌, ◌<◌, ◌≤◌, length, None};
ghost use Rattle.check_procedures.specs.numbers.Numbering.{NumbersAll};
ghost use Rattle.check_bodies.specs.Waits.{no_parents, IsJudgedAt};

use crate::body::Body;
use check_making::{Declaring, Surroundings};
use check_procedures::judged_body;
use check_procedures::numbers::Numbered;
use outside::Memory;
use pool_core::Work;
use std::alloc::Global;

/// Bodies that wait for nothing but a worker, in a state whose types all have numbers.
#[derive(Drop)]
pub struct Bodies<'a> {
    pub round: &'a Surroundings<'a>,
    pub state: &'a Declaring,
    pub bodies: &'a [Body<'a>],
    pub ghost numbers: { ∥ NumbersAll state.now.types.table ∥₁ },
    pub ghost few: { length bodies.now ≤ 262144 },
}

impl<'a> Work for Bodies<'a> {
    type Done = Numbered;

    type Hint = ();

    ghost parents = { λ w. no_parents w.bodies.now };

    ghost is_final = { λ w number n. IsJudgedAt w.round.now w.state.now w.bodies.now number n };

    ghost is_hint = { λ w number hint. Unit {0} };

    fn count(&self) -> u32 {
        self.bodies.len() as u32
    }

    fn parent(&self, number: u32) -> Option<u32> {
        let _ = number;
        None
    }

    fn gate_number(&self, number: u32) -> u32 {
        self.bodies[number as usize].number
    }

    fn run<'b>(
        &'b self,
        alloc: Global,
        number: u32,
        hint: Option<&'b ()>,
    ) -> Result<Numbered, Memory> {
        let _ = alloc;
        let _ = hint;
        let body = &self.bodies[number as usize];
        let scope = body.scope(self.state, self.round);
        match judged_body(&scope, self.round, body.heading.outcome, body.tree) {
            Ok(numbered) => Ok(numbered),
            Err(_) => Err(Memory),
        }
    }

    fn hint(&self, alloc: Global, done: &Numbered, child: u32) -> Result<(), Memory> {
        let _ = (alloc, child);
        let _ = done;
        Ok(())
    }
}
