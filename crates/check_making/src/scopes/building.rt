//! The procedures of a program that is being built.

ghost use Rattle.std.specs.Prelude.{◌≡◌, ◌<◌, suc, length, Ok, OnOk, IfOk, IfErr, slice_get, Some};
ghost use Rattle.ob_judge.specs.Image.{Procedure as JudgedProcedure};
ghost use Rattle.ob_judge.specs.Making.{new_procedure as judged_new, set_procedure as judged_set};
ghost use Rattle.check_making.specs.Making.{IsSettled};
ghost use Rattle.check_making.specs.scopes.Blank.{blank_procedure};
ghost use Rattle.check_making.specs.scopes.Building.{StandsFor};
ghost use Rattle.check_making.specs.scopes.Built.{Builds, BuildsAs, IsNumber};

use crate::{Declaring, Surroundings, next_number};
use check_types::TypeRef;
use check_types::steps::CheckFault;
use items::Items;
use ob_types::Procedure;
use std::alloc::Global;

/// What declarations have made, and all procedures so far.
#[derive(Drop)]
pub struct Building {
    pub declaring: Declaring,
    pub procedures: Vec<Procedure>,
}

// A procedure of which nothing is known, with this number for the type of no result.
fn blank(alloc: Global, nothing: u32) -> Procedure
    ensures { result ≡ blank_procedure nothing }
{
    Procedure {
        module: 0,
        line: 0,
        is_body: false,
        formals: Items::new(alloc),
        result: nothing,
        locals: Items::new(alloc),
        texts: Items::new(alloc),
        body: Items::new(alloc),
        answer: None,
    }
}

impl Building {
    /// A procedure at the next number, of which nothing is known yet.
    pub fn new_procedure(&mut self, round: &Surroundings) -> Result<u32, CheckFault>
        requires { IsSettled round.now self.old.declaring }
        ensures declaring { self.new.declaring ≡ self.old.declaring }
        ensures number { IfOk result (λ f. f ≡ length self.old.procedures.items) }
        ensures more { OnOk result (length self.new.procedures.items ≡ suc (length self.old.procedures.items)) }
        ensures judged { BuildsAs IsNumber round.now self.old self.new judged_new result }
    {
        let f = next_number(&self.procedures)?;
        let nothing = self.declaring.types.number(TypeRef::Nothing);
        self.procedures.push(blank(round.alloc, nothing))?;
        Ok(f)
    }

    /// What a procedure is.
    pub fn set_procedure(&mut self, round: &Surroundings, f: u32, procedure: Procedure)
        requires there { f < length self.old.procedures.items }
        ensures declaring { self.new.declaring ≡ self.old.declaring }
        ensures length { length self.new.procedures.items ≡ length self.old.procedures.items }
        ensures judged { (j : JudgedProcedure) → StandsFor self.old.declaring.types.table procedure j → Builds round.now self.old self.new (judged_set f j) (Ok tt) }
    {
        self.procedures[f as usize] = procedure;
    }
}
