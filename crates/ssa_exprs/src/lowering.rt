//! Lowering an expression, as a value and as a condition.

ghost use Rattle.std.specs.Prelude.{◌≡◌, IfOk, OnOk};
ghost use Rattle.ob_types.specs.declared.program.Program.{Program};
ghost use Rattle.ssa_lowered.specs.Lowered.{Here};
ghost use Rattle.ssa_exprs.specs.Making.{Gives, Tests};
ghost use Rattle.ssa_exprs.specs.Tables.{Serves, expr_in};

use crate::making::Making;
use crate::tables::Tables;
use crate::walk::{cond, value};
use ob_types::Checked;
use outside::Memory;

/// A procedure that is lowered: where data stands, and its code so far.
#[derive(Drop)]
pub struct Lowering<'a> {
    pub tables: Tables<'a>,
    pub making: Making,
}

/// Appends the code of an expression's value, whose number is the result. Limits are told when the procedure is complete.
pub fn lower_value(b: &mut Lowering<'_>, e: &Checked) -> Result<u32, Memory>
    ensures value { IfOk result (λ v. (p : Program) (here : Here) → Serves b.old.tables p here → Gives b.old.making b.new.making (expr_in p here e.now.form).value v) }
    ensures tables { b.new.tables ≡ b.old.tables }
{
    value(&b.tables, &mut b.making, &e.form)
}

/// Appends the code of a condition, which leads to one label where it holds and to another where it doesn't. The block behind
/// it is begun, and runs as often as the one that was open.
pub fn lower_cond(b: &mut Lowering<'_>, e: &Checked, yes: u32, no: u32) -> Result<(), Memory>
    ensures test { OnOk result ((p : Program) (here : Here) → Serves b.old.tables p here
        → Tests b.old.making b.new.making (expr_in p here e.now.form).test yes no b.old.making.freq) }
    ensures tables { b.new.tables ≡ b.old.tables }
{
    let freq = b.making.freq();
    cond(&b.tables, &mut b.making, &e.form, yes, no, freq)
}
