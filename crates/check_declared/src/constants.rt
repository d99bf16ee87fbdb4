//! CONST (Oberon-07 report, section 5).

ghost use Rattle.std.specs.Prelude.{◌≡◌, OnOk, IfOk, IfErr};
ghost use Rattle.ob_syntax.specs.Plain.{plain_const_decl};
ghost use Rattle.ob_judge.specs.Making.{Making};
ghost use Rattle.ob_judge.specs.Declarations.{const_part};
ghost use Rattle.check_making.specs.Staying.{NamedStays};
ghost use Rattle.check_making.specs.Making.{strings_of, Makes, IsSettled};
ghost use Rattle.check_making.specs.Parts.{Judges, JudgesHere};
ghost use Rattle.check_declared.specs.Constants.{text_in, consts_part, constant_part, IsValue, IsKept};

use crate::string_places::string_place;
use check_expressions::constants::{ConstantValue, constant};
use check_making::{Declaring, Surroundings};
use check_operands::characters_of;
use check_types::names::{Constant, Named};
use check_types::steps::CheckFault;
use ob_syntax::declarations::ConstDecl;
use ob_types::Characters;

// A constant as its name keeps it: the characters of a string are among those of the state.
fn keep(
    state: &mut Declaring,
    round: &Surroundings,
    value: ConstantValue,
) -> Result<Constant, CheckFault>
    requires { IsSettled round.now state.old }
    ensures settled { OnOk result (IsSettled round.now state.new) }
    ensures makes { OnOk result ((m : Making) → Makes round.now state.old m → Makes round.now state.new m) }
    ensures stays { IfOk result (λ c. NamedStays state.new.types.table (strings_of state.new) (Named.Constant c)) }
    ensures means { IfOk result (λ c. IsKept round.now state.old value state.new c) }
    ensures types { OnOk result (state.new.types ≡ state.old.types) }
    ensures memory { IfErr result (λ e. e ≡ CheckFault.Memory) }
{
    match value {
        ConstantValue::Bits(basic, bits) => Ok(Constant::Bits(basic, bits)),
        ConstantValue::Chars(n) => {
            let characters = characters_in(state, round, n)?;
            let place = string_place(state, round, n);
            state.string(round, characters, place)
        }
    }
}

// The characters of a string by its number.
fn characters_in(state: &Declaring, round: &Surroundings, n: u32) -> Result<Characters, CheckFault>
    ensures characters { IfOk result (λ s. s ≡ text_in round.now state.now n) }
    ensures memory { IfErr result (λ e. e ≡ CheckFault.Memory) }
{
    let scope = state.scope(round);
    Ok(characters_of(&scope, round.alloc, n)?)
}

/// A constant is declared.
pub fn const_decl(
    state: &mut Declaring,
    round: &Surroundings,
    tree: &ConstDecl,
) -> Result<(), CheckFault>
    requires { IsSettled round.now state.old }
    ensures settled { OnOk result (IsSettled round.now state.new) }
    ensures types { OnOk result (state.new.types ≡ state.old.types) }
    ensures judged { Judges round.now state.old state.new (const_part round.now.source.now (plain_const_decl tree.now)) result }
{
    state.stand(round, tree.name.name)?;
    let value = constant_at(state, round, tree)?;
    let kept = keep(state, round, value)?;
    state.declare(round, &tree.name, Named::Constant(kept))
}

// The value of a declaration's expression.
fn constant_at(
    state: &Declaring,
    round: &Surroundings,
    tree: &ConstDecl,
) -> Result<ConstantValue, CheckFault>
    ensures { JudgesHere (IsValue round.now state.now) round.now state.now (constant_part round.now.source.now tree.now.value) result }
{
    let scope = state.scope(round);
    constant(&scope, round.alloc, &tree.value)
}

/// Constants are declared, one after the other.
pub fn const_decls(
    state: &mut Declaring,
    round: &Surroundings,
    trees: &[ConstDecl],
) -> Result<(), CheckFault>
    requires { IsSettled round.now state.old }
    ensures settled { OnOk result (IsSettled round.now state.new) }
    ensures types { OnOk result (state.new.types ≡ state.old.types) }
    ensures judged { Judges round.now state.old state.new (consts_part round.now.source.now trees.now) result }
{
    for tree in trees {
        const_decl(state, round, tree)?;
    }
    Ok(())
}
