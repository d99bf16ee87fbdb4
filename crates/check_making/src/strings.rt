//! The strings of constants.

ghost use Rattle.std.specs.Prelude.{◌≡◌, List, ℕ, length, OnOk, IfOk, IfErr};
ghost use Rattle.ob_judge.specs.Image.{Chars};
ghost use Rattle.ob_judge.specs.Making.{Making};
ghost use Rattle.check_types.specs.names.Meaning.{constant_of};
ghost use Rattle.check_making.specs.Staying.{NamedStays};
ghost use Rattle.check_making.specs.Making.{table_of, strings_of, characters_at, Makes, IsSettled};

use crate::making::{Declaring, Surroundings, TextPlace};
use check_types::names::{Constant, Named};
use check_types::steps::CheckFault;
use ob_types::Characters;

/// The number behind so many; without one there is no memory for another.
pub fn next_number<T>(items: &[T]) -> Result<u32, CheckFault>
    ensures number { IfOk result (λ n. n ≡ length items.now) }
    ensures memory { IfErr result (λ e. e ≡ CheckFault.Memory) }
{
    match u32::try_from(items.len()) {
        Ok(n) => Ok(n),
        Err(_) => Err(CheckFault::Memory),
    }
}

impl Declaring {
    /// The constant that is a string of these characters, which stand at this place.
    pub fn string(
        &mut self,
        round: &Surroundings,
        characters: Characters,
        place: TextPlace,
    ) -> Result<Constant, CheckFault>
        requires settled { IsSettled round.now self.old }
        requires place { characters_at round.now.texts.now place ≡ characters }
        ensures settled { OnOk result (IsSettled round.now self.new) }
        ensures makes { OnOk result ((m : Making) → Makes round.now self.old m → Makes round.now self.new m) }
        ensures stays { IfOk result (λ c. NamedStays self.new.types.table (strings_of self.new) (Named.Constant c)) }
        ensures means { IfOk result (λ c. constant_of (table_of self.new) (strings_of self.new) c ≡ Chars characters) }
        ensures types { self.new.types ≡ self.old.types }
        ensures memory { IfErr result (λ e. e ≡ CheckFault.Memory) }
    {
        let n = next_number(&self.strings)?;
        self.strings.push(characters)?;
        self.places.push(place)?;
        Ok(Constant::Chars(n))
    }
}
