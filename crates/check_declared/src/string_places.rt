//! Where the strings of constants stand.

ghost use Rattle.std.specs.Prelude.{◌≡◌, ℕ, List, [], Some, slice_get, slice_index_or};
ghost use Rattle.ob_judge.specs.Scopes.{characters};
ghost use Rattle.check_making.specs.Making.{characters_at, AreTextPlaces, IsSettled};
ghost use Rattle.check_declared.specs.Constants.{text_in};

use check_making::{Declaring, Surroundings, TextPlace};

// The place of no characters.
fn empty_place() -> TextPlace
    ensures { (texts : List (List ℕ)) → characters_at texts result ≡ [] }
{
    TextPlace {
        module: 0,
        from: 0,
        to: 0,
    }
}

// The place of a literal's characters, between its quotes.
fn literal_place(round: &Surroundings, i: u32) -> TextPlace
    requires { slice_get round.now.texts.now round.now.module_number ≡ Some round.now.source.now.bytes }
    ensures { characters_at round.now.texts.now result ≡ characters round.now.source.now i }
{
    let symbol = round.source.symbol(i);
    match symbol.from.checked_add(1) {
        Some(from) => TextPlace {
            module: round.module_number,
            from,
            to: symbol.to.saturating_sub(1),
        },
        None => empty_place(),
    }
}

// The place of a string constant by its number.
fn constant_place(places: &[TextPlace], k: usize) -> TextPlace
    ensures { (texts strings : List (List ℕ)) → AreTextPlaces texts places.now strings → characters_at texts result ≡ slice_index_or strings k [] }
{
    match places.get(k) {
        Some(place) => *place,
        None => empty_place(),
    }
}

/// The place of a string by its number.
pub fn string_place(state: &Declaring, round: &Surroundings, n: u32) -> TextPlace
    requires { IsSettled round.now state.now }
    ensures { characters_at round.now.texts.now result ≡ text_in round.now state.now n }
{
    let before = round.source.count();
    let number = n as usize;
    if number < before {
        literal_place(round, n)
    } else if number == before {
        empty_place()
    } else {
        constant_place(&state.places, number - before - 1)
    }
}
