//! The procedure in which a code word stands.

ghost use Rattle.std.specs.Prelude.{◌≡◌, ◌^◌};
ghost use Rattle.image_form.specs.Places.{RiseBelow, place_before};

use crate::image::ProcPlace;

/// The last of some places, whose words rise, with a word of at most this number. It takes no memory, and time in proportion
/// to the logarithm of their number.
pub fn place_before(places: &[ProcPlace], word: u32) -> Option<ProcPlace>
    requires { RiseBelow (2 ^ 32) 0 places.now }
    ensures { result ≡ place_before places.now word }
{
    let begun = places.partition_point(|place| place.word <= word);
    if begun == 0 {
        return None;
    }
    Some(places[begun - 1])
}
