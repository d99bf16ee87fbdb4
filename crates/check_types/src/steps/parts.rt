//! A part of a text.

ghost use Rattle.std.specs.Prelude.{◌≡◌, length};
ghost use Rattle.ob_judge.specs.Scopes.{part as part_of};

/// The bytes between two places; none where they don't lie within.
pub fn part(bytes: &[u8], from: u32, to: u32) -> &[u8]
    ensures { result.now ≡ part_of bytes.now from to }
{
    let from = from as usize;
    let to = to as usize;
    if from <= to && to <= bytes.len() {
        &bytes[from..to]
    } else {
        &[]
    }
}

/// How many bytes that part has.
pub fn part_length(bytes: &[u8], from: u32, to: u32) -> u32
    ensures { result ≡ length (part_of bytes.now from to) }
{
    if from <= to && to as usize <= bytes.len() {
        to - from
    } else {
        0
    }
}
