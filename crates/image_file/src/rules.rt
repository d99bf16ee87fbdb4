//! The header and its rules.

ghost use Rattle.std.specs.Prelude.{◌≡◌, ◌+◌, ◌*◌, ◌^◌, ◌<◌, ◌≤◌, true, false, None, length, take, IfOk};
ghost use Rattle.std.specs.Result.{ForErr};
ghost use Rattle.std.specs.Str.{bytes_eq};
ghost use Rattle.image_file.specs.declared.fault.ImageFault.TheVariants.{Fault};
ghost use Rattle.image_file.specs.Spelling.{mark};
ghost use Rattle.image_file.specs.Rules.{first_fault, first_of, header_rules, said_rules, end_rules, place_rules, field, is_version, header_length, most_frame, places_in, is_count, is_whole, is_code, is_next, said, first_constant, first_place, asked, Refuses};

use crate::fault::ImageFault;

/// The first bytes of each image.
pub(crate) const MARK: [u8; 8] = *b"TRC64IMG";

/// The bytes of a place.
pub(crate) const PLACE: usize = 12;

/// The bytes of a header of version 1.
pub(crate) const SHORTEST: usize = 32;

// The rules' numbers.
const SHORT: u8 = 60;

const BAD_MARK: u8 = 61;

const BAD_VERSION: u8 = 62;

const BAD_LENGTH: u8 = 63;

const TRAILING: u8 = 64;

const BAD_PLACE: u8 = 66;

/// What a header says.
#[derive(Clone, Copy)]
pub(crate) struct Header {
    pub(crate) version: u32,
    pub(crate) flags: u32,
    pub(crate) words: u32,
    pub(crate) globals: u32,
    pub(crate) constants: u32,
    pub(crate) frame: u32,
    pub(crate) places: u32,
}

/// The number of four bytes at a place.
pub(crate) fn number_at(bytes: &[u8], at: usize) -> u32
    requires { at + 4 ≤ length bytes.now }
    ensures { result ≡ field bytes.now at }
{
    let piece = &bytes[at..at + 4];
    u32::from_le_bytes([piece[0], piece[1], piece[2], piece[3]])
}

// Whether so many bytes are whole cells and at most so many.
fn is_whole_at_most(bytes: u32, most: u32) -> bool
    ensures { result ≡ is_whole most bytes }
{
    bytes <= most && bytes % 8 == 0
}

// Whether there may be so many code words.
fn is_code_length(words: u32) -> bool
    ensures { result ≡ is_code words }
{
    1 <= words && words <= 262_144
}

// Whether the bytes, at least eight, begin with the mark.
fn has_mark(bytes: &[u8]) -> bool
    requires { 8 ≤ length bytes.now }
    ensures { result ≡ bytes_eq (take 8 bytes.now) mark }
{
    bytes[..8] == MARK[..]
}

// Refuses what breaks a rule.
fn rule(holds: bool, number: u8, at: usize) -> Result<(), ImageFault>
    requires { holds ≡ false → at ≤ 4294967295 }
    ensures kept { IfOk result (λ _. holds ≡ true) }
    ensures broken { ForErr result (λ e. (holds ≡ false) × (e ≡ Fault number at)) }
{
    if holds {
        Ok(())
    } else {
        Err(ImageFault::Fault {
            number,
            at: at as u32,
        })
    }
}

// Whether there is such a version.
fn is_version(version: u32) -> bool
    ensures { result ≡ is_version version }
{
    version == 1 || version == 2
}

/// The bytes of a version's header.
pub(crate) fn header_length(version: u32) -> usize
    ensures { result ≡ header_length version }
{
    if version == 2 { 36 } else { SHORTEST }
}

// The greatest frame of a version.
fn most_frame(version: u32) -> u32
    ensures { result ≡ most_frame version }
{
    if version == 2 { 65_536 } else { 32_768 }
}

// How many places the header says; none in version 1.
fn places_in(bytes: &[u8], version: u32) -> u32
    requires { header_length version ≤ length bytes.now }
    ensures { result ≡ places_in version bytes.now }
{
    if version == 2 {
        number_at(bytes, 32)
    } else {
        0
    }
}

// Whether there may be so many places in a version.
fn is_count(version: u32, places: u32) -> bool
    ensures { result ≡ is_count version places }
{
    if version == 2 {
        1 <= places && places <= 4096
    } else {
        places == 0
    }
}

// The version of bytes that begin as an image, with a whole header.
fn version_of(bytes: &[u8]) -> Result<u32, ImageFault>
    ensures version { IfOk result (λ version. version ≡ field bytes.now 8) }
    ensures long { IfOk result (λ version. header_length version ≤ length bytes.now) }
    ensures kept { IfOk result (λ _. first_of (header_rules bytes.now) ≡ None) }
    ensures broken { ForErr result (λ e. Refuses e (first_of (header_rules bytes.now))) }
{
    let length = bytes.len();
    rule(SHORTEST <= length, SHORT, length)?;
    rule(has_mark(bytes), BAD_MARK, 0)?;
    let version = number_at(bytes, 8);
    rule(is_version(version), BAD_VERSION, 8)?;
    rule(header_length(version) <= length, SHORT, length)?;
    Ok(version)
}

// What a whole header of a version says.
fn said(bytes: &[u8], version: u32) -> Header
    requires version { version ≡ field bytes.now 8 }
    requires long { header_length version ≤ length bytes.now }
    ensures { result ≡ said bytes.now }
{
    Header {
        version,
        flags: number_at(bytes, 12),
        words: number_at(bytes, 16),
        globals: number_at(bytes, 20),
        constants: number_at(bytes, 24),
        frame: number_at(bytes, 28),
        places: places_in(bytes, version),
    }
}

impl Header {
    /// Where the constants begin, behind the code.
    pub(crate) fn first_constant(&self) -> usize
        ensures { result ≡ first_constant self.now }
    {
        header_length(self.version) + 4 * self.words as usize
    }

    /// Where the places begin, behind the constants.
    pub(crate) fn first_place(&self) -> usize
        ensures is { result ≡ first_place self.now }
        ensures few { result < 2 ^ 40 }
    {
        header_length(self.version) + 4 * self.words as usize + self.constants as usize
    }

    // Where all ends.
    fn asked(&self) -> usize
        ensures { result ≡ asked self.now }
    {
        self.first_place() + PLACE * self.places as usize
    }
}

// Refuses a header that says what may not be.
fn check_said(header: &Header) -> Result<(), ImageFault>
    ensures few { IfOk result (λ _. asked header.now ≤ 4294967295) }
    ensures kept { IfOk result (λ _. first_of (said_rules header.now) ≡ None) }
    ensures broken { ForErr result (λ e. Refuses e (first_of (said_rules header.now))) }
{
    rule(header.flags <= 1, BAD_LENGTH, 12)?;
    rule(is_code_length(header.words), BAD_LENGTH, 16)?;
    rule(is_whole_at_most(header.globals, 8_388_608), BAD_LENGTH, 20)?;
    rule(
        is_whole_at_most(header.constants, 2_097_152),
        BAD_LENGTH,
        24,
    )?;
    rule(
        is_whole_at_most(header.frame, most_frame(header.version)),
        BAD_LENGTH,
        28,
    )?;
    rule(is_count(header.version, header.places), BAD_LENGTH, 32)
}

// Refuses so many bytes where they don't end where their header says.
fn check_end(header: &Header, length: usize) -> Result<(), ImageFault>
    requires { asked header.now ≤ 4294967295 }
    ensures ended { IfOk result (λ _. length ≡ asked header.now) }
    ensures kept { IfOk result (λ _. first_of (end_rules header.now length) ≡ None) }
    ensures broken { ForErr result (λ e. Refuses e (first_of (end_rules header.now length))) }
{
    let asked = header.asked();
    rule(asked <= length, SHORT, length)?;
    rule(length == asked, TRAILING, asked)
}

// Whether this is the number of one of so many code words, and at least that.
fn is_next(words: u32, least: u32, word: u32) -> bool
    ensures { result ≡ is_next words least word }
{
    least <= word && word < words
}

// Refuses so many places from a byte on whose words don't rise or aren't numbers of so many code words.
fn check_places(bytes: &[u8], words: u32, from: usize, count: usize) -> Result<(), ImageFault>
    requires long { from + 12 * count ≤ length bytes.now }
    requires few { from + 12 * count ≤ 4294967295 }
    ensures kept { IfOk result (λ _. first_of (place_rules bytes.now words from 0 count) ≡ None) }
    ensures broken { ForErr result (λ e. Refuses e (first_of (place_rules bytes.now words from 0 count))) }
{
    let mut least = 0;
    for i in 0..count {
        let at = from + PLACE * i;
        let word = number_at(bytes, at);
        rule(is_next(words, least, word), BAD_PLACE, at)?;
        least = word + 1;
    }
    Ok(())
}

/// The header of bytes that keep all rules.
pub(crate) fn header_of(bytes: &[u8]) -> Result<Header, ImageFault>
    ensures said { IfOk result (λ h. h ≡ said bytes.now) }
    ensures ended { IfOk result (λ h. length bytes.now ≡ asked h) }
    ensures few { IfOk result (λ h. asked h ≤ 4294967295) }
    ensures kept { IfOk result (λ _. first_fault bytes.now ≡ None) }
    ensures broken { ForErr result (λ e. Refuses e (first_fault bytes.now)) }
{
    let header = said(bytes, version_of(bytes)?);
    check_said(&header)?;
    check_end(&header, bytes.len())?;
    check_places(
        bytes,
        header.words,
        header.first_place(),
        header.places as usize,
    )?;
    Ok(header)
}
