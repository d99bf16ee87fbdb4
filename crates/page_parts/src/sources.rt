//! Lines of texts.

ghost use Rattle.std.specs.Prelude.{◌≡◌, take, drop, ◌-◌, length, IfOk};
ghost use Rattle.page_parts.specs.Sources.{behind_all, begins_between, line_starts, lines_between, next_heading, part, start_of};

use image_form::ProcPlace;
use std::alloc::{AllocError, Global};

/// Where the lines of a text begin. Takes time in proportion to the text.
pub fn line_starts(alloc: Global, text: &[u8]) -> Result<Vec<usize>, AllocError>
    ensures { IfOk result (λ starts. starts.items ≡ line_starts text.now) }
{
    let mut starts = Vec::new(alloc);
    let mut fresh = true;
    for (at, byte) in text.iter().enumerate() {
        if fresh {
            starts.push(at)?;
        }
        fresh = *byte == b'\n';
    }
    Ok(starts)
}

/// A text, with the places where its lines begin.
#[derive(Clone, Copy)]
pub struct SourceText<'a> {
    pub bytes: &'a [u8],
    pub starts: &'a [usize],
    ghost are: { starts.now ≡ line_starts bytes.now },
}

// The bytes from one place to before another.
fn part(text: &[u8], from: usize, to: usize) -> &[u8]
    ensures { result.now ≡ part text.now from to }
{
    let to = to.min(text.len());
    if from < to { &text[from..to] } else { &[] }
}

impl<'a> SourceText<'a> {
    /// A text, with the places where its lines begin.
    pub fn new(bytes: &'a [u8], starts: &'a [usize]) -> Self
        requires { starts.now ≡ line_starts bytes.now }
        ensures { result.bytes.now ≡ bytes.now }
    {
        SourceText { bytes, starts }
    }

    // Where the line of this number begins.
    fn start_of(&self, line: usize) -> usize
        ensures { result ≡ start_of self.now.bytes.now line }
    {
        match self.starts.get(line.saturating_sub(1)) {
            Some(at) => *at,
            None => self.bytes.len(),
        }
    }

    /// The lines from this one, counted from 1, to before that one.
    pub(crate) fn lines_between(&self, first: usize, behind: usize) -> &'a [u8]
        ensures { result.now ≡ lines_between self.now.bytes.now first behind }
    {
        part(self.bytes, self.start_of(first), self.start_of(behind))
    }

    /// The number behind those of all lines.
    pub fn behind_all(&self) -> usize
        ensures { result ≡ behind_all self.now.bytes.now }
    {
        self.starts.len() + 1
    }
}

// Whether a procedure of this module has its heading behind this line, and before that one.
fn begins_between(own: u32, line: usize, least: usize, place: ProcPlace) -> bool
    ensures { result ≡ begins_between own line least place }
{
    let heading = place.line as usize;
    place.module == own && line < heading && heading < least
}

/// The first line behind this one that is a heading of a procedure of the module, or `least`, where none stands before it. Takes
/// time in proportion to the places.
pub fn next_heading(places: &[ProcPlace], own: u32, line: usize, least: usize) -> usize
    ensures { result ≡ next_heading places.now own line least }
{
    let mut next = least;
    for place in places {
        if begins_between(own, line, next, *place) {
            next = place.line as usize;
        }
    }
    next
}
