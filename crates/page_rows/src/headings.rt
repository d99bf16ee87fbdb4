//! The headings of procedures.

ghost use Rattle.std.specs.Prelude.{◌≡◌, ◌++◌, map, length, OnOk};
ghost use Rattle.page_parts.specs.Sources.{line_starts};
ghost use Rattle.page_rows.specs.Headings.{heading_at, lines_at, place_at, text_at};

use image_form::ProcPlace;
use items::Items;
use page_parts::{SourceText, next_heading, put_heading, put_source};
use std::alloc::{AllocError, Global};

/// The texts of modules, the places where their lines begin, and where the procedures stand.
#[derive(Clone, Copy)]
pub struct Sources<'a> {
    pub texts: &'a [Items<u8>],
    pub starts: &'a [Vec<usize>],
    pub places: &'a [ProcPlace],
    ghost are: { map (λ v. v.items) starts.now ≡ map line_starts texts.now },
}

// Where the procedure of this number stands.
pub(crate) fn place_at(places: &[ProcPlace], number: usize) -> ProcPlace
    ensures { result ≡ place_at places.now number }
{
    match places.get(number) {
        Some(place) => *place,
        None => ProcPlace {
            word: 0,
            module: 0,
            line: 0,
        },
    }
}

impl<'a> Sources<'a> {
    /// Texts, the places where their lines begin, and where the procedures stand.
    pub fn new(texts: &'a [Items<u8>], starts: &'a [Vec<usize>], places: &'a [ProcPlace]) -> Self
        requires { map (λ v. v.items) starts.now ≡ map line_starts texts.now }
        ensures texts { result.texts.now ≡ texts.now }
        ensures places { result.places.now ≡ places.now }
    {
        Sources {
            texts,
            starts,
            places,
        }
    }

    // The text of a module.
    fn text_at(&self, number: u32) -> SourceText<'a>
        ensures { result.bytes.now ≡ text_at self.now.texts.now number }
    {
        let number = number as usize;
        if number >= self.texts.len() || number >= self.starts.len() {
            return SourceText::new(&[], &[]);
        }
        SourceText::new(
            self.texts[number].as_slice(),
            self.starts[number].as_slice(),
        )
    }

    // Appends the heading of the procedure at a place.
    #[tactic(auto, unfolding(crate::specs::Headings::heading_at))]
    pub(crate) fn put_heading(&self, text: &mut Vec<u8>, place: ProcPlace) -> Result<(), AllocError>
        ensures { OnOk result (text.new.items ≡ text.old.items ++ heading_at self.now.texts.now place) }
    {
        put_heading(text, &self.text_at(place.module), place.line as usize)
    }

    // Appends the lines of the procedure at a place.
    #[tactic(auto, unfolding(crate::specs::Headings::lines_at))]
    pub(crate) fn put_lines(
        &self,
        alloc: Global,
        text: &mut Vec<u8>,
        place: ProcPlace,
    ) -> Result<(), AllocError>
        ensures { OnOk result (text.new.items ≡ text.old.items ++ lines_at self.now.texts.now self.now.places.now place) }
    {
        let source = self.text_at(place.module);
        let first = place.line as usize;
        let behind = next_heading(self.places, place.module, first, source.behind_all());
        put_source(alloc, text, &source, first, behind)
    }
}
