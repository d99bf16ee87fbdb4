//! Lists that contracts see as the lists of their items.

ghost use Rattle.std.specs.Prelude.{◌≡◌, List, ℕ};

use crate::image::ProcPlace;
use std::marker::Model;

/// Code words.
#[derive(Drop)]
pub struct Words {
    items: Vec<u32>,
}

impl Model for Words {
    ghost Value = { List ℕ };

    ghost view = { λ w. w.items.items };
}

impl Words {
    /// These words.
    pub fn new(items: Vec<u32>) -> Self
        ensures { result ≡ items.items }
    {
        Words { items }
    }

    /// The words, lent.
    pub fn as_slice(&self) -> &[u32]
        ensures { result.now ≡ self.now }
    {
        self.items.as_slice()
    }

    /// The words, given back.
    pub fn into_vec(self) -> Vec<u32>
        ensures { result.items ≡ self }
    {
        let Words { items } = self;
        items
    }
}

/// Bytes.
#[derive(Drop)]
pub struct Bytes {
    items: Vec<u8>,
}

impl Model for Bytes {
    ghost Value = { List ℕ };

    ghost view = { λ b. b.items.items };
}

impl Bytes {
    /// These bytes.
    pub fn new(items: Vec<u8>) -> Self
        ensures { result ≡ items.items }
    {
        Bytes { items }
    }

    /// The bytes, lent.
    pub fn as_slice(&self) -> &[u8]
        ensures { result.now ≡ self.now }
    {
        self.items.as_slice()
    }

    /// The bytes, given back.
    pub fn into_vec(self) -> Vec<u8>
        ensures { result.items ≡ self }
    {
        let Bytes { items } = self;
        items
    }
}

/// Places of procedures.
#[derive(Drop)]
pub struct ProcPlaces {
    items: Vec<ProcPlace>,
}

impl Model for ProcPlaces {
    ghost use Rattle.std.specs.Prelude.{List};
    ghost use Rattle.image_form.specs.declared.image.ProcPlace.{ProcPlace};

    ghost Value = { List ProcPlace };

    ghost view = { λ p. p.items.items };
}

impl ProcPlaces {
    /// These places.
    pub fn new(items: Vec<ProcPlace>) -> Self
        ensures { result ≡ items.items }
    {
        ProcPlaces { items }
    }

    /// The places, lent.
    pub fn as_slice(&self) -> &[ProcPlace]
        ensures { result.now ≡ self.now }
    {
        self.items.as_slice()
    }

    /// The places, given back.
    pub fn into_vec(self) -> Vec<ProcPlace>
        ensures { result.items ≡ self }
    {
        let ProcPlaces { items } = self;
        items
    }
}
