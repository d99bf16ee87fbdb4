//! The generator of random numbers.

ghost use Rattle.std.specs.Prelude.{◌≡◌};
ghost use Rattle.bulk_text.specs.Bulk.{next, drawn};

use std::marker::Model;

/// A linear congruential generator of 64 bits.
#[derive(Drop)]
pub(crate) struct Generator {
    x: u64,
}

impl Model for Generator {
    ghost use Rattle.std.specs.Prelude.{ℕ};

    ghost Value = { ℕ };

    ghost view = { λ g. g.x };
}

impl Generator {
    /// One that starts at a seed.
    pub(crate) fn new(seed: u64) -> Self
        ensures { result ≡ seed }
    {
        Generator { x: seed }
    }

    /// The upper 31 bits of the next number.
    pub(crate) fn draw(&mut self) -> u64
        ensures next { self.new ≡ next self.old }
        ensures drawn { result ≡ drawn (next self.old) }
    {
        self.x = self
            .x
            .wrapping_mul(6_364_136_223_846_793_005)
            .wrapping_add(1_442_695_040_888_963_407);
        self.x >> 33
    }
}
