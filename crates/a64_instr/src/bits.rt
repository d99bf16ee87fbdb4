//! Numbers of so many bits.

ghost use Rattle.std.specs.Prelude.{◌≡◌, ℕ, ◌<◌, ◌^◌};

use std::marker::Model;

/// A number below 2 to the power of `N`: an instruction's field of `N` bits. Contracts see the number.
#[derive(Clone, Copy)]
pub struct Bits<const N: u32> {
    value: u32,
}

impl<const N: u32> Model for Bits<N> {
    ghost Value = { ℕ };

    ghost view = { λ b. b.value };

    ghost invariant = { λ b. b.value < 2 ^ N };

    ghost inverse = { λ n. record { value = n } };
}

impl<const N: u32> Bits<N> {
    /// The field with this number.
    pub fn new(value: u32) -> Self
        requires { value < 2 ^ N }
        ensures { result ≡ value }
    {
        Bits { value }
    }

    /// The number of the field.
    pub fn get(self) -> u32
        ensures same { result ≡ self.entry }
        ensures fits { result < 2 ^ N }
    {
        self.value
    }
}
