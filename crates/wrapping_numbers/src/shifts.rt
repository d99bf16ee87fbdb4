//! Shifts and turns, by an amount modulo 64.

ghost use Rattle.std.specs.Prelude.{◌≡◌};
ghost use Rattle.wrapping_numbers.specs.Shifts.{lsl64, lsr64, asr64, ror64};

/// The value shifted to the left, zeros in.
pub fn lsl(value: u64, by: u64) -> u64
    ensures { result ≡ lsl64 value by }
{
    value << (by % 64)
}

/// The value shifted to the right, zeros in.
pub fn lsr(value: u64, by: u64) -> u64
    ensures { result ≡ lsr64 value by }
{
    value >> (by % 64)
}

/// The value shifted to the right, signs in.
pub fn asr(value: u64, by: u64) -> u64
    ensures { result ≡ asr64 value by }
{
    (value.cast_signed() >> (by % 64)).cast_unsigned()
}

/// The value turned to the right.
pub fn ror(value: u64, by: u64) -> u64
    ensures { result ≡ ror64 value by }
{
    value.rotate_right((by % 64) as u32)
}
