// Fields of bits in bytes, the most significant bit first, read and written at any place and width.
#![tactic(auto)]

ghost use Rattle.std.specs.Prelude.{◌≡◌, ◌+◌, ◌*◌, ◌^◌, ◌<◌, ◌≤◌, min, length};
ghost use Rattle.bits.specs.Field.{bit, field};
ghost use Rattle.bits.specs.Limits.{most_bits, most_signed_bits};
ghost use Rattle.bits.specs.Part.{part};
ghost use Rattle.bits.specs.Signed.{signed, InRange, StandsFor};

pub mod writing;

pub use writing::{write_field, write_signed};

/// The most bits that one field has.
pub const MOST_BITS: u32 = 64;

/// The most bits that one signed field has.
pub const MOST_SIGNED_BITS: u32 = 32;

// The bytes, a place and a width are plain parameters of all four: no fact joins them, and a struct would be made anew for each call.

/// The `width` bits from bit `start` on as a number, at most `MOST_BITS` of them; bits past the end are 0.
#[tactic(auto, using(crate::proofs::Fields::reads, crate::proofs::Parts::field_part))]
pub fn read_field(bytes: &[u8], start: u32, width: u32) -> u64
    ensures value { result ≡ field bytes.now start (min width most_bits) }
    ensures within { start + min width most_bits ≤ 8 * length bytes.now → result ≡ part bytes.now start (min width most_bits) }
    ensures small { result < 2 ^ min width most_bits }
{
    let width = width.min(MOST_BITS);
    let first = start as usize;
    // No `fold`: that the value fits rests on how many bits have been read.
    let mut value = 0;
    for at in first..first + width as usize {
        value = value * 2 + u64::from(read_bit(bytes, at));
    }
    value
}

/// The same field, at most `MOST_SIGNED_BITS` of it, read as two's complement of that width.
#[tactic(auto, using(crate::proofs::Signs::signed_in_range, crate::proofs::Fields::field_lt))]
pub fn read_signed(bytes: &[u8], start: u32, width: u32) -> i32
    ensures value { result ≡ signed (min width most_signed_bits) (field bytes.now start (min width most_signed_bits)) }
    ensures range { InRange (min width most_signed_bits) result }
    ensures stands { StandsFor (min width most_signed_bits) (field bytes.now start (min width most_signed_bits)) result }
{
    let width = width.min(MOST_SIGNED_BITS);
    sign_extended(read_field(bytes, start, width), width)
}

// The bit at a place, counted from the first bit of the first byte; 0 past the end.
#[tactic(auto, using(crate::proofs::Fields::reads))]
fn read_bit(bytes: &[u8], at: usize) -> u8
    ensures { result ≡ bit bytes.now at }
{
    bytes
        .get(at / 8)
        .map_or(0, |byte| (byte >> (7 - at % 8)) & 1)
}

// The number that `width` bits with the value `bits` stand for in two's complement.
#[tactic(auto, using(crate::proofs::Signs::lower_half))]
fn sign_extended(bits: u64, width: u32) -> i32
    requires { (bits < 2 ^ width) × (width ≤ most_signed_bits) }
    ensures { result ≡ signed width bits }
{
    let value = bits as i64;
    let modulus = 1i64 << width;
    if value * 2 < modulus {
        value as i32
    } else {
        (value - modulus) as i32
    }
}

#[cfg(test)]
mod tests;
