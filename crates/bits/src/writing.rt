// Fields of bits written into bytes, at any place and width.
ghost use Rattle.std.specs.Prelude.{◌≡◌, ◌+◌, ◌*◌, ◌^◌, ◌<◌, ◌≤◌, min, length};
ghost use Rattle.bits.specs.Field.{field};
ghost use Rattle.bits.specs.Limits.{most_bits, most_signed_bits};
ghost use Rattle.bits.specs.Signed.{signed, unsigned, InRange};
ghost use Rattle.bits.specs.Wrote.{Wrote};

use super::{MOST_BITS, MOST_SIGNED_BITS, read_bit};

/// Sets the `width` bits from bit `start` on, at most `MOST_BITS` of them, to the low bits of `value`; bits past the end are left out.
#[tactic(auto, using(crate::proofs::Writes::bit_by_bit))]
pub fn write_field(bytes: &mut [u8], start: u32, width: u32, value: u64)
    ensures { Wrote bytes.old bytes.new start (min width most_bits) value }
{
    let width = width.min(MOST_BITS);
    // Each turn changes the bytes, which the closure of a chain would have to capture.
    for i in 0..width {
        let bit = ((value >> (width - 1 - i)) & 1) as u8;
        write_bit(bytes, start as usize + i as usize, bit);
    }
}

/// Sets the same bits, at most `MOST_SIGNED_BITS` of them, to `value` in two's complement of that width.
pub fn write_signed(bytes: &mut [u8], start: u32, width: u32, value: i32)
    ensures wrote { Wrote bytes.old bytes.new start (min width most_signed_bits) (unsigned (min width most_signed_bits) value) }
    ensures again { InRange (min width most_signed_bits) value → start + min width most_signed_bits ≤ 8 * length bytes.old → signed (min width most_signed_bits) (field bytes.new start (min width most_signed_bits)) ≡ value }
{
    let width = width.min(MOST_SIGNED_BITS);
    write_field(bytes, start, width, unsigned_bits(value, width));
}

// The `width` bits of a number in two's complement.
fn unsigned_bits(value: i32, width: u32) -> u64
    requires { width ≤ most_signed_bits }
    ensures { result ≡ unsigned width value }
{
    i64::from(value).rem_euclid(1i64 << width) as u64
}

// Sets the bit at a place to 0 or 1; past the end it does nothing.
#[tactic(auto, using(crate::proofs::Writes::wrote_kept))]
fn write_bit(bytes: &mut [u8], at: usize, value: u8)
    requires { value < 2 }
    ensures { Wrote bytes.old bytes.new at 1 value }
{
    let index = at / 8;
    // By its index: after a slice's `get_mut` nothing is known of the elements.
    if index < bytes.len() && read_bit(bytes, at) != value {
        bytes[index] ^= 1 << (7 - at % 8);
    }
}
