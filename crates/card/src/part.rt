// A part of a card, its header or one of its records: it begins at a bit of bytes.
ghost use Rattle.std.specs.Prelude.{◌≡◌, ℕ, ◌+◌, ◌*◌, ◌^◌, ◌<◌, ◌≤◌, List, length, pos, unwrap_or};
ghost use Rattle.std.specs.Option.{option_len};
ghost use Rattle.bits.specs.Limits.{most_bits, most_signed_bits};
ghost use Rattle.bits.specs.Signed.{unsigned};
ghost use Rattle.bits.specs.Wrote.{KeptOutside, Wrote};
ghost use Rattle.bounds.specs.Limits.{most_items, most_steps};
ghost use Rattle.card.specs.Records.{bound_row};
ghost use Rattle.card.specs.Layout.{
  Placed,
  bits_at,
  count_field,
  end_at,
  header_bits,
  header_start,
  is_set_at,
  record_bits,
  row_at,
  signed_at,
  steps_field,
};

use crate::layout::{
    COUNT, FROM, Field, HEADER_BITS, HEADER_START, LOWER, LOWER_PRESENT, RECORD_BITS, STEPS, TO,
    UPPER, UPPER_PRESENT,
};
use bits::{read_field, read_signed, write_field, write_signed};
use bounds::{Bound, LooseEnd, Row};

/// The header or a record, in bytes that are read or written.
#[derive(Drop)]
pub(crate) struct Part<B> {
    bytes: B,
    start: u32,
    // each of its fields begins at a bit that a u32 can number
    ghost near: { start < 2 ^ 31 },
}

impl<B> Part<B> {
    /// The header.
    pub(crate) fn header(bytes: B) -> Part<B>
        ensures bytes { result.bytes ≡ bytes }
        ensures start { result.start ≡ header_start }
    {
        Part {
            bytes,
            start: HEADER_START,
        }
    }

    /// The record of the item at a place.
    pub(crate) fn record(bytes: B, place: usize) -> Part<B>
        requires { place < most_items }
        ensures bytes { result.bytes ≡ bytes }
        ensures start { result.start ≡ header_bits + record_bits * place }
    {
        Part {
            bytes,
            start: HEADER_BITS + RECORD_BITS * place as u32,
        }
    }
}

// `Placed` is asked of each field: `Field` is public, and a fact in its type would ask more of whoever makes one.
impl Part<&[u8]> {
    /// A field as a number.
    pub(crate) fn number(&self, field: Field) -> u64
        requires { Placed most_bits field }
        ensures value { result ≡ bits_at self.now.bytes.now self.now.start field }
        ensures small { result < 2 ^ field.width }
    {
        read_field(self.bytes, self.start + field.start, field.width)
    }

    // A field in two's complement of its width.
    fn signed(&self, field: Field) -> i32
        requires { Placed most_signed_bits field }
        ensures { result ≡ signed_at self.now.bytes.now self.now.start field }
    {
        read_signed(self.bytes, self.start + field.start, field.width)
    }

    // Whether a field is 1.
    fn is_set(&self, field: Field) -> bool
        requires { Placed most_bits field }
        ensures { result ≡ is_set_at self.now.bytes.now self.now.start field }
    {
        self.number(field) == 1
    }

    // One end: present where its mark is 1.
    fn end(&self, mark: Field, end: Field) -> LooseEnd
        requires { Placed most_bits mark × Placed most_signed_bits end }
        ensures { result ≡ end_at self.now.bytes.now self.now.start mark end }
    {
        let seconds = self.signed(end);
        if self.is_set(mark) {
            LooseEnd::Present(seconds)
        } else {
            LooseEnd::Absent(seconds)
        }
    }

    /// The number of steps, of a header.
    pub(crate) fn steps(&self) -> u16
        ensures { result ≡ bits_at self.now.bytes.now self.now.start steps_field + 1 }
    {
        self.number(STEPS) as u16 + 1
    }

    /// The number of records, of a header.
    pub(crate) fn count(&self) -> u16
        ensures { result ≡ bits_at self.now.bytes.now self.now.start count_field }
    {
        self.number(COUNT) as u16
    }

    /// What a record says.
    pub(crate) fn row(&self) -> Row
        ensures { result ≡ row_at self.now.bytes.now self.now.start }
    {
        Row {
            from: self.number(FROM) as u16,
            to: self.number(TO) as u16,
            lower: self.end(LOWER_PRESENT, LOWER),
            upper: self.end(UPPER_PRESENT, UPPER),
        }
    }
}

// What each write leaves, the same start in the same bytes, is said of the call, and is no fact of a part.
impl Part<&mut [u8]> {
    /// Writes a field.
    pub(crate) fn put(&mut self, field: Field, value: u64)
        requires { Placed most_bits field }
        ensures wrote { Wrote self.old.bytes.now self.new.bytes.now (self.old.start + field.start) field.width value }
        ensures start { self.new.start ≡ self.old.start }
        ensures same { self.new.bytes.ghost_name ≡ self.old.bytes.ghost_name }
    {
        write_field(self.bytes, self.start + field.start, field.width, value);
    }

    // Writes a field in two's complement of its width.
    fn put_signed(&mut self, field: Field, value: i32)
        requires { Placed most_signed_bits field }
        ensures wrote { Wrote self.old.bytes.now self.new.bytes.now (self.old.start + field.start) field.width (unsigned field.width value) }
        ensures start { self.new.start ≡ self.old.start }
        ensures same { self.new.bytes.ghost_name ≡ self.old.bytes.ghost_name }
    {
        write_signed(self.bytes, self.start + field.start, field.width, value);
    }

    // Writes one end: its mark, and its value or 0.
    fn put_end(&mut self, mark: Field, field: Field, end: Option<i32>)
        requires { Placed most_bits mark × Placed most_signed_bits field }
        ensures wrote { (mid : List ℕ) × Wrote self.old.bytes.now mid (self.old.start + mark.start) mark.width (option_len end) × Wrote mid self.new.bytes.now (self.old.start + field.start) field.width (unsigned field.width (unwrap_or end (pos 0))) }
        ensures start { self.new.start ≡ self.old.start }
        ensures same { self.new.bytes.ghost_name ≡ self.old.bytes.ghost_name }
    {
        self.put(mark, u64::from(end.is_some()));
        self.put_signed(field, end.unwrap_or(0));
    }

    /// Writes a record.
    pub(crate) fn put_bound(&mut self, bound: &Bound)
        requires steps { (bound.now.from < most_steps) × (bound.now.to < most_steps) }
        requires room { self.old.start + record_bits ≤ 8 * length self.old.bytes.now }
        ensures kept { KeptOutside self.old.bytes.now self.new.bytes.now self.old.start (self.old.start + record_bits) }
        ensures row { row_at self.new.bytes.now self.old.start ≡ bound_row bound.now }
        ensures same { self.new.bytes.ghost_name ≡ self.old.bytes.ghost_name }
    {
        self.put(FROM, u64::from(bound.from_step()));
        self.put(TO, u64::from(bound.to_step()));
        self.put_end(LOWER_PRESENT, LOWER, bound.lower_end());
        self.put_end(UPPER_PRESENT, UPPER, bound.upper_end());
    }
}
