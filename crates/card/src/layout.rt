// Where the fields of a card stand; specs/Layout.antt has the same.

/// A run of bits: its first bit, counted from the start of the header or of its record, and how many there are.
#[derive(Clone, Copy)]
pub struct Field {
    pub start: u32,
    pub width: u32,
}

/// The edition of the format.
pub const EDITION: Field = Field { start: 0, width: 4 };

/// The number of steps less one.
pub const STEPS: Field = Field { start: 4, width: 6 };

/// The number of records.
pub const COUNT: Field = Field {
    start: 10,
    width: 10,
};

/// The spare bits, which are zero.
pub const SPARE: Field = Field {
    start: 20,
    width: 4,
};

/// The step that a record counts from.
pub const FROM: Field = Field { start: 0, width: 6 };

/// The step that a record counts to.
pub const TO: Field = Field { start: 6, width: 6 };

/// 1 where the lower end is present.
pub const LOWER_PRESENT: Field = Field {
    start: 12,
    width: 1,
};

/// 1 where the upper end is present.
pub const UPPER_PRESENT: Field = Field {
    start: 13,
    width: 1,
};

/// The lower end in two's complement; zero where it is absent.
pub const LOWER: Field = Field {
    start: 14,
    width: 21,
};

/// The upper end in two's complement; zero where it is absent.
pub const UPPER: Field = Field {
    start: 35,
    width: 21,
};

/// The only edition there is.
pub const EDITION_NUMBER: u64 = 1;

/// The first bit of the header.
pub const HEADER_START: u32 = 0;

/// The bits of the header; the first record begins behind them.
pub const HEADER_BITS: u32 = 24;

/// The bits of one record.
pub const RECORD_BITS: u32 = 56;

/// The bytes of the header.
pub const HEADER_BYTES: usize = HEADER_BITS as usize / 8;

/// The bytes of one record.
pub const RECORD_BYTES: usize = RECORD_BITS as usize / 8;
