// The limits of the part, each by its name; specs/Limits.antt has the same.

/// No time is later, and no end of a bound lies further from 0.
pub const HORIZON: i32 = 1_000_000;

/// No more steps are compiled.
pub const MOST_STEPS: u16 = 64;

/// No more items of a source are counted or read.
pub const MOST_ITEMS: u16 = 512;
