// Rows that were handed over, as a source.
ghost use Rattle.std.specs.Prelude.{◌^◌, ◌<◌};

use crate::row::Row;

pub mod read;

/// A source that makes its items from handed rows. A row is tested when its item is read.
#[derive(Clone, Copy)]
pub struct Rows<'a> {
    steps: u16,
    rows: &'a [Row],
    ghost few: { steps < 2 ^ 16 },
}
