// How handed rows are read, each when it is asked for.
ghost use Rattle.std.specs.Prelude.{◌≡◌};
ghost use Rattle.bounds.specs.RowList.{rows_meaning};

use super::Rows;
use crate::item::{Item, NoSuchPlace};
use crate::limits::MOST_ITEMS;
use crate::row::Row;
use crate::source::Source;

impl<'a> Rows<'a> {
    /// The source of so many steps and of these rows. Nothing is tested yet.
    pub fn new(steps: u16, rows: &'a [Row]) -> Rows<'a>
        ensures { (result.steps ≡ steps) × (result.rows.now ≡ rows.now) }
    {
        Rows { steps, rows }
    }
}

impl<'a> Source for Rows<'a> {
    ghost meaning = { λ s. rows_meaning s.steps s.few s.rows.now };

    fn steps(&self) -> u16 {
        self.steps
    }

    fn count(&self) -> u16 {
        self.rows.len().min(MOST_ITEMS as usize + 1) as u16
    }

    fn item(&self, place: usize) -> Result<Item, NoSuchPlace> {
        if place >= MOST_ITEMS as usize {
            return Err(NoSuchPlace);
        }
        let row = self.rows.get(place).ok_or(NoSuchPlace)?;
        Ok(row.item(self.steps))
    }
}
