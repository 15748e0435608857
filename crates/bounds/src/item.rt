// What stands at a place of a source.
ghost use Rattle.std.specs.Prelude.{◌≡◌};
ghost use Rattle.bounds.specs.DrawnIn.{drawn_in};
ghost use Rattle.bounds.specs.Faults.{no_such_place};
ghost use Rattle.bounds.specs.Rows.{row_item};
ghost use Rattle.bounds.specs.Told.{numbered};

use crate::bound::Bound;
use crate::fault::Fault;
use crate::row::Row;
use crate::told::{Reason, Told};

/// A bound, or the reason why the item is spoiled.
pub type Item = Result<Bound, Fault>;

impl Row {
    /// What the row says among so many steps: refused for a step that does not exist, then as `Bound::new` refuses.
    pub fn item(&self, steps: u16) -> Item
        ensures { result ≡ row_item steps self.now }
    {
        if self.from >= steps || self.to >= steps {
            return Err(Fault::NoSuchStep);
        }
        Bound::new(self)
    }
}

/// An item under a margin of so many seconds: a bound is drawn in at both ends, and a spoiled item stays as it is.
pub fn drawn_in(item: Item, seconds: u8) -> Item
    ensures { result ≡ drawn_in seconds item }
{
    item?.drawn_in(seconds)
}

/// The list of a source has no item at the place, or the place is above 511.
#[derive(Clone, Copy, PartialEq, Eq, Debug)]
pub struct NoSuchPlace;

impl NoSuchPlace {
    const NUMBER: u8 = 6;
}

impl Reason for NoSuchPlace {
    ghost told = { λ _. numbered no_such_place };

    fn told(&self) -> Told {
        Told::of(Self::NUMBER)
    }
}
