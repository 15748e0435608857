// Two sources as one: the items of the first, then those of the second.
ghost use Rattle.std.specs.Prelude.{◌≡◌};
ghost use Rattle.bounds.specs.Joined.{joined_meaning};

use crate::item::{Item, NoSuchPlace};
use crate::limits::MOST_ITEMS;
use crate::source::Source;

/// A source made of two: the larger number of steps, and one list after the other.
#[derive(Clone, Copy, Drop)]
pub struct Joined<A, B> {
    first: A,
    second: B,
}

impl<A, B> Joined<A, B> {
    /// Joins two sources of any kind.
    pub fn new(first: A, second: B) -> Joined<A, B>
        ensures { (result.first ≡ first) × (result.second ≡ second) }
    {
        Joined { first, second }
    }
}

impl<A: Source, B: Source> Source for Joined<A, B> {
    ghost meaning = { λ s. joined_meaning (A.Source.meaning s.first) (B.Source.meaning s.second) };

    fn steps(&self) -> u16 {
        self.first.steps().max(self.second.steps())
    }

    fn count(&self) -> u16 {
        let both = self.first.count() + self.second.count();
        both.min(MOST_ITEMS + 1)
    }

    fn item(&self, place: usize) -> Result<Item, NoSuchPlace> {
        if place >= MOST_ITEMS as usize {
            return Err(NoSuchPlace);
        }
        // The count of a longer list stops at 513, which is past every place that is read.
        let first = self.first.count() as usize;
        if place < first {
            self.first.item(place)
        } else {
            self.second.item(place - first)
        }
    }
}
