// What is asked of any source before it is read as a whole.
ghost use Rattle.std.specs.Prelude.{◌≡◌};
ghost use Rattle.bounds.specs.Spoiled.{first_spoiled, readable};
ghost use Rattle.bounds.specs.Told.{beyond_limits, told_spoiled};

use crate::fault::Fault;
use crate::limits::{MOST_ITEMS, MOST_STEPS};
use crate::source::Source;
use crate::told::{Reason, Told};

/// A spoiled item: its place in the list, and what is wrong with it.
#[derive(Clone, Copy, PartialEq, Eq, Debug)]
pub struct SpoiledItem {
    pub place: usize,
    pub fault: Fault,
}

impl Reason for SpoiledItem {
    ghost told = { told_spoiled };

    fn told(&self) -> Told {
        Told {
            number: self.fault.number(),
            place: Some(self.place),
        }
    }
}

/// Whether a source has no step, or more steps or items than are compiled.
pub fn beyond_limits<S: Source>(source: &S) -> bool
    ensures { result ≡ beyond_limits (S.meaning source.now) }
{
    let steps = source.steps();
    steps == 0 || steps > MOST_STEPS || source.count() > MOST_ITEMS
}

/// The first spoiled item among those that can be read.
pub fn first_spoiled<S: Source>(source: &S) -> Option<SpoiledItem>
    ensures { result ≡ first_spoiled 0 (readable (S.meaning source.now).items) }
{
    for (place, item) in source.items() {
        if let Err(fault) = item {
            return Some(SpoiledItem { place, fault });
        }
    }
    None
}
