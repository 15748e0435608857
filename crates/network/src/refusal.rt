// Why a source is not compiled.
ghost use Rattle.std.specs.Prelude.{◌≡◌};
ghost use Rattle.network.specs.Refusals.{told};
ghost use Rattle.network.specs.declared.refusal.Refusal.TheVariants.{Tables};

use bounds::{Reason, SpoiledItem, Told};
use queue::Full;

/// The reasons of `compile`, in the order in which it tests for them.
#[derive(Clone, Copy, PartialEq, Eq, Debug)]
pub enum Refusal {
    /// There is no step, or there are more than 64 steps or 512 items.
    Limits,
    /// A table is too short.
    Tables,
    /// The first spoiled item.
    Spoiled(SpoiledItem),
    /// No timetable keeps every bound.
    NoTimetable,
}

impl Reason for Refusal {
    ghost told = { told };

    fn told(&self) -> Told {
        match self {
            Refusal::Limits => Told::of(7),
            Refusal::Tables => Told::of(8),
            Refusal::Spoiled(item) => item.told(),
            Refusal::NoTimetable => Told::of(9),
        }
    }
}

// No slot is left for a link.
impl From<Full> for Refusal {
    ghost from_gives = { λ _ r. r ≡ Tables };

    fn from(_full: Full) -> Refusal {
        Refusal::Tables
    }
}
