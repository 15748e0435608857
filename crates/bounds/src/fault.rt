// Why an item of a source is spoiled.
ghost use Rattle.bounds.specs.Faults.{fault_number};
ghost use Rattle.bounds.specs.Told.{numbered};

use crate::told::{Reason, Told};

/// Why a row or a card's record makes no bound.
#[derive(Clone, Copy, PartialEq, Eq, Debug)]
pub enum Fault {
    /// It names a step that is not below the number of steps.
    NoSuchStep,
    /// An end is beyond −1,000,000 to 1,000,000.
    OutOfReach,
    /// No end is present, or an absent end has a value other than 0.
    NoEnd,
}

impl Reason for Fault {
    ghost told = { λ fault. numbered (fault_number fault) };

    fn told(&self) -> Told {
        Told::of(match self {
            Fault::NoSuchStep => 3,
            Fault::OutOfReach => 4,
            Fault::NoEnd => 5,
        })
    }
}
