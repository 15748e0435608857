// Why a call on a run is refused, or why no run is opened.
ghost use Rattle.bounds.specs.Told.{numbered};
ghost use Rattle.pacer.specs.Refusals.{cue_number, no_such_step, open_number, too_short, wait_number};

use bounds::{Reason, Told};

/// The reasons of `Run::open`, in the order in which it tests for them.
#[derive(Clone, Copy, PartialEq, Eq, Debug)]
pub enum OpenRefusal {
    /// There is no step, or there are more than 64.
    Limits,
    /// A table is too short, or its entries do not fit together.
    Tables,
}

impl Reason for OpenRefusal {
    ghost told = { λ refusal. numbered (open_number refusal) };

    fn told(&self) -> Told {
        Told::of(match self {
            OpenRefusal::Limits => 7,
            OpenRefusal::Tables => 8,
        })
    }
}

/// The reasons of `Run::cue`, in the order in which it tests for them.
#[derive(Clone, Copy, PartialEq, Eq, Debug)]
pub enum CueRefusal {
    /// There is no such step.
    NoSuchStep,
    /// The step is cued already.
    Cued,
    /// The time is before now.
    Past,
    /// The time is after the upper end of some uncued step.
    Late,
    /// The step's group is open, and the step is not its leader's equal in time, or the group waits for another open one.
    NotReady,
    /// The time is before the step's lower end, or before its time in a fixed group.
    Early,
}

impl Reason for CueRefusal {
    ghost told = { λ refusal. numbered (cue_number refusal) };

    fn told(&self) -> Told {
        Told::of(match self {
            CueRefusal::NoSuchStep => 10,
            CueRefusal::Cued => 11,
            CueRefusal::Past => 12,
            CueRefusal::Late => 13,
            CueRefusal::NotReady => 14,
            CueRefusal::Early => 15,
        })
    }
}

/// The reasons of `Run::wait`, in the order in which it tests for them.
#[derive(Clone, Copy, PartialEq, Eq, Debug)]
pub enum WaitRefusal {
    /// Every step is cued.
    AllCued,
    /// The time is before now.
    Past,
    /// The time is after the upper end of some uncued step.
    Late,
}

impl Reason for WaitRefusal {
    ghost told = { λ refusal. numbered (wait_number refusal) };

    fn told(&self) -> Told {
        Told::of(match self {
            WaitRefusal::AllCued => 16,
            WaitRefusal::Past => 12,
            WaitRefusal::Late => 13,
        })
    }
}

/// The one reason of `Run::look`: there is no such step.
#[derive(Clone, Copy, PartialEq, Eq, Debug)]
pub struct NoSuchStep;

impl NoSuchStep {
    const NUMBER: u8 = 10;
}

impl Reason for NoSuchStep {
    ghost told = { λ _. numbered no_such_step };

    fn told(&self) -> Told {
        Told::of(Self::NUMBER)
    }
}

/// The one reason of `Run::list`: the buffer is too short.
#[derive(Clone, Copy, PartialEq, Eq, Debug)]
pub struct Short;

impl Short {
    const NUMBER: u8 = 8;
}

impl Reason for Short {
    ghost told = { λ _. numbered too_short };

    fn told(&self) -> Told {
        Told::of(Self::NUMBER)
    }
}
