// Why bytes do not open as a card, and why a source is not written as one.
ghost use Rattle.std.specs.Prelude.{◌≡◌};
ghost use Rattle.bounds.specs.Told.{numbered};
ghost use Rattle.card.specs.Refusals.{refusal_number, told_rewrite, told_write};
ghost use Rattle.card.specs.declared.refusal.RewriteRefusal.TheVariants.{Open, Write};

use bounds::{Reason, SpoiledItem, Told};

/// Why bytes are no card.
#[derive(Clone, Copy, PartialEq, Eq, Debug)]
pub enum CardRefusal {
    /// There are not as many bytes as the header and its records take.
    Length,
    /// The edition is not 1, the spare bits are not zero, or there are more than 512 records.
    Header,
}

impl Reason for CardRefusal {
    ghost told = { λ refusal. numbered (refusal_number refusal) };

    fn told(&self) -> Told {
        Told::of(match self {
            CardRefusal::Length => 1,
            CardRefusal::Header => 2,
        })
    }
}

/// The reasons of `write_card`, in the order in which it tests for them.
#[derive(Clone, Copy, PartialEq, Eq, Debug)]
pub enum WriteRefusal {
    /// There is no step, or there are more than 64 steps or 512 items.
    Limits,
    /// There are fewer bytes than the card takes.
    Room,
    /// The first spoiled item.
    Spoiled(SpoiledItem),
}

impl Reason for WriteRefusal {
    ghost told = { told_write };

    fn told(&self) -> Told {
        match self {
            WriteRefusal::Limits => Told::of(7),
            WriteRefusal::Room => Told::of(8),
            WriteRefusal::Spoiled(item) => item.told(),
        }
    }
}

/// The reasons of `rewrite`.
// No `Result` of the two: both are refusals.
#[derive(Clone, Copy, PartialEq, Eq, Debug)]
pub enum RewriteRefusal {
    /// The bytes do not open as a card.
    Open(CardRefusal),
    /// The card is not written.
    Write(WriteRefusal),
}

impl Reason for RewriteRefusal {
    ghost told = { told_rewrite };

    fn told(&self) -> Told {
        match self {
            RewriteRefusal::Open(refusal) => refusal.told(),
            RewriteRefusal::Write(refusal) => refusal.told(),
        }
    }
}

impl From<CardRefusal> for RewriteRefusal {
    ghost from_gives = { λ refusal r. r ≡ Open refusal };

    fn from(refusal: CardRefusal) -> RewriteRefusal {
        Self::Open(refusal)
    }
}

impl From<WriteRefusal> for RewriteRefusal {
    ghost from_gives = { λ refusal r. r ≡ Write refusal };

    fn from(refusal: WriteRefusal) -> RewriteRefusal {
        Self::Write(refusal)
    }
}
