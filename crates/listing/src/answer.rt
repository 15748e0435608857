// What is printed for a card, and for any source.
ghost use Rattle.std.specs.Prelude.{◌≡◌};
ghost use Rattle.listing.specs.Answer.{CardAnswer, CardDecided, JobAnswer, JobDecided};
ghost use Rattle.listing.specs.declared.answer.NotListed.TheVariants.{Memory};

use crate::text::{listing, refusal_line};
use bounds::limits::MOST_STEPS;
use bounds::{Reason, Source};
use card::Card;
use network::{GroupEntry, Link, compile};
use std::alloc::{AllocError, Global};

// The most steps of a job, each with its entry in the table of groups.
const MOST_GROUPS: usize = MOST_STEPS as usize;

// The most distances: one for each pair of steps.
const MOST_DISTANCES: usize = MOST_GROUPS * MOST_GROUPS;

// The most links: two between any two groups.
const MOST_LINKS: usize = MOST_GROUPS * (MOST_GROUPS - 1);

/// Why there is no listing.
// No `Result` of the two: both are reasons.
#[derive(Drop)]
pub enum NotListed {
    /// The card or its job is refused, with the line that tells so.
    Refused(String),
    /// There is not enough memory for the text.
    Memory(AllocError),
}

impl From<AllocError> for NotListed {
    ghost from_gives = { λ error r. r ≡ Memory error };

    fn from(error: AllocError) -> NotListed {
        NotListed::Memory(error)
    }
}

/// The listing of the card in these bytes: its groups and links, unless it does not open or compile.
pub fn list_card(heap: Global, bytes: &[u8]) -> Result<String, NotListed>
    ensures answer { CardAnswer bytes.now result }
    ensures decided { CardDecided bytes.now result }
{
    match Card::open(bytes) {
        Ok(card) => list_source(heap, &card),
        Err(refusal) => {
            let line = refusal_line(heap, refusal.number(), None)?;
            Err(NotListed::Refused(line))
        }
    }
}

/// The listing of the bounds of a source: its groups and links, unless it does not compile.
pub fn list_source<S: Source>(heap: Global, source: &S) -> Result<String, NotListed>
    ensures answer { JobAnswer (S.meaning source.now) result }
    ensures decided { JobDecided (S.meaning source.now) result }
{
    let mut distances = [0; MOST_DISTANCES];
    let mut groups = [GroupEntry::default(); MOST_GROUPS];
    let mut links = [Link::default(); MOST_LINKS];
    match compile(source, &mut distances, &mut groups, &mut links) {
        Ok(compiled) => {
            let steps = source.steps() as usize;
            let kept = compiled.links;
            Ok(listing(heap, &groups[0..steps], &links[0..kept])?)
        }
        Err(refusal) => {
            let line = refusal_line(heap, refusal.number(), refusal.place())?;
            Err(NotListed::Refused(line))
        }
    }
}
