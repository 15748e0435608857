// A card over lent bytes: its header is tested when it is opened, and a record when its item is read.
ghost use Rattle.std.specs.Prelude.{◌≡◌, Some, None, MatchResult};
ghost use Rattle.card.specs.Meaning.{card_meaning};
ghost use Rattle.card.specs.Opening.{open_refusal};
ghost use Rattle.card.specs.Refusals.{refusal_number};

use crate::layout::{EDITION, EDITION_NUMBER, HEADER_BYTES, RECORD_BYTES, SPARE};
use crate::part::Part;
use crate::refusal::CardRefusal;
use bounds::limits::MOST_ITEMS;
use bounds::{Item, NoSuchPlace, Source};

/// A source that reads its items from lent bytes.
#[derive(Clone, Copy)]
pub struct Card<'a> {
    bytes: &'a [u8],
}

impl<'a> Card<'a> {
    /// Opens bytes as a card. Refuses fewer bytes than a header, then a wrong header, then a length that its records do not make.
    pub fn open(bytes: &'a [u8]) -> Result<Card<'a>, CardRefusal>
        ensures { MatchResult result (λ card. (open_refusal bytes.now ≡ None) × (card.bytes.now ≡ bytes.now)) (λ e. open_refusal bytes.now ≡ Some (refusal_number e)) }
    {
        if bytes.len() < HEADER_BYTES {
            return Err(CardRefusal::Length);
        }
        let header = Part::header(bytes);
        let count = header.count();
        if header.number(EDITION) != EDITION_NUMBER
            || header.number(SPARE) != 0
            || count > MOST_ITEMS
        {
            return Err(CardRefusal::Header);
        }
        if bytes.len() != HEADER_BYTES + RECORD_BYTES * count as usize {
            return Err(CardRefusal::Length);
        }
        Ok(Card { bytes })
    }
}

impl<'a> Source for Card<'a> {
    ghost meaning = { λ s. card_meaning s.bytes.now };

    fn steps(&self) -> u16 {
        Part::header(self.bytes).steps()
    }

    #[tactic(auto, using(crate::proofs::Listing::length_items))]
    fn count(&self) -> u16 {
        Part::header(self.bytes).count().min(MOST_ITEMS + 1)
    }

    #[tactic(auto, using(crate::proofs::Listing::read_no_item))]
    fn item(&self, place: usize) -> Result<Item, NoSuchPlace> {
        let count = Part::header(self.bytes).count();
        if place < MOST_ITEMS as usize && place < count as usize {
            let record = Part::record(self.bytes, place);
            Ok(record.row().item(self.steps()))
        } else {
            Err(NoSuchPlace)
        }
    }
}
