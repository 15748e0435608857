// What the examples are made of: cards, rows, links, due entries, and what stands in tables and slots before.
ghost use Rattle.std.specs.Prelude.{◌≡◌};
ghost use Rattle.bounds.specs.declared.row.LooseEnd.TheVariants.{Present};

use bounds::{Fault, LooseEnd, Row, SpoiledItem};
use network::{DueEntry, GroupEntry, Kind, Link};

/// The card of two steps, from 0 to 1 [10, 20].
pub(crate) const TWO_STEPS: [u8; 10] = [0x10, 0x40, 0x10, 0x00, 0x1c, 0x00, 0x01, 0x40, 0x00, 0x14];

/// The card of three steps: from 0 to 1, at least -3; from 2 to 0, at most -1,000,000.
pub(crate) const THREE_STEPS: [u8; 17] = [
    0x10, 0x80, 0x20, 0x00, 0x1b, 0xff, 0xff, 0xa0, 0x00, 0x00, 0x08, 0x04, 0x00, 0x00, 0x10, 0xbd,
    0xc0,
];

/// A group entry that no example gives.
pub(crate) const GROUP: GroupEntry = GroupEntry {
    leader: 9,
    offset: 9,
};

/// A link that no example gives.
pub(crate) const LINK: Link = Link {
    trigger: 9,
    target: 9,
    kind: Kind::Least,
    seconds: 9,
};

/// A due entry that no example gives.
pub(crate) const DUE: DueEntry = DueEntry { step: 9, upper: 9 };

/// A row with both ends.
pub(crate) fn row(from: u16, to: u16, lower: i32, upper: i32) -> Row
    ensures { result ≡ record { from = from; to = to; lower = Present lower; upper = Present upper } }
{
    Row {
        from,
        to,
        lower: LooseEnd::Present(lower),
        upper: LooseEnd::Present(upper),
    }
}

/// A link.
pub(crate) fn link(trigger: u8, target: u8, kind: Kind, seconds: u32) -> Link
    ensures { result ≡ record { trigger = trigger; target = target; kind = kind; seconds = seconds } }
{
    Link {
        trigger,
        target,
        kind,
        seconds,
    }
}

/// A due entry.
pub(crate) fn due(step: u16, upper: u64) -> DueEntry
    ensures { result ≡ record { step = step; upper = upper } }
{
    DueEntry { step, upper }
}

/// What a scan answers that finds a spoiled item.
pub(crate) fn spoiled_at(place: usize, fault: Fault) -> Option<SpoiledItem> {
    Some(SpoiledItem { place, fault })
}
