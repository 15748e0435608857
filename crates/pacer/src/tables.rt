// What a run only reads.
ghost use Rattle.std.specs.Prelude.{◌≡◌, length};

use crate::index::Span;
use crate::state::MOST;
use network::{GroupEntry, Link};

/// How many steps there are, the entry of each, the links, and where those of each trigger stand.
#[derive(Drop)]
pub(crate) struct Tables<'a> {
    pub(crate) steps: u8,
    pub(crate) entries: &'a [GroupEntry],
    pub(crate) links: &'a [Link],
    pub(crate) spans: [Span; MOST],
    ghost each: { length entries.now ≡ steps },
}
