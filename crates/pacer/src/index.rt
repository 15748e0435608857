// Where a trigger's links stand in the table.
ghost use Rattle.std.specs.Prelude.{◌≡◌};
ghost use Rattle.pacer.specs.Fixing.{first_of, own_links, span_at, spanned};

use crate::tables::Tables;
use network::Link;

/// A part of the link table.
#[derive(Clone, Copy, Default)]
pub(crate) struct Span {
    pub(crate) start: usize,
    pub(crate) end: usize,
}

impl Span {
    /// The links of the span.
    #[tactic(auto, using(crate::proofs::Spans::spanned_part))]
    pub(crate) fn of<'a>(self, links: &'a [Link]) -> &'a [Link]
        ensures { result.now ≡ spanned self links.now }
    {
        let end = self.end.min(links.len());
        let start = self.start.min(end);
        &links[start..end]
    }

    /// Where the span starts, or the place where there is nothing in it yet.
    pub(crate) fn first(self, place: usize) -> usize
        ensures { result ≡ first_of self place }
    {
        if self.start < self.end {
            self.start
        } else {
            place
        }
    }
}

/// The span of a leader.
pub(crate) fn span_of(spans: &[Span], leader: u8) -> Span
    ensures { result ≡ span_at spans.now leader }
{
    spans.get(usize::from(leader)).copied().unwrap_or_default()
}

impl<'a> Tables<'a> {
    /// The links of a leader's span.
    pub(crate) fn own_links(&self, leader: u8) -> &'a [Link]
        ensures { result.now ≡ own_links self.now leader }
    {
        span_of(&self.spans, leader).of(self.links)
    }
}
