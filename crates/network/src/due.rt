// The entries of a list of due steps, and their order: by upper end, then by step.
ghost use Rattle.network.specs.Order.{due_before};
ghost use Rattle.network.specs.Ordering.{due_total};

use queue::Ordered;

/// A step that is due, and its upper end: the latest second at which it may start.
/// Entries are ordered by upper end, then by step.
#[derive(Clone, Copy, PartialEq, Eq, PartialOrd, Ord, Default, Debug)]
pub struct DueEntry {
    pub upper: u64,
    pub step: u16,
}

impl Ordered for DueEntry {
    ghost precedes = { due_before };

    ghost one = { due_total.one };

    ghost onward = { due_total.onward };

    fn comes_before(&self, other: &Self) -> bool {
        self < other
    }
}
