// The order of links: by trigger, then target, most before least, then by seconds.
ghost use Rattle.network.specs.Order.{link_before};
ghost use Rattle.network.specs.Ordering.{link_total};

use crate::tables::Link;
use queue::Ordered;

impl Ordered for Link {
    ghost precedes = { link_before };

    ghost one = { link_total.one };

    ghost onward = { link_total.onward };

    fn comes_before(&self, other: &Self) -> bool {
        self < other
    }
}
