// Fixing a group, and what its links do to the groups that they lead to.
ghost use Rattle.std.specs.Prelude.{◌≡◌};
ghost use Rattle.pacer.specs.Fixing.{after_link, fixed};

use crate::group::Group;
use crate::state::State;
use network::{Kind, Link};

impl State {
    /// Fixes the group of a leader at a time, and applies those of the links that it triggers.
    pub(crate) fn fix(&mut self, links: &[Link], leader: u8, time: u32)
        ensures { self.exit.now ≡ fixed leader time links.now self.entry.now }
    {
        self.put_group(leader, Group::Fixed { time });
        for link in links {
            if link.trigger == leader {
                self.apply(*link, time);
            }
        }
    }

    // Applies one link whose trigger's group was fixed at the time.
    fn apply(&mut self, link: Link, time: u32)
        ensures { self.exit.now ≡ after_link time link self.entry.now }
    {
        let bound = u64::from(time) + u64::from(link.seconds);
        let group = self.group(link.target).narrowed(link.kind, bound);
        self.put_group(link.target, group);
        match link.kind {
            Kind::Most => {}
            Kind::Least => self.lower_waits(link.target),
        }
    }
}
