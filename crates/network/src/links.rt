// The pruned table of links between the leaders of groups.
ghost use Rattle.std.specs.Prelude.{◌≡◌, ◌+◌, ◌-◌, ◌*◌, ◌<◌, ◌≤◌, true, length, take, drop, Some, MatchBool, IsOkAnd, MatchOption, ◌≢◌};
ghost use Rattle.queue.specs.Growing.{Gained};
ghost use Rattle.network.specs.Counting.{links_between, links_from, links_of_kind};
ghost use Rattle.network.specs.Distances.{gaps, steps};
ghost use Rattle.network.specs.Groups.{is_leader};
ghost use Rattle.network.specs.Order.{link_before};
ghost use Rattle.network.specs.Links.{Dominated, KeptAs, KeptBetween, KeptFrom, LinkTable, NotKept, held, link_of};

use crate::leaders::Leaders;
use crate::tables::{Kind, Link};
use queue::{Full, Queue};

impl Leaders<'_> {
    /// Writes the kept links in order to the front of `links`, and answers how many there are.
    pub(crate) fn find_links(&self, links: &mut [Link]) -> Result<usize, Full>
        requires { steps self.now * (steps self.now - 1) ≤ length links.old }
        ensures links { IsOkAnd result (λ k. LinkTable (steps self.now) (gaps self.now) self.now.groups.now (take k links.new)) }
        ensures count { IsOkAnd result (λ k. k ≤ steps self.now * (steps self.now - 1)) }
        ensures behind { IsOkAnd result (λ k. drop k links.new ≡ drop k links.old) }
    {
        let mut queue = Queue::new(links);
        // A step is asked of both tables, and each turn pushes into the queue, or ends the search with its refusal.
        for trigger in 0..self.distances.n {
            if self.leads(trigger) {
                self.push_from(trigger, &mut queue)?;
            }
        }
        Ok(queue.len())
    }

    // Pushes the kept links of one trigger.
    fn push_from(&self, trigger: usize, queue: &mut Queue<'_, Link>) -> Result<(), Full>
        requires inside { trigger < steps self.now }
        requires leads { is_leader self.now.groups.now trigger ≡ true }
        requires slots { queue.old.len + links_from (steps self.now) (gaps self.now) trigger ≤ length queue.old.slots.now }
        ensures { IsOkAnd result (λ _. Gained link_before (links_from (steps self.now) (gaps self.now) trigger) (KeptFrom (steps self.now) (gaps self.now) self.now.groups.now trigger (steps self.now)) queue.old queue.new) }
    {
        // As in `find_links`.
        for target in 0..self.distances.n {
            if target != trigger && self.leads(target) {
                self.push_between(trigger, target, queue)?;
            }
        }
        Ok(())
    }

    // Pushes the kept links from one leader to another: the most link first.
    fn push_between(
        &self,
        trigger: usize,
        target: usize,
        queue: &mut Queue<'_, Link>,
    ) -> Result<(), Full>
        requires trigger { trigger < steps self.now }
        requires target { target < steps self.now }
        requires apart { target ≢ trigger }
        requires from_leader { is_leader self.now.groups.now trigger ≡ true }
        requires to_leader { is_leader self.now.groups.now target ≡ true }
        requires slots { queue.old.len + links_between (gaps self.now) trigger target ≤ length queue.old.slots.now }
        ensures { IsOkAnd result (λ _. Gained link_before (links_between (gaps self.now) trigger target) (KeptBetween (steps self.now) (gaps self.now) self.now.groups.now trigger target) queue.old queue.new) }
    {
        let most = self.kept_link(Kind::Most, trigger, target);
        push_kept(most, queue)?;
        let least = self.kept_link(Kind::Least, trigger, target);
        push_kept(least, queue)?;
        Ok(())
    }

    // The link of a kind from one leader to another, if it is kept.
    fn kept_link(&self, kind: Kind, trigger: usize, target: usize) -> Option<Link>
        requires trigger { trigger < steps self.now }
        requires target { target < steps self.now }
        requires apart { target ≢ trigger }
        ensures link { MatchOption result (NotKept (steps self.now) (gaps self.now) self.now.groups.now kind trigger target) (λ x. (x ≡ link_of kind (gaps self.now) trigger target) × KeptAs (steps self.now) (gaps self.now) self.now.groups.now kind trigger target x.seconds) }
        ensures count { held result ≤ links_of_kind kind (gaps self.now) trigger target }
    {
        let (from, to) = match kind {
            Kind::Most => (trigger, target),
            Kind::Least => (target, trigger),
        };
        let gap = self.distances.at(from, to);
        let possible = match kind {
            Kind::Most => target != 0 && gap >= 0,
            Kind::Least => gap < 0,
        };
        if !possible || self.dominated(from, to) {
            return None;
        }
        Some(Link {
            trigger: trigger as u8,
            target: target as u8,
            kind,
            seconds: gap.unsigned_abs(),
        })
    }

    // Whether a third leader dominates the gap from leader a to leader c, so that its link can be dropped.
    fn dominated(&self, a: usize, c: usize) -> bool
        requires from { a < steps self.now }
        requires to { c < steps self.now }
        ensures { MatchBool result (Dominated (steps self.now) (gaps self.now) self.now.groups.now a c) (Dominated (steps self.now) (gaps self.now) self.now.groups.now a c → ⊥) }
    {
        (0..self.distances.n).any(|b| {
            b != a && b != c && self.leads(b) && self.distances.dominates(a, b, c)
        })
    }

    // Whether a step leads its group.
    fn leads(&self, step: usize) -> bool
        requires { step < steps self.now }
        ensures { result ≡ is_leader self.now.groups.now step }
    {
        self.groups[step].leader as usize == step
    }
}

// Pushes a link, if there is one.
fn push_kept(link: Option<Link>, queue: &mut Queue<'_, Link>) -> Result<(), Full>
    requires { queue.old.len + held link ≤ length queue.old.slots.now }
    ensures { IsOkAnd result (λ _. Gained link_before (held link) (λ x. link ≡ Some x) queue.old queue.new) }
{
    match link {
        Some(link) => queue.push(link),
        None => Ok(()),
    }
}
