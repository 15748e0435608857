// The queue, which keeps its entries in lent slots.
ghost use Rattle.std.specs.Prelude.{◌≡◌, ◌+◌, ◌<◌, ◌≤◌, ◌⊎◌, ◌↔◌, ◌++◌, length, drop, MatchResult};
ghost use mathlib.Core.List.{Memᴰ};
ghost use Rattle.queue.specs.Held.{held};
ghost use Rattle.queue.specs.Order.{Ascending, Strictly, placed};

use crate::insertion::place;
use crate::order::Ordered;

/// Every slot is used.
#[derive(Clone, Copy, PartialEq, Eq, Debug)]
pub struct Full;

/// A queue whose entries stand in order in the first `len` of the lent slots.
#[derive(Drop)]
pub struct Queue<'a, T: Ordered> {
    slots: &'a mut [T],
    // A length beside the slots: they are lent, and nothing is allocated here.
    len: usize,
}

impl<'a, T: Ordered> Queue<'a, T> {
    /// An empty queue over the slots, whose contents stay.
    pub fn new(slots: &'a mut [T]) -> Queue<'a, T>
        ensures empty { result.len ≡ 0 }
        ensures kept { result.slots.now ≡ slots.old }
        ensures same { result.slots.ghost_name ≡ slots.entry.ghost_name }
    {
        Queue { slots, len: 0 }
    }

    /// The number of entries.
    pub fn len(&self) -> usize
        ensures { result ≡ self.now.len }
    {
        self.len
    }

    /// Puts the entry behind the last one that it does not come before, or refuses where every slot is used.
    pub fn push(&mut self, added: T) -> Result<(), Full>
        ensures count { MatchResult result (λ _. (self.old.len < length self.old.slots.now) × (self.new.len ≡ self.old.len + 1)) (λ _. (length self.old.slots.now ≤ self.old.len) × (self.new.len ≡ self.old.len)) }
        ensures slots { MatchResult result (λ _. self.new.slots.now ≡ placed T.precedes added (held self.old) ++ drop (self.old.len + 1) self.old.slots.now) (λ _. self.new.slots.now ≡ self.old.slots.now) }
        ensures rest { drop self.new.len self.new.slots.now ≡ drop self.new.len self.old.slots.now }
        ensures holds { MatchResult result (λ _. (x : T) → Memᴰ x (held self.new) ↔ ((x ≡ added) ⊎ Memᴰ x (held self.old))) (λ _. held self.new ≡ held self.old) }
        ensures ascends { Ascending T.precedes (held self.old) → Ascending T.precedes (held self.new) }
        ensures strictly { Strictly T.precedes (held self.old) → (Memᴰ added (held self.old) → ⊥) → Strictly T.precedes (held self.new) }
        ensures size { length self.new.slots.now ≡ length self.old.slots.now }
        ensures same { self.new.slots.ghost_name ≡ self.old.slots.ghost_name }
    {
        let Queue { slots, len } = self;
        if *len >= slots.len() {
            return Err(Full);
        }
        place(slots, *len, added);
        *len += 1;
        Ok(())
    }
}
