// The insertion of one entry among the used slots.
ghost use Rattle.std.specs.Prelude.{◌≡◌, ◌+◌, ◌<◌, ◌≤◌, ◌⊎◌, ◌↔◌, ◌++◌, not, length, take, drop};
ghost use Rattle.std.specs.List.{IsAfterLastMatch};
ghost use mathlib.Core.List.{Memᴰ};
ghost use Rattle.queue.specs.Order.{Ascending, Strictly, placed};

use crate::order::Ordered;

// The length beside the slots: both are parts of one queue, which lends them apart. Through its field a proof of `push` lost what
// the slots were before `copy_within` (`returns`).
/// Places the entry among the first `len` slots.
pub(crate) fn place<T: Ordered>(slots: &mut [T], len: usize, added: T)
    requires { len < length slots.old }
    ensures slots { slots.new ≡ placed T.precedes added (take len slots.old) ++ drop (len + 1) slots.old }
    ensures rest { drop (len + 1) slots.new ≡ drop (len + 1) slots.old }
    ensures holds { (x : T) → Memᴰ x (take (len + 1) slots.new) ↔ ((x ≡ added) ⊎ Memᴰ x (take len slots.old)) }
    ensures ascends { Ascending T.precedes (take len slots.old) → Ascending T.precedes (take (len + 1) slots.new) }
    ensures strictly { Strictly T.precedes (take len slots.old) → (Memᴰ added (take len slots.old) → ⊥) → Strictly T.precedes (take (len + 1) slots.new) }
{
    let at = place_among(&slots[..len], &added);
    // Entries that come in order move nothing, and then no call is made for it.
    if at < len {
        slots.copy_within(at..len, at + 1);
    }
    slots[at] = added;
}

// The place behind the last entry that the added one does not come before. The search starts at the back, so entries that come in order cost constant time each.
fn place_among<T: Ordered>(used: &[T], added: &T) -> usize
    ensures within { result ≤ length used.now }
    ensures place { IsAfterLastMatch (λ y. not (T.precedes added.now y)) used.now result }
{
    used.iter()
        .rposition(|entry| !added.comes_before(entry))
        .map_or(0, |last| last + 1)
}
