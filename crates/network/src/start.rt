// The table of greatest gaps that the bounds of a source give before it is closed.
ghost use Rattle.std.specs.Prelude.{◌≡◌, ℕ, ◌<◌, true, neg_ℤ};
ghost use Rattle.bounds.specs.Reach.{end_in_reach};
ghost use Rattle.std.specs.Option.{option_map};
ghost use Rattle.bounds.specs.Spoiled.{readable};
ghost use Rattle.bounds.specs.Timetables.{Keeps, KeepsBound};
ghost use Rattle.network.specs.Filled.{Refilled, entries, entries_after};
ghost use Rattle.network.specs.Gaps.{Capped, Narrowed};
ghost use Rattle.network.specs.Grid.{Rough, unbounded};
ghost use Rattle.std.specs.List.{AllByRecursion};

use crate::grid::Grid;
use bounds::limits::HORIZON;
use bounds::{Bound, Source};

impl Grid<'_> {
    /// Writes the gaps that are left by the range of times alone, then lowers them by every bound of the source.
    pub(crate) fn gather<S: Source>(&mut self, source: &S)
        requires { (S.meaning source.now).steps ≡ self.old.n }
        ensures rough { Rough self.old.n (entries_after self.old self.new) }
        ensures narrowed { Narrowed self.old.n unbounded (entries_after self.old self.new) (λ t. AllByRecursion (Keeps t) (readable (S.meaning source.now).items)) }
        ensures rest { Refilled self.old self.new }
    {
        self.unbind();
        for (_, item) in source.items() {
            if let Ok(bound) = item {
                self.apply(&bound);
            }
        }
    }

    // Writes the greatest gaps of a job without bounds.
    fn unbind(&mut self)
        ensures rough { Rough self.old.n (entries_after self.old self.new) }
        ensures gaps { (i j : ℕ) → i < self.old.n → j < self.old.n → entries_after self.old self.new i j ≡ unbounded i j }
        ensures rest { Refilled self.old self.new }
    {
        let n = self.n;
        let front = &mut self.cells[..n * n];
        for (p, cell) in front.iter_mut().enumerate() {
            *cell = unbounded_gap(p / n, p % n);
        }
    }

    // Lowers the two gaps that a bound speaks of: an upper end caps the gap forth, a lower end the gap back.
    fn apply(&mut self, bound: &Bound)
        requires from { bound.now.from < self.old.n }
        requires to { bound.now.to < self.old.n }
        requires rough { Rough self.old.n (entries self.old) }
        ensures rough { Rough self.old.n (entries_after self.old self.new) }
        ensures narrowed { Narrowed self.old.n (entries self.old) (entries_after self.old self.new) (λ t. KeepsBound t bound.now) }
        ensures rest { Refilled self.old self.new }
    {
        let from = bound.from_step() as usize;
        let to = bound.to_step() as usize;
        self.cap(from, to, bound.upper_end());
        self.cap(to, from, negated(bound.lower_end()));
    }

    // Lowers one gap to an end, if there is one.
    fn cap(&mut self, i: usize, j: usize, most: Option<i32>)
        requires row { i < self.old.n }
        requires column { j < self.old.n }
        requires near { end_in_reach most ≡ true }
        requires rough { Rough self.old.n (entries self.old) }
        ensures rough { Rough self.old.n (entries_after self.old self.new) }
        ensures narrowed { Narrowed self.old.n (entries self.old) (entries_after self.old self.new) (Capped most i j) }
        ensures rest { Refilled self.old self.new }
    {
        if let Some(seconds) = most {
            self.lower(i, j, seconds);
        }
    }
}

// The greatest gap from step i to step j in a job without bounds.
fn unbounded_gap(i: usize, j: usize) -> i32
    ensures { result ≡ unbounded i j }
{
    if i == j || j == 0 { 0 } else { HORIZON }
}

// An end of the opposite sign.
fn negated(end: Option<i32>) -> Option<i32>
    requires { end_in_reach end ≡ true }
    ensures value { result ≡ option_map neg_ℤ end }
    ensures near { end_in_reach result ≡ true }
{
    end.map(|seconds| -seconds)
}
