// The closure of a table of greatest gaps, stage by stage and row by row: no test stands in the innermost loop.
// A number is tested where a stage uses it, as part of row k or of column k, and the whole table at the end.
// So every sum is of two numbers that are not below −1,000,000, and no entry passes −2,000,000.
ghost use Rattle.std.specs.Prelude.{◌≡◌, ℕ, ◌<◌, pos, neg_ℤ, ◌≤ℤ◌, MatchBool};
ghost use Rattle.bounds.specs.Limits.{horizon};
ghost use Rattle.network.specs.Filled.{Refilled, entries, entries_after};
ghost use Rattle.network.specs.Gaps.{Closes, Hopeless};
ghost use Rattle.network.specs.Grid.{Relaxed, Rough, RowLowered, Settled};
ghost use Rattle.network.specs.Lines.{Impossible, Near, Possible, Refuted, number_at};

use crate::grid::Grid;
use bounds::limits::{HORIZON, MOST_STEPS};

const MOST: usize = MOST_STEPS as usize;

impl Grid<'_> {
    // This and `relax` answer yes or no: the one refusal is made by the caller, which clears the table first.
    /// Closes the table: afterwards no entry is above the sum of two entries through a third step. Answers false where an entry shows that no timetable exists.
    pub(crate) fn close(&mut self) -> bool
        requires { Rough self.old.n (entries self.old) }
        ensures closed { MatchBool result (Closes self.old.n (entries self.old) (entries_after self.old self.new)) (Hopeless self.old.n (entries self.old)) }
        ensures rest { Refilled self.old self.new }
    {
        // Each stage changes the table, which the closure of a chain would have to capture.
        for k in 0..self.n {
            if !self.relax(k) {
                return false;
            }
        }
        self.is_settled()
    }

    // Stage k: lowers every entry by the way through step k.
    fn relax(&mut self, k: usize) -> bool
        requires via { k < self.old.n }
        requires rough { Rough self.old.n (entries self.old) }
        ensures relaxed { MatchBool result (Rough self.old.n (entries_after self.old self.new) × Relaxed self.old.n (entries self.old) (entries_after self.old self.new) k × (entries self.old k k ≡ pos 0)) (Refuted self.old.n (entries self.old)) }
        ensures rest { Refilled self.old self.new }
    {
        if !self.is_possible(k) {
            return false;
        }
        let via = self.row(k);
        // A row is read in column k and then lowered, with a test between: through an iterator over the rows, which lends the table for
        // writing, a proof would know none of its numbers afterwards.
        for i in 0..self.n {
            let through = self.at(i, k);
            if through < -HORIZON {
                return false;
            }
            self.relax_row(i, &via, through);
        }
        true
    }

    // Lowers each entry of row i to `through` more than the number of `via` above it.
    fn relax_row(&mut self, i: usize, via: &[i32; MOST], through: i32)
        requires inside { i < self.old.n }
        requires low { neg_ℤ (pos horizon) ≤ℤ through }
        requires high { through ≤ℤ pos horizon }
        requires near { Near self.old.n (number_at via.now) }
        ensures lowered { RowLowered self.old.n (entries self.old) (entries_after self.old self.new) i through (number_at via.now) }
        ensures rest { Refilled self.old self.new }
    {
        let base = i * self.n;
        let row = &mut self.cells[base..base + self.n];
        // Not by `zip`: after one over `iter_mut` a proof knows no number of the row.
        for (j, entry) in row.iter_mut().enumerate() {
            *entry = (*entry).min(through + via[j]);
        }
    }

    // Whether every entry can be a distance.
    fn is_settled(&self) -> bool
        requires { Rough self.now.n (entries self.now) }
        ensures { MatchBool result (Settled self.now.n (entries self.now)) (Refuted self.now.n (entries self.now)) }
    {
        (0..self.n).all(|k| self.is_possible(k))
    }

    // Whether row k can be row k of the distances.
    fn is_possible(&self, k: usize) -> bool
        requires { k < self.now.n }
        ensures { MatchBool result (Possible self.now.n (entries self.now k) k) (Impossible self.now.n (entries self.now k) k) }
    {
        let base = k * self.n;
        let row = &self.cells[base..base + self.n];
        row.iter().all(|gap| *gap >= -HORIZON) && self.at(k, k) >= 0
    }

    // A copy of row k, with zeros behind it.
    fn row(&self, k: usize) -> [i32; MOST]
        requires { k < self.now.n }
        ensures { (b : ℕ) → b < self.now.n → number_at result b ≡ entries self.now k b }
    {
        let base = k * self.n;
        let mut line = [0; MOST];
        line[..self.n].copy_from_slice(&self.cells[base..base + self.n]);
        line
    }
}
