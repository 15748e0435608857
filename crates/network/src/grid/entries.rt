// How the entries of a grid are read and written.
ghost use Rattle.std.specs.Prelude.{◌≡◌, ◌*◌, ◌<◌, ◌≤◌, length};
ghost use Rattle.bounds.specs.Limits.{most_steps};
ghost use Rattle.network.specs.Filled.{Refilled, entries, entries_after};
ghost use Rattle.network.specs.Grid.{Lowered, zeroed};

use super::Grid;

// That a step is below `n` is asked at each call, of the call's own step. `Rough` is no fact of the type either: before `unbind` the
// cells hold anything.
impl<'a> Grid<'a> {
    /// A table over the cells, whose contents stay.
    pub(crate) fn new(n: usize, cells: &'a mut [i32]) -> Grid<'a>
        requires small { n ≤ most_steps }
        requires room { n * n ≤ length cells.old }
        ensures rows { result.n ≡ n }
        ensures kept { result.cells.now ≡ cells.old }
        ensures same { result.cells.ghost_name ≡ cells.entry.ghost_name }
    {
        Grid { n, cells }
    }

    /// The entry of row `i` and column `j`.
    // `Distances` has the same read: a view that both share would be longer than the line.
    #[tactic(auto, unfolding(crate::specs::Grid::entry_at))]
    pub(crate) fn at(&self, i: usize, j: usize) -> i32
        requires row { i < self.now.n }
        requires column { j < self.now.n }
        ensures { result ≡ entries self.now i j }
    {
        self.cells[i * self.n + j]
    }

    /// Lowers one entry to `most` where it is above that.
    pub(crate) fn lower(&mut self, i: usize, j: usize, most: i32)
        requires row { i < self.old.n }
        requires column { j < self.old.n }
        ensures lowered { Lowered self.old.n (entries self.old) (entries_after self.old self.new) i j most }
        ensures rest { Refilled self.old self.new }
    {
        let old = self.at(i, j);
        self.cells[i * self.n + j] = old.min(most);
    }

    /// Writes 0 into every entry.
    pub(crate) fn clear(&mut self)
        ensures cleared { self.new.cells.now ≡ zeroed self.old.n self.old.cells.now }
        ensures same { self.new.cells.ghost_name ≡ self.old.cells.ghost_name }
    {
        self.cells[..self.n * self.n].fill(0);
    }
}
