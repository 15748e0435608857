// The distances between the steps, once their table is closed.
ghost use Rattle.std.specs.Prelude.{◌*◌, ◌≤◌, length};
ghost use Rattle.bounds.specs.Limits.{most_steps};
ghost use Rattle.network.specs.Gaps.{Closed};
ghost use Rattle.network.specs.Grid.{entry_at};

mod reading;

/// The distance from each of `n` steps to each, row by row at the front of a slice.
#[derive(Clone, Copy)]
pub(crate) struct Distances<'a> {
    pub(crate) n: usize,
    pub(crate) cells: &'a [i32],
    ghost small: { n ≤ most_steps },
    ghost room: { n * n ≤ length cells.now },
    ghost closed: { Closed n (entry_at n cells.now) },
}
