// A square table of greatest gaps while it is filled and closed.
ghost use Rattle.std.specs.Prelude.{◌*◌, ◌≤◌, length};
ghost use Rattle.bounds.specs.Limits.{most_steps};

mod entries;

/// A table of `n` rows of `n` numbers, kept row by row at the front of lent cells.
#[derive(Drop)]
pub(crate) struct Grid<'a> {
    pub(crate) n: usize,
    pub(crate) cells: &'a mut [i32],
    ghost small: { n ≤ most_steps },
    ghost room: { n * n ≤ length cells.now },
}
