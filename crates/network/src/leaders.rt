// The distances with the group of each step, once the groups are found.
ghost use Rattle.std.specs.Prelude.{◌≤◌, length};

use crate::distances::Distances;
use crate::tables::GroupEntry;

/// The distances, and the entry of each step in the table of groups.
#[derive(Clone, Copy)]
pub(crate) struct Leaders<'a> {
    pub(crate) distances: Distances<'a>,
    pub(crate) groups: &'a [GroupEntry],
    ghost entries: { distances.n ≤ length groups.now },
}
