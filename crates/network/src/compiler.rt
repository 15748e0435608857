// Compilation: from any source of bounds to the three tables.
ghost use Rattle.std.specs.Prelude.{length};
ghost use Rattle.bounds.specs.Timetables.{OneDistance};
ghost use Rattle.network.specs.Compiled.{Answered, Decided, DistancesAfter, GroupsAfter, LinksAfter, Tabled};
ghost use Rattle.network.specs.Refusals.{early_refusal};

use crate::distances::Distances;
use crate::grid::Grid;
use crate::leaders::Leaders;
use crate::refusal::Refusal;
use crate::tables::{GroupEntry, Link};
use bounds::{Source, beyond_limits, first_spoiled};

/// How much of the tables a compilation has used.
#[derive(Clone, Copy, PartialEq, Eq, Debug)]
pub struct Compiled {
    /// The number of groups.
    pub groups: usize,
    /// The number of links.
    pub links: usize,
}

/// Fills the tables of a source of n steps: n × n distances row by row, the group of each step, and the kept links in order.
/// Refuses a source beyond the limits, then tables shorter than n × n, n and n × (n − 1), then the first spoiled item, then a job without a timetable.
pub fn compile<S: Source>(
    source: &S,
    distances: &mut [i32],
    groups: &mut [GroupEntry],
    links: &mut [Link],
) -> Result<Compiled, Refusal>
    ensures answer { Answered (S.meaning source.now).steps (early_refusal (S.meaning source.now) (length distances.old) (length groups.old) (length links.old)) result }
    ensures decided { Decided (S.meaning source.now) (early_refusal (S.meaning source.now) (length distances.old) (length groups.old) (length links.old)) result }
    ensures tables { Tabled (S.meaning source.now) result distances.new groups.new links.new }
    ensures unique { OneDistance (S.meaning source.now) }
    ensures distances { DistancesAfter (S.meaning source.now).steps result distances.old distances.new }
    ensures groups { GroupsAfter (S.meaning source.now).steps result groups.old groups.new }
    ensures links { LinksAfter result links.old links.new }
{
    if beyond_limits(source) {
        return Err(Refusal::Limits);
    }
    let n = source.steps() as usize;
    if distances.len() < n * n || groups.len() < n || links.len() < n * (n - 1) {
        return Err(Refusal::Tables);
    }
    let mut grid = Grid::new(n, distances);
    if let Some(item) = first_spoiled(source) {
        grid.clear();
        return Err(Refusal::Spoiled(item));
    }
    grid.gather(source);
    if !grid.close() {
        grid.clear();
        return Err(Refusal::NoTimetable);
    }
    let Grid { n, cells } = grid;
    let distances = Distances { n, cells };
    let group_count = distances.find_groups(groups);
    let leaders = Leaders { distances, groups };
    let link_count = leaders.find_links(links)?;
    Ok(Compiled {
        groups: group_count,
        links: link_count,
    })
}
