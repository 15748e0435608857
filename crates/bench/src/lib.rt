// What the benchmark calls: `compile` over handed rows, for a caller that is held to nothing.
#![tactic(auto)]

ghost use Rattle.std.specs.Prelude.{◌≡◌, ◌*◌, ◌^◌, ◌<◌, ◌≤◌, ◌++◌, map, length, drop};
ghost use Rattle.network.specs.Refusals.{early_refusal, told};
ghost use Rattle.bench.specs.Outcomes.{Answered, job, refusal_outcome};
ghost use Rattle.bench.specs.Plain.{loose_end, plain_group, plain_link, plain_row};

pub mod pacing;

use bounds::limits::{MOST_ITEMS, MOST_STEPS};
use bounds::{LooseEnd, Reason, Row, Rows};
use network::{GroupEntry, Kind, Link, Refusal, compile};

const MOST_ROWS: usize = MOST_ITEMS as usize;

const MOST_GROUPS: usize = MOST_STEPS as usize;

const MOST_LINKS: usize = MOST_GROUPS * (MOST_GROUPS - 1);

/// One end of a bound as it crosses.
// A flag beside a value: C has no enum with data.
#[repr(C)]
#[derive(Clone, Copy)]
pub struct PlainEnd {
    pub present: bool,
    pub value: i32,
}

/// A bound as it crosses.
// A struct of its own, as those below: only a struct with C's layout crosses.
#[repr(C)]
#[derive(Clone, Copy)]
pub struct PlainBound {
    pub from: u16,
    pub to: u16,
    pub lower: PlainEnd,
    pub upper: PlainEnd,
}

/// The group of a step as it crosses.
#[repr(C)]
#[derive(Clone, Copy)]
pub struct PlainGroup {
    pub leader: u8,
    pub offset: u32,
}

/// A link as it crosses: a most link, or a least link.
// A flag for the kind: C has no enum whose values are known.
#[repr(C)]
#[derive(Clone, Copy)]
pub struct PlainLink {
    pub trigger: u8,
    pub target: u8,
    pub least: bool,
    pub seconds: u32,
}

/// What a compilation answered: the number of its refusal, or 0 with the numbers of groups and links.
// A number for a refusal: C has no `Result`.
#[repr(C)]
#[derive(Clone, Copy)]
pub struct Outcome {
    pub refusal: u8,
    pub groups: usize,
    pub links: usize,
}

// A row that no bound stands in yet; a variant with a value can be no derived default.
const NO_ROW: Row = Row {
    from: 0,
    to: 0,
    lower: LooseEnd::Absent(0),
    upper: LooseEnd::Absent(0),
};

/// Compiles the job of these bounds once, and `again` times before that, and writes its groups and links to the front of the handed ones.
/// Refuses as `compile` does.
#[unsafe(no_mangle)]
pub extern "C" fn nalthwig_compile(
    steps: u16,
    bounds: &[PlainBound],
    again: u32,
    distances: &mut [i32],
    groups: &mut [PlainGroup],
    links: &mut [PlainLink],
) -> Outcome
    ensures answer { (few : steps < 2 ^ 16) → Answered (job steps few bounds.now) (early_refusal (job steps few bounds.now) (length distances.old) (length groups.old) (length links.old)) result distances.old distances.new groups.old groups.new links.old links.new }
    ensures distances { drop (steps * steps) distances.new ≡ drop (steps * steps) distances.old }
{
    let n = steps as usize;
    if n == 0 || n > MOST_GROUPS || bounds.len() > MOST_ROWS {
        return refused(Refusal::Limits);
    }
    let pairs = n * n;
    let most_links = n * (n - 1);
    if distances.len() < pairs || groups.len() < n || links.len() < most_links {
        return refused(Refusal::Tables);
    }
    let mut rows = [NO_ROW; MOST_ROWS];
    write(bounds, &mut rows);
    let source = Rows::new(steps, &rows[0..bounds.len()]);
    let mut group_slots = [GroupEntry::default(); MOST_GROUPS];
    let mut link_slots = [Link::default(); MOST_LINKS];
    let group_table = &mut group_slots[0..n];
    let link_table = &mut link_slots[0..most_links];
    for _ in 0..again {
        let _ = compile(&source, distances, group_table, link_table);
    }
    match compile(&source, distances, group_table, link_table) {
        Ok(compiled) => {
            let kept = compiled.links;
            write(group_table, groups);
            write(&link_table[0..kept], links);
            Outcome {
                refusal: 0,
                groups: compiled.groups,
                links: kept,
            }
        }
        Err(refusal) => refused(refusal),
    }
}

// The answer for a refusal.
fn refused(refusal: Refusal) -> Outcome
    ensures { result ≡ refusal_outcome (told refusal) }
{
    Outcome {
        refusal: refusal.number(),
        groups: 0,
        links: 0,
    }
}

// Writes what is made of the entries to the front of `out`.
fn write<T: Copy, U: Copy + From<T>>(entries: &[T], out: &mut [U])
    requires { length entries.now ≤ length out.old }
    ensures { (made : T → U) → ((x : T) (y : U) → U.from_gives x y → y ≡ made x) → out.new ≡ map made entries.now ++ drop (length entries.now) out.old }
{
    // Not by `zip`: after one over `iter_mut` a proof knows nothing of `out`.
    for (place, entry) in entries.iter().enumerate() {
        out[place] = U::from(*entry);
    }
}

impl From<PlainEnd> for LooseEnd {
    ghost from_gives = { λ end r. r ≡ loose_end end };

    fn from(end: PlainEnd) -> LooseEnd {
        if end.present {
            LooseEnd::Present(end.value)
        } else {
            LooseEnd::Absent(end.value)
        }
    }
}

impl From<PlainBound> for Row {
    ghost from_gives = { λ bound r. r ≡ plain_row bound };

    fn from(bound: PlainBound) -> Row {
        Row {
            from: bound.from,
            to: bound.to,
            lower: LooseEnd::from(bound.lower),
            upper: LooseEnd::from(bound.upper),
        }
    }
}

impl From<GroupEntry> for PlainGroup {
    ghost from_gives = { λ entry r. r ≡ plain_group entry };

    fn from(entry: GroupEntry) -> PlainGroup {
        PlainGroup {
            leader: entry.leader,
            offset: entry.offset,
        }
    }
}

impl From<Link> for PlainLink {
    ghost from_gives = { λ link r. r ≡ plain_link link };

    fn from(link: Link) -> PlainLink {
        PlainLink {
            trigger: link.trigger,
            target: link.target,
            least: link.kind == Kind::Least,
            seconds: link.seconds,
        }
    }
}
