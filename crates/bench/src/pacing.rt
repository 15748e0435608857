// What the benchmark calls: runs over the tables of a job, for a caller that is held to nothing.
ghost use Rattle.std.specs.Prelude.{◌≤◌, length};

use crate::{MOST_GROUPS, MOST_LINKS, MOST_ROWS, NO_ROW, PlainBound, write};
use bounds::Rows;
use network::{GroupEntry, Link, compile};
use pacer::Run;

const MOST_PAIRS: usize = MOST_GROUPS * MOST_GROUPS;

/// A cue as it crosses.
#[repr(C)]
#[derive(Clone, Copy)]
pub struct PlainCue {
    pub step: u16,
    pub time: u32,
}

/// Compiles the job of these bounds, then opens a run of it and performs the cues in order, once and `again` times before that.
/// Answers how many cues the last run took, and 0 where the job is refused.
#[unsafe(no_mangle)]
pub extern "C" fn nalthwig_pace(
    steps: u16,
    bounds: &[PlainBound],
    cues: &[PlainCue],
    again: u32,
) -> u32
    ensures { result ≤ length cues.now }
{
    if bounds.len() > MOST_ROWS {
        return 0;
    }
    let mut rows = [NO_ROW; MOST_ROWS];
    write(bounds, &mut rows);
    let source = Rows::new(steps, &rows[0..bounds.len()]);
    let mut distances = [0i32; MOST_PAIRS];
    let mut groups = [GroupEntry::default(); MOST_GROUPS];
    let mut links = [Link::default(); MOST_LINKS];
    match compile(&source, &mut distances, &mut groups, &mut links) {
        Ok(compiled) => {
            for _ in 0..again {
                let _ = pace(steps, compiled.links, &groups, &links, cues);
            }
            pace(steps, compiled.links, &groups, &links, cues)
        }
        Err(_) => 0,
    }
}

// How many of the cues a new run over the tables takes.
fn pace<'a>(
    steps: u16,
    count: usize,
    entries: &'a [GroupEntry],
    links: &'a [Link],
    cues: &[PlainCue],
) -> u32
    ensures { result ≤ length cues.now }
{
    match Run::open(steps, count, entries, links) {
        Ok(mut run) => perform(&mut run, cues),
        Err(_) => 0,
    }
}

// Performs the cues in order, and counts those that are taken.
fn perform(run: &mut Run<'_>, cues: &[PlainCue]) -> u32
    ensures { result ≤ length cues.now }
{
    // Counted by hand: each cue changes the run, which a chain's closure would have to capture, and the count stops at its largest.
    let mut taken = 0u32;
    for cue in cues {
        if run.cue(cue.step, cue.time).is_ok() {
            taken = taken.saturating_add(1);
        }
    }
    taken
}
