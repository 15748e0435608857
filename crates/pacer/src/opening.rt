// Opening a run: the tests of the tables, the index of the links, and the first state.
ghost use Rattle.std.specs.Prelude.{◌≡◌, ◌↔◌, length, IfOk, IsTrue};
ghost use Rattle.pacer.specs.Index.{SpansSoFar, WaitsSoFar};
ghost use Rattle.pacer.specs.Opening.{Begins, EntriesFit, Fit, LeadsItself, LinksFit, OpenAnswer, Opened};
ghost use Rattle.pacer.specs.Refusals.{open_number, refused_with};

use crate::group::Group;
use crate::index::{Span, span_of};
use crate::refusal::OpenRefusal;
use crate::run::Run;
use crate::slots::put;
use crate::state::{MOST, State};
use crate::tables::Tables;
use bounds::limits::{HORIZON, MOST_STEPS};
use network::{GroupEntry, Kind, Link};

// The last second of a job.
const LAST: u32 = HORIZON as u32;

impl<'a> Run<'a> {
    /// Opens a run of so many steps and links over the two tables, with step 0 cued at 0.
    /// Refuses no step or more than 64, then tables that are too short or do not fit together.
    pub fn open(
        steps: u16,
        count: usize,
        entries: &'a [GroupEntry],
        links: &'a [Link],
    ) -> Result<Run<'a>, OpenRefusal>
        ensures answer { OpenAnswer steps count entries.now links.now (refused_with open_number result) }
        ensures run { IfOk result (Opened steps count entries.now links.now) }
    {
        if steps == 0 || steps > MOST_STEPS {
            return Err(OpenRefusal::Limits);
        }
        let entries = entries
            .get(..usize::from(steps))
            .ok_or(OpenRefusal::Tables)?;
        let links = links.get(..count).ok_or(OpenRefusal::Tables)?;
        let mut tables = Tables {
            steps: steps as u8,
            entries,
            links,
            spans: [Span::default(); MOST],
        };
        if !tables.fit() {
            return Err(OpenRefusal::Tables);
        }
        // Behind the tests, so that tables that do not fit are refused before all of their links are gone through.
        tables.spans = spans_of(links);
        let state = tables.first_state();
        Ok(Run { tables, state })
    }
}

impl Tables<'_> {
    // Whether the tables fit together, and step 0 leads itself.
    fn fit(&self) -> bool
        ensures { IsTrue result ↔ Fit self.now.steps self.now.entries.now self.now.links.now }
    {
        self.leads_itself(0) && self.entries_fit() && self.links_fit()
    }

    // Whether a step leads itself at offset 0.
    fn leads_itself(&self, step: u8) -> bool
        ensures { IsTrue result ↔ LeadsItself self.now.steps self.now.entries.now step }
    {
        let entry = self.entry(usize::from(step));
        step < self.steps && entry.leader == step && entry.offset == 0
    }

    // Whether each step has a leader that leads itself, and an offset within the horizon.
    fn entries_fit(&self) -> bool
        ensures { IsTrue result ↔ EntriesFit self.now.steps self.now.entries.now }
    {
        self.entries.iter().all(|entry| self.leads_itself(entry.leader) && entry.offset <= LAST)
    }

    // Whether each link joins two leaders, with seconds within the horizon.
    fn links_fit(&self) -> bool
        ensures { IsTrue result ↔ LinksFit self.now.steps self.now.entries.now self.now.links.now }
    {
        self.links.iter().all(|link| {
            self.leads_itself(link.trigger)
                && self.leads_itself(link.target)
                && link.seconds <= LAST
        })
    }

    // Every window whole but that of step 0's group, which is fixed at 0, and what its links say.
    fn first_state(&self) -> State
        ensures { Begins self.now result }
    {
        let mut state = State {
            groups: [Group::Open {
                lower: 0,
                upper: LAST,
            }; MOST],
            cues: [None; MOST],
            waits: waits_of(self.links),
            now: 0,
        };
        state.fix(self.own_links(0), 0, 0);
        state.put_cue(0, 0);
        state
    }
}

// Notes for each trigger a span that has all of its links.
fn spans_of(links: &[Link]) -> [Span; MOST]
    ensures { SpansSoFar links.now result (length links.now) }
{
    let mut spans = [Span::default(); MOST];
    for (place, link) in links.iter().enumerate() {
        let start = span_of(&spans, link.trigger).first(place);
        let span = Span {
            start,
            end: place + 1,
        };
        put(&mut spans, usize::from(link.trigger), span);
    }
    spans
}

// Counts for each group the least links onto it.
fn waits_of(links: &[Link]) -> [usize; MOST]
    ensures { WaitsSoFar links.now result (length links.now) }
{
    let mut waits = [0usize; MOST];
    for link in links {
        match link.kind {
            Kind::Most => {}
            Kind::Least => {
                let target = usize::from(link.target);
                let more = waits.get(target).copied().unwrap_or(0).saturating_add(1);
                put(&mut waits, target, more);
            }
        }
    }
    waits
}
