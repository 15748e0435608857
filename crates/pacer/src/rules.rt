// The tests of cue and wait.
ghost use Rattle.std.specs.Prelude.{◌≡◌, ◌↔◌, IsTrue};
ghost use Rattle.network.specs.Groups.{group_at as entry_of};
ghost use Rattle.pacer.specs.Refusals.{cue_number, refused_with, wait_number};
ghost use Rattle.pacer.specs.Rules.{CueAnswer, NotYet, Overdue, SomeUncued, TooEarly, WaitAnswer, upper_end, window_of};

use crate::group::{Call, Window};
use crate::refusal::{CueRefusal, WaitRefusal};
use crate::state::State;
use crate::tables::Tables;
use network::GroupEntry;

impl Tables<'_> {
    /// The entry of a step.
    pub(crate) fn entry(&self, step: usize) -> GroupEntry
        ensures { result ≡ entry_of self.now.entries.now step }
    {
        self.entries.get(step).copied().unwrap_or_default()
    }

    /// When a step may start, as the call being handled sees it.
    pub(crate) fn window(&self, state: &State, step: usize, call: Call) -> Window
        ensures { result ≡ window_of self.now state.entry.now step call }
    {
        let entry = self.entry(step);
        state
            .group(entry.leader)
            .window(call, entry.offset, state.now)
    }

    /// The upper end of a step, which is the same for every call.
    pub(crate) fn upper_end(&self, state: &State, step: usize, call: Call) -> u64
        ensures { result ≡ upper_end self.now state.entry.now step }
    {
        self.window(state, step, call).latest
    }

    /// Whether a cue of the step at the time is taken, or why it is refused.
    pub(crate) fn may_cue(&self, state: &State, step: usize, time: u32) -> Result<(), CueRefusal>
        ensures { CueAnswer self.now state.entry.now step time (refused_with cue_number result) }
    {
        if step >= usize::from(self.steps) {
            return Err(CueRefusal::NoSuchStep);
        }
        if state.cue(step).is_some() {
            return Err(CueRefusal::Cued);
        }
        if time < state.now {
            return Err(CueRefusal::Past);
        }
        if self.overdue(state, Call::Cue, time) {
            return Err(CueRefusal::Late);
        }
        if self.not_yet(state, step) {
            return Err(CueRefusal::NotReady);
        }
        if self.too_early(state, step, time) {
            return Err(CueRefusal::Early);
        }
        Ok(())
    }

    /// Whether a wait until the time is taken, or why it is refused.
    pub(crate) fn may_wait(&self, state: &State, time: u32) -> Result<(), WaitRefusal>
        ensures { WaitAnswer self.now state.entry.now time (refused_with wait_number result) }
    {
        if !self.some_uncued(state) {
            return Err(WaitRefusal::AllCued);
        }
        if time < state.now {
            return Err(WaitRefusal::Past);
        }
        if self.overdue(state, Call::Wait, time) {
            return Err(WaitRefusal::Late);
        }
        Ok(())
    }

    // Whether some step is not cued.
    fn some_uncued(&self, state: &State) -> bool
        ensures { IsTrue result ↔ SomeUncued self.now.steps state.entry.now }
    {
        (0..usize::from(self.steps)).any(|step| state.cue(step).is_none())
    }

    // Whether the time is after the upper end of some uncued step.
    fn overdue(&self, state: &State, call: Call, time: u32) -> bool
        ensures { IsTrue result ↔ Overdue self.now state.entry.now time }
    {
        (0..usize::from(self.steps)).any(|step| {
            state.cue(step).is_none() && self.upper_end(state, step, call) < u64::from(time)
        })
    }

    // Whether the step's group is open, and the step comes after its leader or the group waits for an open one.
    fn not_yet(&self, state: &State, step: usize) -> bool
        ensures { IsTrue result ↔ NotYet self.now state.entry.now step }
    {
        let entry = self.entry(step);
        state.group(entry.leader).is_open() && (entry.offset > 0 || state.waits(entry.leader) > 0)
    }

    // Whether the time is before the step may start.
    fn too_early(&self, state: &State, step: usize, time: u32) -> bool
        ensures { IsTrue result ↔ TooEarly self.now state.entry.now step time }
    {
        u64::from(time) < self.window(state, step, Call::Cue).earliest
    }
}
