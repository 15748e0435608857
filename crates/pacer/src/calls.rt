// The calls of a run: cue, wait and look.
ghost use Rattle.std.specs.Prelude.{◌≡◌, MatchResult};
ghost use Rattle.pacer.specs.Calls.{cued, look_answer, waited};
ghost use Rattle.pacer.specs.Index.{Plain};
ghost use Rattle.pacer.specs.Refusals.{cue_number, refused_with, wait_number};
ghost use Rattle.pacer.specs.Rules.{CueAnswer, WaitAnswer};

use crate::group::{Call, Window};
use crate::refusal::{CueRefusal, NoSuchStep, WaitRefusal};
use crate::run::Run;
use crate::state::State;
use crate::tables::Tables;

impl Run<'_> {
    /// Records that a step starts at a time. Its group, if it is open, is then fixed, and its links narrow other windows.
    #[tactic(auto, using(crate::proofs::Indexing::indexed_plain))]
    pub fn cue(&mut self, step: u16, time: u32) -> Result<(), CueRefusal>
        ensures answer { CueAnswer self.old.tables self.old.state step time
            (refused_with cue_number result) }
        ensures state { MatchResult result
            (λ _. self.new.state ≡ cued self.old.tables self.old.state step time)
            (λ _. self.new.state ≡ self.old.state) }
        ensures kept { self.new.tables ≡ self.old.tables }
        ensures plain { Plain self.old.tables self.old.state }
    {
        let step = usize::from(step);
        self.tables.may_cue(&self.state, step, time)?;
        self.tables.take_cue(&mut self.state, step, time);
        Ok(())
    }

    /// Lets the time go on.
    #[tactic(auto, using(crate::proofs::Indexing::indexed_plain))]
    pub fn wait(&mut self, time: u32) -> Result<(), WaitRefusal>
        ensures answer { WaitAnswer self.old.tables self.old.state time (refused_with wait_number result) }
        ensures state { MatchResult result
            (λ _. self.new.state ≡ waited self.old.state time)
            (λ _. self.new.state ≡ self.old.state) }
        ensures kept { self.new.tables ≡ self.old.tables }
        ensures plain { Plain self.old.tables self.old.state }
    {
        self.tables.may_wait(&self.state, time)?;
        self.state.now = time;
        Ok(())
    }

    /// When a step starts: its cue time twice, or the first and the last second at which it may.
    pub fn look(&self, step: u16) -> Result<Window, NoSuchStep>
        ensures { result ≡ look_answer self.now.tables self.now.state step }
    {
        if step >= u16::from(self.tables.steps) {
            return Err(NoSuchStep);
        }
        let step = usize::from(step);
        Ok(match self.state.cue(step) {
            Some(time) => Window::at(u64::from(time)),
            None => self.tables.window(&self.state, step, Call::Look),
        })
    }
}

impl Tables<'_> {
    // Records that a step starts, once the cue is taken.
    fn take_cue(&self, state: &mut State, step: usize, start: u32)
        ensures { state.exit.now ≡ cued self.now state.entry.now step start }
    {
        let leader = self.entry(step).leader;
        if state.group(leader).is_open() {
            state.fix(self.own_links(leader), leader, start);
        }
        state.put_cue(step, start);
        state.now = start;
    }
}
