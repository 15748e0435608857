// The list of what is due.
ghost use Rattle.std.specs.Prelude.{◌≡◌, ◌+◌, ◌<◌, length, IsOkAnd};
ghost use Rattle.network.specs.Order.{due_before};
ghost use Rattle.queue.specs.Growing.{Gained};
ghost use Rattle.pacer.specs.Due.{Listed, due_of, uncued_count};

use crate::group::Call;
use crate::refusal::Short;
use crate::run::Run;
use crate::state::State;
use crate::tables::Tables;
use network::DueEntry;
use queue::{Full, Queue};

impl Run<'_> {
    /// Writes an entry for each uncued step to the front of the buffer, by upper end and then by step, and answers how many there are.
    pub fn list(&self, buffer: &mut [DueEntry]) -> Result<usize, Short>
        ensures { Listed self.now.tables self.now.state buffer.old buffer.new result }
    {
        let steps = self.tables.steps;
        if buffer.len() < self.state.uncued_count(steps) {
            return Err(Short);
        }
        let mut queue = Queue::new(buffer);
        // A step is asked of the state and of the tables, and each turn pushes into the queue, or ends with its refusal.
        for step in 0..steps {
            if self.state.cue(usize::from(step)).is_none() {
                self.tables.push_due(&self.state, step, &mut queue)?;
            }
        }
        Ok(queue.len())
    }
}

impl Tables<'_> {
    // Pushes the entry of one step.
    fn push_due(&self, state: &State, step: u8, queue: &mut Queue<'_, DueEntry>) -> Result<(), Full>
        requires { queue.old.len < length queue.old.slots.now }
        ensures gained { IsOkAnd result
            (λ _. Gained due_before 1 (λ x. x ≡ due_of self.now state.entry.now step) queue.old queue.new) }
        ensures count { IsOkAnd result (λ _. queue.new.len ≡ queue.old.len + 1) }
    {
        queue.push(DueEntry {
            step: u16::from(step),
            upper: self.upper_end(state, usize::from(step), Call::List),
        })
    }
}

impl State {
    // How many of the steps are not cued.
    fn uncued_count(&self, steps: u8) -> usize
        ensures { result ≡ uncued_count self.entry.now steps }
    {
        (0..steps)
            .filter(|step| self.cue(usize::from(*step)).is_none())
            .count()
    }
}

// No slot is left for an entry.
impl From<Full> for Short {
    ghost from_gives = { λ _ r. r ≡ record {} };

    fn from(_full: Full) -> Short {
        Short
    }
}
