// The plain state of a run, apart from its tables.
ghost use Rattle.std.specs.Prelude.{◌≡◌};
ghost use Rattle.pacer.specs.States.{cue_at, group_at, waits_at, with_cue, with_fewer_waits, with_group};

use crate::group::Group;
use crate::slots::put;
use bounds::limits::MOST_STEPS;

/// The places of a run's arrays, one for each step that there can be.
pub(crate) const MOST: usize = MOST_STEPS as usize;

// What a group past the end of the array would be; a variant with values can be no derived default.
const NO_GROUP: Group = Group::Open { lower: 0, upper: 0 };

/// The groups by their leaders, the cue times, how many open groups each group waits for, and the time.
// Apart from the tables: what a call would leave is said, and can be worked out, for any state over them.
// Three arrays: with one array of a struct for each step, a cue takes 1.2 to 1.3 times as long (0.16 against 0.12 microseconds in the rigid job).
#[derive(Clone, Copy)]
pub(crate) struct State {
    pub(crate) groups: [Group; MOST],
    pub(crate) cues: [Option<u32>; MOST],
    pub(crate) waits: [usize; MOST],
    pub(crate) now: u32,
}

impl State {
    /// The group of a leader.
    pub(crate) fn group(&self, leader: u8) -> Group
        ensures { result ≡ group_at self.entry.now leader }
    {
        self.groups
            .get(usize::from(leader))
            .copied()
            .unwrap_or(NO_GROUP)
    }

    /// When a step was cued, if it was.
    pub(crate) fn cue(&self, step: usize) -> Option<u32>
        ensures { result ≡ cue_at self.entry.now step }
    {
        self.cues.get(step).copied().flatten()
    }

    /// How many least links onto the group of a leader have a trigger whose group is open.
    pub(crate) fn waits(&self, leader: u8) -> usize
        ensures { result ≡ waits_at self.entry.now leader }
    {
        self.waits.get(usize::from(leader)).copied().unwrap_or(0)
    }

    /// Puts a group in the place of a leader's.
    pub(crate) fn put_group(&mut self, leader: u8, group: Group)
        ensures { self.exit.now ≡ with_group self.entry.now leader group }
    {
        put(&mut self.groups, usize::from(leader), group);
    }

    /// Notes when a step was cued.
    pub(crate) fn put_cue(&mut self, step: usize, time: u32)
        ensures { self.exit.now ≡ with_cue self.entry.now step time }
    {
        put(&mut self.cues, step, Some(time));
    }

    /// One open trigger less.
    pub(crate) fn lower_waits(&mut self, leader: u8)
        ensures { self.exit.now ≡ with_fewer_waits self.entry.now leader }
    {
        let fewer = self.waits(leader).saturating_sub(1);
        put(&mut self.waits, usize::from(leader), fewer);
    }
}
