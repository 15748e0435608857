// The state of a group, and what a call sees of it.
ghost use Rattle.std.specs.Prelude.{◌≡◌};
ghost use Rattle.pacer.specs.Groups.{is_open, narrowed, window_for};

use network::Kind;

/// A group is open, with the window of its leader, or fixed, with its leader's time.
#[derive(Clone, Copy)]
pub(crate) enum Group {
    Open { lower: u64, upper: u32 },
    Fixed { time: u32 },
}

/// The call that is being handled.
// A rule of the project (docs/DECISIONS.md, "Named forms"): what a call sees is one `match` on the group's state and the call.
#[derive(Clone, Copy)]
pub(crate) enum Call {
    Cue,
    Wait,
    Look,
    List,
}

/// The first and the last second at which a step may start.
#[derive(Clone, Copy, PartialEq, Eq, Debug)]
pub struct Window {
    pub earliest: u64,
    pub latest: u64,
}

impl Window {
    /// The window of one second.
    pub(crate) fn at(time: u64) -> Window
        ensures { result ≡ record { earliest = time; latest = time } }
    {
        Window {
            earliest: time,
            latest: time,
        }
    }
}

impl Group {
    /// When a step at this offset from the leader may start, as the call being handled sees it: only a look counts from now.
    pub(crate) fn window(self, call: Call, offset: u32, now: u32) -> Window
        ensures { result ≡ window_for self call offset «now» }
    {
        let later = u64::from(offset);
        match (self, call) {
            (Group::Fixed { time }, _) => Window::at(u64::from(time) + later),
            (Group::Open { lower, upper }, Call::Look) => Window {
                earliest: lower.saturating_add(later).max(u64::from(now)),
                latest: u64::from(upper) + later,
            },
            (Group::Open { lower, upper }, Call::Cue | Call::Wait | Call::List) => Window {
                earliest: lower,
                latest: u64::from(upper) + later,
            },
        }
    }

    /// Whether the group has no time yet.
    pub(crate) fn is_open(self) -> bool
        ensures { result ≡ is_open self }
    {
        matches!(self, Group::Open { .. })
    }

    /// The group with one end of its window at the bound, where that is narrower. A fixed group stays as it is.
    pub(crate) fn narrowed(self, kind: Kind, bound: u64) -> Group
        ensures { result ≡ narrowed kind bound self }
    {
        match (self, kind) {
            (Group::Open { lower, upper }, Kind::Most) => Group::Open {
                lower,
                upper: u64::from(upper).min(bound) as u32,
            },
            (Group::Open { lower, upper }, Kind::Least) => Group::Open {
                lower: lower.max(bound),
                upper,
            },
            (Group::Fixed { .. }, _) => self,
        }
    }
}
