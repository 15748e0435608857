// The entries of the tables that compilation fills.
ghost use Rattle.std.specs.Prelude.{Some};
ghost use Rattle.network.specs.Words.{kind_word};

use std::fmt;

/// Which way a link limits its target.
#[derive(Clone, Copy, PartialEq, Eq, PartialOrd, Ord, Default, Debug)]
pub enum Kind {
    #[default]
    Most,
    Least,
}

impl fmt::Display for Kind {
    ghost output = { λ kind. Some (kind_word kind) };

    fn fmt<W: fmt::Write>(&self, f: &mut fmt::Formatter<W>) -> fmt::Result {
        match self {
            Kind::Most => f.write_str("most"),
            Kind::Least => f.write_str("least"),
        }
    }
}

/// When the trigger's group is fixed at a time, the target's is at most, or at least, so many seconds later.
/// Links are ordered by trigger, then target, most before least, then by seconds.
#[derive(Clone, Copy, PartialEq, Eq, PartialOrd, Ord, Default, Debug)]
pub struct Link {
    pub trigger: u8,
    pub target: u8,
    pub kind: Kind,
    pub seconds: u32,
}

/// The group of a step: its leader, and how many seconds the step comes after it.
#[derive(Clone, Copy, PartialEq, Eq, Default, Debug)]
pub struct GroupEntry {
    pub leader: u8,
    pub offset: u32,
}
