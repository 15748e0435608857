// One line of a listing, as text.
ghost use Rattle.std.specs.Prelude.{◌≡◌, ◌++◌, Some, string_bytes, OnOk};
ghost use Rattle.listing.specs.Text.{line_text};

use bounds::Told;
use network::{GroupEntry, Link};
use std::alloc::AllocError;
use std::fmt;

/// What one line says.
#[derive(Clone, Copy)]
pub(crate) enum Line {
    /// The group of a step.
    Step { step: usize, group: GroupEntry },
    /// A link.
    Link(Link),
    /// A refusal.
    Refused(Told),
}

impl fmt::Display for Line {
    ghost output = { λ line. Some (line_text line) };

    fn fmt<W: fmt::Write>(&self, f: &mut fmt::Formatter<W>) -> fmt::Result {
        match *self {
            Line::Step { step, group } => {
                let leader = group.leader;
                let offset = group.offset;
                writeln!(f, "step {step} {leader} {offset}")
            }
            Line::Link(link) => {
                let trigger = link.trigger;
                let target = link.target;
                let kind = link.kind;
                let seconds = link.seconds;
                writeln!(f, "link {trigger} {target} {kind} {seconds}")
            }
            Line::Refused(told) => writeln!(f, "{told}"),
        }
    }
}

/// Adds a line to a text.
pub(crate) fn add(text: &mut String, line: Line) -> Result<(), AllocError>
    ensures { OnOk result (string_bytes text.new ≡ string_bytes text.old ++ line_text line) }
{
    write!(text, "{line}")
}
