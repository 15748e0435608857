// A question to two sources of any kind, joined under margins.
ghost use Rattle.std.specs.Prelude.{◌≡◌};
ghost use Rattle.bounds.specs.Joined.{joined_meaning};
ghost use Rattle.bounds.specs.Margin.{margin_meaning};
ghost use Rattle.bounds.specs.Spoiled.{first_spoiled, readable};

use crate::joined::Joined;
use crate::margin::Margin;
use crate::scan::{SpoiledItem, first_spoiled};
use crate::source::Source;

/// The first spoiled item of two sources joined: the second under a margin of its own, and both under an overall margin.
pub fn first_spoiled_of_pair<A: Source + Drop, B: Source + Drop>(
    first: A,
    second: B,
    own: u8,
    overall: u8,
) -> Option<SpoiledItem>
    ensures { result ≡ first_spoiled 0 (readable (margin_meaning overall (joined_meaning (A.Source.meaning first) (margin_meaning own (B.Source.meaning second)))).items) }
{
    let both = Joined::new(first, Margin::new(second, own));
    first_spoiled(&Margin::new(both, overall))
}
