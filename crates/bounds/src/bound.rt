// A bound from one step to another, with its invariant: an end is present, and both ends are in reach.
ghost use Rattle.std.specs.Prelude.{◌≡◌, true};
ghost use Rattle.bounds.specs.Reach.{ends_in_reach, has_end};

pub mod draw;
pub mod make;

/// The time of `to` less the time of `from` is at least `lower` and at most `upper`, where each is present.
#[derive(Clone, Copy, PartialEq, Eq, Debug)]
pub struct Bound {
    from: u16,
    to: u16,
    lower: Option<i32>,
    upper: Option<i32>,
    ghost ended: { has_end lower upper ≡ true },
    ghost near: { ends_in_reach lower upper ≡ true },
}
