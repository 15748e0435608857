// What a refusal tells, whatever it refuses.
ghost use Rattle.std.specs.Prelude.{◌≡◌, Some};
ghost use Rattle.bounds.specs.declared.told.Told.{Told};
ghost use Rattle.bounds.specs.Told.{numbered, told_line};

use std::fmt;

/// The number of a refusal, and the place of the item that it is about, if it is about one.
#[derive(Clone, Copy, PartialEq, Eq, Debug)]
pub struct Told {
    pub number: u8,
    pub place: Option<usize>,
}

impl Told {
    /// A number without a place.
    pub fn of(number: u8) -> Told
        ensures { result ≡ numbered number }
    {
        Told {
            number,
            place: None,
        }
    }
}

impl fmt::Display for Told {
    ghost output = { λ t. Some (told_line t) };

    fn fmt<W: fmt::Write>(&self, f: &mut fmt::Formatter<W>) -> fmt::Result {
        let number = self.number;
        match self.place {
            Some(place) => write!(f, "refused {number} at {place}"),
            None => write!(f, "refused {number}"),
        }
    }
}

/// A reason why something is refused.
pub trait Reason: Copy {
    // the number of each reason, and the place that it has, if any
    ghost told: { Self → Told };

    /// What the reason tells.
    fn told(&self) -> Told
        ensures { result ≡ told self.now };

    /// The number of the refusal.
    final fn number(&self) -> u8
        ensures { result ≡ (told self.now).number }
    {
        self.told().number
    }

    /// The place of the item that the refusal is about, if it is about one.
    final fn place(&self) -> Option<usize>
        ensures { result ≡ (told self.now).place }
    {
        self.told().place
    }
}
