// A bound as loose values: what a card's record holds before anything is tested.
ghost use Rattle.std.specs.Prelude.{◌≡◌};
ghost use Rattle.bounds.specs.Loose.{end_given, tidy};

/// One end as it was given: present, or absent with the value that stands in its place.
// No `Option`: an absent end's value is tested, and so has to be held.
#[derive(Clone, Copy, PartialEq, Eq, Debug)]
pub enum LooseEnd {
    Present(i32),
    Absent(i32),
}

impl LooseEnd {
    /// Whether an absent end has the value 0.
    pub fn is_tidy(&self) -> bool
        ensures { result ≡ tidy self.now }
    {
        match *self {
            LooseEnd::Present(_) => true,
            LooseEnd::Absent(value) => value == 0,
        }
    }

    /// The end, if it is present.
    pub fn end(&self) -> Option<i32>
        ensures { result ≡ end_given self.now }
    {
        match *self {
            LooseEnd::Present(value) => Some(value),
            LooseEnd::Absent(_) => None,
        }
    }
}

/// A bound as it was given: nothing is tested yet.
#[derive(Clone, Copy, PartialEq, Eq, Debug)]
pub struct Row {
    pub from: u16,
    pub to: u16,
    pub lower: LooseEnd,
    pub upper: LooseEnd,
}
