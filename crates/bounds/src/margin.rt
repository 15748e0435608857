// A source whose bounds are drawn in by a margin at both ends.
ghost use Rattle.std.specs.Prelude.{◌≡◌};
ghost use Rattle.bounds.specs.Margin.{margin_meaning};

use crate::item::{Item, NoSuchPlace, drawn_in};
use crate::source::Source;

/// A source over another: each bound is drawn in by so many seconds at each end.
#[derive(Clone, Copy, Drop)]
pub struct Margin<S> {
    inner: S,
    seconds: u8,
}

impl<S> Margin<S> {
    /// Puts a margin over a source of any kind.
    pub fn new(inner: S, seconds: u8) -> Margin<S>
        ensures { (result.inner ≡ inner) × (result.seconds ≡ seconds) }
    {
        Margin { inner, seconds }
    }
}

impl<S: Source> Source for Margin<S> {
    ghost meaning = { λ s. margin_meaning s.seconds (S.Source.meaning s.inner) };

    fn steps(&self) -> u16 {
        self.inner.steps()
    }

    fn count(&self) -> u16 {
        self.inner.count()
    }

    fn item(&self, place: usize) -> Result<Item, NoSuchPlace> {
        let item = self.inner.item(place)?;
        Ok(drawn_in(item, self.seconds))
    }
}
