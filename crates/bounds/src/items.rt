// The items of a source, one after the other, each with its place.
ghost use Rattle.std.specs.Prelude.{◌≡◌, length};
ghost use Rattle.std.specs.Iterator.{at_most};
ghost use Rattle.bounds.specs.Unread.{TakesItem, unread};

use crate::item::Item;
use crate::source::Source;

/// The items of a source from a place on, as far as they can be read.
#[derive(Drop)]
pub struct Items<'a, S> {
    pub(crate) source: &'a S,
    pub(crate) place: usize,
}

impl<S: Source> Iterator for Items<'_, S> {
    type Item = (usize, Item);

    ghost next_gives = { λ s r t. (t.source.now ≡ s.source.now) × TakesItem (S.Source.meaning s.source.now).items s.place r t.place };

    ghost remaining = { λ s. at_most (length (unread (S.Source.meaning s.source.now).items s.place)) };

    fn next(&mut self) -> Option<(usize, Item)> {
        let place = self.place;
        let item = self.source.item(place).ok()?;
        self.place += 1;
        Some((place, item))
    }
}
