// The one interface behind which bounds are had.
ghost use Rattle.std.specs.Prelude.{◌≡◌};
ghost use Rattle.bounds.specs.Meaning.{Meaning, counted, read_at};

use crate::item::{Item, NoSuchPlace};
use crate::items::Items;

/// A number of steps and a list of items. Three questions tell of them, and leave the source as it is.
pub trait Source {
    // The number of steps, the list, and the law that each bound of it names two of these steps.
    ghost meaning: { Self → Meaning };

    /// The number of steps.
    fn steps(&self) -> u16
        ensures { result ≡ (meaning self.now).steps };

    /// The length of the list, or 513 where it is over 512.
    fn count(&self) -> u16
        ensures { result ≡ counted (meaning self.now).items };

    /// The item at a place counted from 0. Refuses past the end of the list, and above place 511.
    fn item(&self, place: usize) -> Result<Item, NoSuchPlace>
        ensures { result ≡ read_at (meaning self.now).items place };

    /// The items that can be read, in order, each with its place.
    final fn items(&self) -> Items<'_, Self>
        ensures source { result.source.now ≡ self.now }
        ensures place { result.place ≡ 0 }
    {
        Items {
            source: self,
            place: 0,
        }
    }
}
