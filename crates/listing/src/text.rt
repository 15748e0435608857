// The text of a whole listing, and of a refusal.
ghost use Rattle.std.specs.Prelude.{◌≡◌, ℕ, ◌++◌, IfOk, string_bytes, OnOk};
ghost use Rattle.listing.specs.declared.line.Line.{Line as LineT};
ghost use Rattle.listing.specs.Text.{lines_from, listing_text, refusal_text};

use crate::line::{Line, add};
use bounds::Told;
use network::{GroupEntry, Link};
use std::alloc::{AllocError, Global};

/// A line for each step, in order, and then a line for each link, in order. Fails only for want of memory.
pub fn listing(heap: Global, groups: &[GroupEntry], links: &[Link]) -> Result<String, AllocError>
    ensures { IfOk result (λ t. string_bytes t ≡ listing_text groups.now links.now) }
{
    let mut text = String::new(heap);
    add_all(&mut text, groups, |step, group| Line::Step { step, group })?;
    add_all(&mut text, links, |_, link| Line::Link(link))?;
    Ok(text)
}

/// The one line that tells of a refusal. Fails only for want of memory.
// A number and a place, and no `Told`: whoever prints one may have them from elsewhere.
pub fn refusal_line(heap: Global, number: u8, place: Option<usize>) -> Result<String, AllocError>
    ensures { IfOk result (λ t. string_bytes t ≡ refusal_text number place) }
{
    let mut text = String::new(heap);
    add(&mut text, Line::Refused(Told { number, place }))?;
    Ok(text)
}

// Adds a line for each entry, in order: the line that is made of its place and of the entry.
fn add_all<T: Copy, F: Fn(usize, T) -> Line>(
    text: &mut String,
    entries: &[T],
    line: F,
) -> Result<(), AllocError>
    requires { F.IsAlwaysCallable line }
    ensures { OnOk result ((made : ℕ → T → LineT) → ((i : ℕ) (x : T) (y : LineT) → F.post line i x y → y ≡ made i x) → string_bytes text.new ≡ string_bytes text.old ++ lines_from made 0 entries.now) }
{
    for (place, entry) in entries.iter().enumerate() {
        add(text, line(place, *entry))?;
    }
    Ok(())
}
