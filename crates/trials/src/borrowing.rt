// The two lawful orders of a card over lent bytes and a write: into other bytes at any time, into the same bytes after its last use.
// A third order, writing into the bytes that an open card still reads, does not compile: the gate tries that line.
ghost use Rattle.std.specs.Prelude.{◌≡◌, true, ◌⊎◌, length, is_some, Some, None};
ghost use Rattle.card.specs.Layout.{steps_of};
ghost use Rattle.card.specs.Meaning.{card_meaning};
ghost use Rattle.card.specs.Opening.{open_refusal};
ghost use Rattle.card.specs.Rewriting.{rewrite_refusal};
ghost use Rattle.card.specs.Writing.{write_refusal};
ghost use Rattle.trials.specs.Held.{Holds};

use bounds::Source;
use card::{Card, write_card};

/// Writes a card into other bytes, and then asks the card for its steps; `None` where it does not open or is not written.
pub fn write_other_bytes_while_open(bytes: &[u8], out: &mut [u8]) -> Option<u16>
    ensures answer { elim result [ Some steps ↦ (rewrite_refusal bytes.now (length out.old) ≡ None) × (steps ≡ steps_of bytes.now) | None ↦ is_some (rewrite_refusal bytes.now (length out.old)) ≡ true ] }
    ensures out { elim result [ Some steps ↦ Holds (card_meaning bytes.now) out.old out.new | None ↦ out.new ≡ out.old ] }
{
    let card = Card::open(bytes).ok()?;
    write_card(&card, out).ok()?;
    Some(card.steps())
}

/// Asks the card in the bytes for its steps, and then writes a source over it; `None` where it does not open or the source is not written.
pub fn write_same_bytes_after_last_use<S: Source>(bytes: &mut [u8], source: &S) -> Option<u16>
    ensures answer { elim result [ Some steps ↦ (open_refusal bytes.old ≡ None) × (write_refusal (S.meaning source.now) (length bytes.old) ≡ None) × (steps ≡ steps_of bytes.old) | None ↦ (is_some (open_refusal bytes.old) ≡ true) ⊎ (is_some (write_refusal (S.meaning source.now) (length bytes.old)) ≡ true) ] }
    ensures bytes { elim result [ Some steps ↦ Holds (S.meaning source.now) bytes.old bytes.new | None ↦ bytes.new ≡ bytes.old ] }
{
    let card = Card::open(bytes).ok()?;
    let steps = card.steps();
    write_card(source, bytes).ok()?;
    Some(steps)
}
