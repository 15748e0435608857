// Any source, written as a card.
ghost use Rattle.std.specs.Prelude.{◌≡◌, ◌+◌, ◌*◌, ◌^◌, ◌<◌, ◌≤◌, length, Some, None, Ok, MatchResult};
ghost use Rattle.bits.specs.Wrote.{KeptOutside};
ghost use Rattle.bounds.specs.Limits.{most_items, most_steps};
ghost use Rattle.bounds.specs.Meaning.{Below};
ghost use Rattle.bounds.specs.declared.bound.Bound.{Bound};
ghost use Rattle.card.specs.Layout.{header_bits, header_bytes, header_start, record_bits, row_at};
ghost use Rattle.card.specs.Records.{HasHeader, HasRecords, bound_row};
ghost use Rattle.card.specs.Refusals.{told_write};
ghost use Rattle.card.specs.Writing.{WroteCard, card_size, write_refusal};

use crate::layout::{COUNT, EDITION, EDITION_NUMBER, HEADER_BYTES, RECORD_BYTES, SPARE, STEPS};
use crate::part::Part;
use crate::refusal::WriteRefusal;
use bounds::{Item, Source, beyond_limits, first_spoiled};

/// Writes a source as a card, and answers how many bytes that took. Refuses beyond the limits, then without the room, then for the first spoiled item; then `out` stays as it was.
#[tactic(auto, using(crate::proofs::Tests::refused_spoiled))]
pub fn write_card<S: Source>(source: &S, out: &mut [u8]) -> Result<usize, WriteRefusal>
    ensures { MatchResult result (λ size. (write_refusal (S.meaning source.now) (length out.old) ≡ None) × WroteCard (S.meaning source.now) size out.old out.new) (λ e. (write_refusal (S.meaning source.now) (length out.old) ≡ Some (told_write e)) × (out.new ≡ out.old)) }
{
    if beyond_limits(source) {
        return Err(WriteRefusal::Limits);
    }
    let count = source.count();
    let size = HEADER_BYTES + RECORD_BYTES * count as usize;
    if out.len() < size {
        return Err(WriteRefusal::Room);
    }
    if let Some(item) = first_spoiled(source) {
        return Err(WriteRefusal::Spoiled(item));
    }
    put_header(out, source.steps(), count);
    put_records(source, out);
    Ok(size)
}

// Writes the record of each bound of the list.
#[tactic(auto, using(crate::proofs::Filling::filling_none, crate::proofs::Filling::filling_all, crate::proofs::Filling::filling_kept))]
fn put_records<S: Source>(source: &S, out: &mut [u8])
    requires few { length (S.meaning source.now).items ≤ most_items }
    requires steps { (S.meaning source.now).steps ≤ most_steps }
    requires room { header_bits + record_bits * length (S.meaning source.now).items ≤ 8 * length out.old }
    ensures kept { KeptOutside out.old out.new header_bits (header_bits + record_bits * length (S.meaning source.now).items) }
    ensures records { HasRecords out.new (S.meaning source.now).items }
{
    for (place, item) in source.items() {
        put_record(out, place, item);
    }
}

// Writes the record of the item at a place, if it is a bound.
fn put_record(out: &mut [u8], place: usize, item: Item)
    requires few { place < most_items }
    requires steps { Below most_steps item }
    requires room { header_bits + record_bits * place + record_bits ≤ 8 * length out.old }
    ensures kept { KeptOutside out.old out.new (header_bits + record_bits * place) (header_bits + record_bits * place + record_bits) }
    ensures holds { (b : Bound) → item ≡ Ok b → row_at out.new (header_bits + record_bits * place) ≡ bound_row b }
{
    if let Ok(bound) = item {
        Part::record(out, place).put_bound(&bound);
    }
}

// Writes the header.
fn put_header(out: &mut [u8], steps: u16, count: u16)
    requires steps { (0 < steps) × (steps ≤ most_steps) }
    requires count { count ≤ most_items }
    requires room { header_bytes ≤ length out.old }
    ensures kept { KeptOutside out.old out.new header_start header_bits }
    ensures header { HasHeader out.new steps count }
{
    let mut header = Part::header(out);
    header.put(EDITION, EDITION_NUMBER);
    header.put(STEPS, u64::from(steps - 1));
    header.put(COUNT, u64::from(count));
    header.put(SPARE, 0);
}
