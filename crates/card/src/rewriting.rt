// A card written again.
ghost use Rattle.std.specs.Prelude.{◌≡◌, length, take, drop, Some, None, MatchResult};
ghost use Rattle.card.specs.Refusals.{told_rewrite};
ghost use Rattle.card.specs.Rewriting.{rewrite_refusal};

use crate::reading::Card;
use crate::refusal::RewriteRefusal;
use crate::writing::write_card;

/// Opens bytes as a card and writes it again: the same bytes. Refuses as `Card::open` does, then as `write_card` does; then `out` stays as it was.
pub fn rewrite(bytes: &[u8], out: &mut [u8]) -> Result<usize, RewriteRefusal>
    ensures { MatchResult result (λ size. (rewrite_refusal bytes.now (length out.old) ≡ None) × (size ≡ length bytes.now) × (take size out.new ≡ bytes.now) × (drop size out.new ≡ drop size out.old)) (λ e. (rewrite_refusal bytes.now (length out.old) ≡ Some (told_rewrite e)) × (out.new ≡ out.old)) }
{
    let card = Card::open(bytes)?;
    Ok(write_card(&card, out)?)
}
