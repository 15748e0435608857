// The words of a text, one after the other.
ghost use Rattle.std.specs.Prelude.{◌≡◌, nat_eq, length};
ghost use Rattle.std.specs.Iterator.{YieldsFirstRef, item_count};
ghost use Rattle.jobtext.specs.Cut.{is_blank};
ghost use Rattle.jobtext.specs.Words.{words};

use crate::cut::cut_at;

/// The words of a text that are still to be read.
// No `filter` over `split`: what is left is itself a text, and a contract says which words that has.
#[derive(Drop)]
pub(crate) struct Words<'a>(pub(crate) &'a [u8]);

impl Words<'_> {
    /// Whether no word is left. None is cut for that, however long it is.
    pub(crate) fn is_done(&self) -> bool
        ensures { result ≡ nat_eq (length (words self.now.0.now)) 0 }
    {
        self.0.iter().position(|byte| !is_blank(*byte)).is_none()
    }
}

impl<'a> Iterator for Words<'a> {
    type Item = &'a [u8];

    ghost next_gives = { YieldsFirstRef (λ s. words s.0.now) };

    ghost remaining = { item_count (λ s. words s.0.now) };

    fn next(&mut self) -> Option<&'a [u8]> {
        let start = self.0.iter().position(|byte| !is_blank(*byte))?;
        let word = cut_at(&self.0[start..], is_blank);
        self.0 = word.rest;
        Some(word.piece)
    }
}

// Whether a byte is a space, a tab or a carriage return.
fn is_blank(byte: u8) -> bool
    ensures { result ≡ is_blank byte }
{
    byte == b' ' || byte == b'\t' || byte == b'\r'
}
