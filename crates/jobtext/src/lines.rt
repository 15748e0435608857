// The lines of a text, one after the other, each with its number.
ghost use Rattle.std.specs.Prelude.{◌≡◌, ◌+◌, ◌≤◌, length};
ghost use Rattle.std.specs.Iterator.{at_most};
ghost use Rattle.jobtext.specs.Limits.{most_bytes};
ghost use Rattle.jobtext.specs.Words.{lines};
ghost use Rattle.jobtext.specs.Lines.{TakesLine};

use crate::cut::cut_at;

/// The lines of a text that are still to be read, and the number of the first of them.
// No `split` with `enumerate`: what is left is itself a text, and a contract says which lines that has.
#[derive(Drop)]
pub(crate) struct Lines<'a> {
    rest: &'a [u8],
    number: usize,
    ghost few: { number + length rest.now ≤ most_bytes + 1 },
}

impl<'a> Lines<'a> {
    /// The lines of a whole text, counted from 1.
    pub(crate) fn new(text: &'a [u8]) -> Lines<'a>
        requires { length text.now ≤ most_bytes }
        ensures number { result.number ≡ 1 }
        ensures rest { result.rest.now ≡ text.now }
    {
        Lines {
            rest: text,
            number: 1,
        }
    }

    /// The number of the next line.
    pub(crate) fn number(&self) -> usize
        ensures { result ≡ self.now.number }
    {
        self.number
    }
}

impl<'a> Iterator for Lines<'a> {
    type Item = (usize, &'a [u8]);

    ghost next_gives = { λ s r t. TakesLine s.number (lines s.rest.now) r t.number (lines t.rest.now) };

    ghost remaining = { λ s. at_most (length s.rest.now) };

    fn next(&mut self) -> Option<(usize, &'a [u8])> {
        if self.rest.is_empty() {
            return None;
        }
        let number = self.number;
        let line = cut_at(self.rest, |byte| byte == b'\n');
        *self = Lines {
            rest: line.rest,
            number: number + 1,
        };
        Some((number, line.piece))
    }
}
