// What one line of a job says.
ghost use Rattle.std.specs.Prelude.{◌≡◌};
ghost use Rattle.jobtext.specs.Line.{bound_of, line_of, steps_of};
ghost use Rattle.jobtext.specs.Words.{words};

use crate::cut::cut_at;
use crate::number::{end, step};
use crate::word::Words;
use bounds::Row;

// The first word of a line that gives the number of steps.
const STEPS: &[u8] = b"steps";

// The first word of a line that gives a bound.
const BOUND: &[u8] = b"bound";

/// What a line says.
#[derive(Clone, Copy, PartialEq, Eq, Debug)]
pub enum Line {
    /// Nothing: it has no word, or only a comment.
    Blank,
    /// The number of steps.
    Steps(u16),
    /// A bound, of which nothing is tested yet.
    Bound(Row),
}

/// The line is of no such form.
#[derive(Clone, Copy, PartialEq, Eq, Debug)]
pub struct NotALine;

/// Reads one line, given without its line feed.
pub fn read_line(line: &[u8]) -> Result<Line, NotALine>
    ensures { result ≡ line_of line.now }
{
    let mut words = Words(cut_at(line, |byte| byte == b'#').piece);
    match words.next() {
        None => Ok(Line::Blank),
        Some(key) if key == STEPS => steps(words).map(Line::Steps).ok_or(NotALine),
        Some(key) if key == BOUND => bound(words).map(Line::Bound).ok_or(NotALine),
        Some(_) => Err(NotALine),
    }
}

// The words are all found before a number is read: a line that has too few of them or too many is refused without reading one.

// The number of steps that a line gives by its words behind the first.
fn steps(mut rest: Words<'_>) -> Option<u16>
    ensures { result ≡ steps_of (words rest.entry.0.now) }
{
    let steps = rest.next()?;
    if !rest.is_done() {
        return None;
    }
    step(steps)
}

// The bound that a line gives by its words behind the first.
fn bound(mut rest: Words<'_>) -> Option<Row>
    ensures { result ≡ bound_of (words rest.entry.0.now) }
{
    let from = rest.next()?;
    let to = rest.next()?;
    let lower = rest.next()?;
    let upper = rest.next()?;
    if !rest.is_done() {
        return None;
    }
    Some(Row {
        from: step(from)?,
        to: step(to)?,
        lower: end(lower)?,
        upper: end(upper)?,
    })
}
