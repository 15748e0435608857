// A whole job: the line of the number of steps, and then the lines of the bounds.
ghost use Rattle.std.specs.Prelude.{◌≡◌, Some};
ghost use Rattle.jobtext.specs.Job.{HeaderRead, Reports, error_text, header_from, job_said, rows_from};
ghost use Rattle.jobtext.specs.declared.job.TextError.TheVariants.{Memory};
ghost use Rattle.jobtext.specs.Words.{lines};

use crate::line::{Line, read_line};
use crate::lines::Lines;
use bounds::Row;
use std::alloc::{AllocFailed, Global};
use std::error::Error;
use std::fmt;

/// A longer text is refused.
pub const MOST_BYTES: usize = 1_048_576;

/// A number of steps and the rows of the bounds, in the order of their lines.
#[derive(Drop)]
pub struct Job {
    pub steps: u16,
    pub rows: Vec<Row>,
}

/// Why a text is no job.
#[derive(Clone, Copy, PartialEq, Eq, Debug)]
pub enum TextError {
    /// It has more than `MOST_BYTES` bytes.
    TooLong,
    /// The line of this number is the first that is out of place or of no known form. Lines count from 1.
    /// A text without the line of the steps is wrong at the line behind its last.
    Line(usize),
    /// There is not enough memory for the rows.
    Memory,
}

impl fmt::Display for TextError {
    ghost output = { λ e. Some (error_text e) };

    fn fmt<W: fmt::Write>(&self, f: &mut fmt::Formatter<W>) -> fmt::Result {
        match self {
            TextError::TooLong => write!(f, "error: more than {MOST_BYTES} bytes"),
            TextError::Line(number) => write!(f, "error at line {number}"),
            TextError::Memory => write!(f, "error: not enough memory"),
        }
    }
}

impl Error for TextError {}

impl<T: Drop> From<AllocFailed<T>> for TextError {
    ghost from_gives = { λ _ e. e ≡ Memory };

    fn from(_error: AllocFailed<T>) -> TextError {
        Self::Memory
    }
}

/// Reads the text of a job.
pub fn read_job(heap: Global, text: &[u8]) -> Result<Job, TextError>
    ensures { Reports (job_said text.now) result }
{
    if text.len() > MOST_BYTES {
        return Err(TextError::TooLong);
    }
    let mut lines = Lines::new(text);
    let steps = read_header(&mut lines)?;
    read_rows(heap, steps, lines)
}

// Reads up to the line of the number of steps.
fn read_header(unread: &mut Lines<'_>) -> Result<u16, TextError>
    ensures { HeaderRead (header_from unread.old.number (lines unread.old.rest.now)) unread.new.number (lines unread.new.rest.now) result }
{
    // Behind a `for` over `&mut *unread` a proof knows nothing of the lines that are left: `returns` and `returns-in-Steps` stayed open.
    while let Some((number, line)) = unread.next() {
        match read_line(line).map_err(|_| TextError::Line(number))? {
            Line::Blank => {}
            Line::Steps(steps) => return Ok(steps),
            Line::Bound(_) => return Err(TextError::Line(number)),
        }
    }
    Err(TextError::Line(unread.number()))
}

// Reads the bounds behind the line of the number of steps.
fn read_rows(heap: Global, steps: u16, unread: Lines<'_>) -> Result<Job, TextError>
    ensures { Reports (rows_from steps unread.entry.number (lines unread.entry.rest.now)) result }
{
    let mut rows = Vec::new(heap);
    for (number, line) in unread {
        match read_line(line).map_err(|_| TextError::Line(number))? {
            Line::Blank => {}
            Line::Steps(_) => return Err(TextError::Line(number)),
            Line::Bound(row) => rows.push(row)?,
        }
    }
    Ok(Job { steps, rows })
}
