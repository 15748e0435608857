// How a bound is made from loose values, and what it says.
ghost use Rattle.std.specs.Prelude.{◌≡◌};
ghost use Rattle.bounds.specs.Made.{made_bound};
ghost use Rattle.bounds.specs.Reach.{end_in_reach, ends_in_reach, has_end};

use super::Bound;
use crate::fault::Fault;
use crate::limits::HORIZON;
use crate::row::Row;

impl Bound {
    /// The bound that loose values make. Refuses where no end is present or an absent one has a value, then where an end is out of reach.
    pub fn new(row: &Row) -> Result<Bound, Fault>
        ensures { result ≡ made_bound row.now }
    {
        if !row.lower.is_tidy() || !row.upper.is_tidy() {
            return Err(Fault::NoEnd);
        }
        let lower = row.lower.end();
        let upper = row.upper.end();
        if !has_end(lower, upper) {
            return Err(Fault::NoEnd);
        }
        if !in_reach(lower, upper) {
            return Err(Fault::OutOfReach);
        }
        Ok(Bound {
            from: row.from,
            to: row.to,
            lower,
            upper,
        })
    }

    /// The step that the bound counts from.
    pub fn from_step(&self) -> u16
        ensures { result ≡ self.now.from }
    {
        self.from
    }

    /// The step that the bound counts to.
    pub fn to_step(&self) -> u16
        ensures { result ≡ self.now.to }
    {
        self.to
    }

    /// The least number of seconds between the two, if there is one.
    pub fn lower_end(&self) -> Option<i32>
        ensures { result ≡ self.now.lower }
    {
        self.lower
    }

    /// The greatest number of seconds between the two, if there is one.
    pub fn upper_end(&self) -> Option<i32>
        ensures { result ≡ self.now.upper }
    {
        self.upper
    }
}

// Whether an end is present.
fn has_end(lower: Option<i32>, upper: Option<i32>) -> bool
    ensures { result ≡ has_end lower upper }
{
    lower.is_some() || upper.is_some()
}

// Whether each end that is present is in reach.
pub(super) fn in_reach(lower: Option<i32>, upper: Option<i32>) -> bool
    ensures { result ≡ ends_in_reach lower upper }
{
    end_in_reach(lower) && end_in_reach(upper)
}

// Whether an end, if it is present, is in reach.
fn end_in_reach(end: Option<i32>) -> bool
    ensures { result ≡ end_in_reach end }
{
    end.is_none_or(|seconds| -HORIZON <= seconds && seconds <= HORIZON)
}
