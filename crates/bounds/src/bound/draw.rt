// How a bound is drawn in by a margin.
ghost use Rattle.std.specs.Prelude.{◌≡◌, true};
ghost use Rattle.bounds.specs.DrawnIn.{bound_drawn_in};

use super::Bound;
use super::make::in_reach;
use crate::fault::Fault;

impl Bound {
    /// The bound with so many seconds added to its lower end and taken from its upper end. Refuses where an end is then out of reach.
    pub fn drawn_in(&self, seconds: u8) -> Result<Bound, Fault>
        ensures { result ≡ bound_drawn_in seconds self.now }
    {
        let lower = self.lower.map(|end| end + i32::from(seconds));
        let upper = self.upper.map(|end| end - i32::from(seconds));
        if !in_reach(lower, upper) {
            return Err(Fault::OutOfReach);
        }
        Ok(Bound {
            from: self.from,
            to: self.to,
            lower,
            upper,
        })
    }
}
