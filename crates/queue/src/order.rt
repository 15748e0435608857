// The trait of entries that a queue can hold.
ghost use Rattle.std.specs.Prelude.{◌≡◌, Bool, true};
ghost use Rattle.queue.specs.Order.{OneOf};

/// An entry whose order is total.
// A trait beside `Ord`, whose laws let different entries be equal: here two entries that neither comes before are the same.
pub trait Ordered: Copy {
    // whether the first entry comes before the second
    ghost precedes: { Self → Self → Bool };

    /// Whether this entry comes before the other one.
    fn comes_before(&self, other: &Self) -> bool
        ensures { result ≡ precedes self.now other.now };

    // of two entries exactly one holds: the first comes before, the second does, or they are equal
    ghost one: { (x y : Self) → OneOf precedes x y };

    // the order is transitive
    ghost onward: { (x y z : Self) → precedes x y ≡ true → precedes y z ≡ true → precedes x z ≡ true };
}
