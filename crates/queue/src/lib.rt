// An ordered queue over lent memory, for every entry type whose order is total.
#![tactic(auto)]

mod insertion;
pub mod lent;
pub mod order;

pub use lent::{Full, Queue};
pub use order::Ordered;
