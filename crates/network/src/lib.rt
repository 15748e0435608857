// Compilation of a source of bounds into distances, rigid groups and a pruned table of links.
#![tactic(auto)]

mod closure;
pub mod compiler;
mod distances;
pub mod due;
mod grid;
mod groups;
mod leaders;
mod links;
pub mod order;
pub mod refusal;
mod start;
pub mod tables;

pub use compiler::{Compiled, compile};
pub use due::DueEntry;
pub use refusal::Refusal;
pub use tables::{GroupEntry, Kind, Link};
