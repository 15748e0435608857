// Examples of the crates of this repository at work.
#![tactic(auto)]

pub mod borrowing;
#[cfg(test)]
mod cards;
#[cfg(test)]
mod compiling;
pub mod lending;
#[cfg(test)]
mod made;
#[cfg(test)]
mod queueing;
#[cfg(test)]
mod running;
#[cfg(test)]
mod sources;
#[cfg(test)]
mod writing;
