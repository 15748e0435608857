// The run of a job: when a step may start, what is due, and what a call leaves.
#![tactic(auto)]

pub mod calls;
pub mod due;
mod fixing;
pub mod group;
pub mod index;
pub mod opening;
pub mod refusal;
mod rules;
pub mod run;
mod slots;
pub mod state;
mod tables;

pub use group::Window;
pub use refusal::{CueRefusal, NoSuchStep, OpenRefusal, Short, WaitRefusal};
pub use run::Run;
