// A job as text: its lines, the words of a line, and what they say.
#![tactic(auto)]

mod cut;
pub mod job;
pub mod line;
mod lines;
mod number;
mod word;

pub use job::{Job, TextError, read_job};
pub use line::{Line, NotALine, read_line};
