// The listing of a card: its groups and links, or its refusal, as text.
#![tactic(auto)]

pub mod answer;
mod line;
mod text;

pub use answer::{NotListed, list_card, list_source};
pub use text::{listing, refusal_line};
