// A card: time bounds between steps, packed into the bits of bytes.
#![tactic(auto)]

pub mod layout;
mod part;
pub mod reading;
pub mod refusal;
pub mod rewriting;
pub mod writing;

pub use reading::Card;
pub use refusal::{CardRefusal, RewriteRefusal, WriteRefusal};
pub use rewriting::rewrite;
pub use writing::write_card;
