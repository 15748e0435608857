// Bounds between the steps of a job, the interface of what lists them, and sources made of rows and of other sources.
#![tactic(auto)]

pub mod bound;
pub mod fault;
pub mod item;
pub mod items;
pub mod joined;
pub mod limits;
pub mod list;
pub mod margin;
pub mod pair;
pub mod row;
pub mod scan;
pub mod source;
pub mod told;

pub use bound::Bound;
pub use fault::Fault;
pub use item::{Item, NoSuchPlace, drawn_in};
pub use items::Items;
pub use joined::Joined;
pub use list::Rows;
pub use margin::Margin;
pub use pair::first_spoiled_of_pair;
pub use row::{LooseEnd, Row};
pub use scan::{SpoiledItem, beyond_limits, first_spoiled};
pub use source::Source;
pub use told::{Reason, Told};
