// The eleven protection settings of a breaker, and when a set of them is lawful.
#![tactic(auto)]

mod check;
mod lawful;
mod table;
mod words;

pub use lawful::LawfulSettings;
pub use table::Setting;
pub use words::{Settings, Unlawful};
