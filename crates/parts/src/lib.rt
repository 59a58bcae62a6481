// The parts that a script can name: a breaker and a store of some kind, and what a panel shows of them.
#![tactic(auto)]

mod fitted;
mod kinds;
mod panels;
mod reading;

pub use fitted::Parts;
pub use kinds::{BreakerKind, Opening, StoreImage};
pub use panels::Panel;
pub use reading::opening;
