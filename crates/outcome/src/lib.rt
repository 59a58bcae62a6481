// What can go wrong: every cause by name, and a fault as it is told.
#![tactic(auto)]

mod causes;
mod faults;
mod texts;

pub use causes::{Cause, Layer};
pub use faults::Fault;
