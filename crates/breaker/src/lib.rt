// Breakers behind one interface, and those that read their contacts.
#![tactic(auto)]

mod carry;
mod contact_breaker;
mod contacts;
mod drive;
mod terms;
mod words;

pub use carry::carry_out;
pub use contact_breaker::{ContactBreaker, MotorBreaker, ReleaseBreaker};
pub use drive::{Drive, Motor, Release};
pub use terms::Breaker;
pub use words::{NotTaken, Order, Position};
