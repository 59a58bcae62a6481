// Stores of the settings behind one interface, and two of them.
#![tactic(auto)]

mod battery;
mod eeprom;
mod image;
mod memory;
mod terms;

pub use memory::{BatteryStore, EepromStore};
pub use terms::{Busy, Store, in_force};
