// Tests at the edges: bursts, ranges of the settings, images of an EEPROM store, breakers, panels.
#![tactic(auto)]

mod breakers;
mod bursts;
mod panels;
mod ranges;
mod stores;
