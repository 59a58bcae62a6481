// The line: octets off the wire are kept until a silence ends the burst, and the burst is a frame for this station or a fault.
#![tactic(auto)]

mod characters;
mod check;
mod faults;
mod frames;
mod kept;
mod receive;
mod received;

pub use characters::{Character, Parity};
pub use faults::LineFault;
pub use frames::compose;
pub use kept::Receiver;
pub use received::{Frame, Places};
