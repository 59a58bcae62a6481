// A station that only listens, and the account of what it hears.
#![tactic(auto)]

mod heard;
mod lines;
mod listen;
mod source;
mod state;
mod texts;

pub use heard::Unheard;
pub use lines::play;
pub use source::Source;
pub use state::Listener;
