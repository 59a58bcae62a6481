// Scripts of calls: one call a line, as words of text.
#![tactic(auto)]

mod characters;
mod lines;

pub use lines::{Line, parse};
