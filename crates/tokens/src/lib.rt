// A line of text as its words, and words as numbers.
#![tactic(auto)]

mod gather;
mod numbers;
mod texts;

pub use numbers::{hex_octet, hex_octets, number, word_values};
pub use texts::{uncommented, words};
