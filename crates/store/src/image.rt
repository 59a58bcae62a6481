// The 23 octets of a set: eleven words, high octet first, and the congruency octet.
ghost use Rattle.std.specs.Prelude.{◌≡◌};
ghost use Rattle.store.specs.Stores.{congruency, image};
ghost use Rattle.words.specs.Words.{words_in};

use std::array;
use words::{octet_at, word_at};

/// The low octet of the octets' sum plus 55h.
pub(crate) fn congruency(octets: &[u8]) -> u8
    ensures { result ≡ congruency octets.now }
{
    octets
        .iter()
        .fold(0x55, |sum, octet| sum.wrapping_add(*octet))
}

pub(crate) fn image(words: &[u16; 11]) -> [u8; 23]
    ensures { result ≡ image words.now }
{
    let mut octets = array::from_fn(|place| octet_at(words, place));
    octets[22] = congruency(&octets[..22]);
    octets
}

pub(crate) fn words_in(octets: &[u8]) -> [u16; 11]
    ensures { result ≡ words_in octets.now 11 }
{
    array::from_fn(|i| word_at(octets, 2 * i))
}
