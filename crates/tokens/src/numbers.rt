// Words that are numbers.
ghost use Rattle.std.specs.Prelude.{◌≡◌};
ghost use Rattle.tokens.specs.Numbers.{number_in, hex_digit, hex_octet, hex_octets, word_value, word_values};
ghost use Rattle.tokens.specs.Words.{spelt};

use crate::gather::gather;

/// The number that a word of decimal digits is, up to 99,999.
pub fn number(word: &[u8]) -> Option<u32>
    ensures { result ≡ number_in word.now }
{
    if word.is_empty() {
        return None;
    }
    // A loop: of a `try_fold`, the proof that it is `number_in` did not close.
    let mut n = 0u32;
    for c in word {
        if !c.is_ascii_digit() || n >= 10_000 {
            return None;
        }
        n = 10 * n + u32::from(*c - b'0');
    }
    Some(n)
}

fn hex_digit(c: u8) -> Option<u8>
    ensures { result ≡ hex_digit c }
{
    let digit = char::from(c).to_digit(16)?;
    u8::try_from(digit).ok()
}

/// The octet whose two hexadecimal digits stand at this place and the next.
pub fn hex_octet(text: &[u8], place: usize) -> Option<u8>
    ensures { result ≡ hex_octet text.now place }
{
    let high = hex_digit(*text.get(place)?)?;
    let low = hex_digit(*text.get(place + 1)?)?;
    Some(16 * high + low)
}

/// So many octets, where a word is their hexadecimal digits, two for each.
pub fn hex_octets<const N: usize>(word: &[u8]) -> Option<[u8; N]>
    ensures { result ≡ hex_octets N word.now }
{
    if word.len() / 2 != N || word.len() % 2 != 0 {
        return None;
    }
    gather(0, |i| hex_octet(word, 2 * i))
}

// A number that fits in a register.
fn word_value(word: &[u8]) -> Option<u16>
    ensures { result ≡ word_value word.now }
{
    let n = number(word)?;
    u16::try_from(n).ok()
}

/// So many values of registers, where the words are their numbers, one for each.
pub fn word_values<const N: usize>(words: &[&[u8]]) -> Option<[u16; N]>
    ensures { result ≡ word_values N (spelt words.now) }
{
    if words.len() != N {
        return None;
    }
    gather(0, |i| word_value(words[i]))
}
