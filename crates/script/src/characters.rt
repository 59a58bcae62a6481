// Words that are characters off the wire.
ghost use Rattle.std.specs.Prelude.{◌≡◌, map};
ghost use Rattle.crc.specs.Crc.{crc_of};
ghost use Rattle.line.specs.Burst.{good};
ghost use Rattle.script.specs.Characters.{marked_in, character_in};

use crc::crc_from;
use line::{Character, Parity};
use tokens::hex_octet;

// A character whose parity is as it should be.
pub(crate) fn good(value: u8) -> Character
    ensures { result ≡ good value }
{
    let parity = Parity::Good;
    Character { value, parity }
}

fn marked(word: &[u8], parity: Parity) -> Option<Character>
    ensures { result ≡ marked_in word.now parity }
{
    let value = hex_octet(word, 0)?;
    Some(Character { value, parity })
}

/// The octet that a word is: two hexadecimal digits, and '!' where its parity is bad.
pub(crate) fn character(word: &[u8]) -> Option<Character>
    ensures { result ≡ character_in word.now }
{
    match word {
        [_, _] => marked(word, Parity::Good),
        [_, _, b'!'] => marked(word, Parity::Bad),
        _ => None,
    }
}

/// The CRC of the characters' octets.
pub(crate) fn crc_of_characters(characters: &[Character]) -> u16
    ensures { result ≡ crc_of (map (λ c. c.value) characters.now) }
{
    characters
        .iter()
        .fold(0xFFFF, |crc, c| crc_from(crc, &[c.value]))
}
