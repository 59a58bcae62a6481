// What a line of a script says.
ghost use Rattle.std.specs.Prelude.{◌≡◌, [], IfOk, Some, fold};
ghost use Rattle.std.specs.Option.{option_map};
ghost use Rattle.tokens.specs.Words.{spelt};
ghost use Rattle.script.specs.Lines.{said, with_word, octets_said, lone_number, call_named, call_said, line_said};

use crate::characters::{character, crc_of_characters, good};
use line::Character;
use std::alloc::{AllocError, Global};
use tokens::{number, uncommented, words};

/// One line: a call, nothing at all, or words that are not understood.
// No Result of an Option of a call: all five are told, and one equation over `said` says which of them a text is. An enum has
// no model, so its clauses name `said`; in a struct, every `match` would go through a field.
#[derive(Drop)]
pub enum Line {
    Blank,
    Station(u32),
    Octets(Vec<Character>),
    Silence(u32),
    Unknown,
}

// Compared by `==`: in a `match` on byte strings, the way where no name fits has some twenty cases, and they did not prove.
const STATION: &[u8] = b"station";

const OCTETS: &[u8] = b"octets";

const SILENCE: &[u8] = b"silence";

const CRC: &[u8] = b"+crc";

// The characters and one word more, or nothing where the word is neither an octet nor `+crc`.
fn with_word(
    mut characters: Vec<Character>,
    word: &[u8],
) -> Result<Option<Vec<Character>>, AllocError>
    ensures { IfOk result (λ o. option_map (λ v. v.items) o ≡ with_word (Some characters.items) word.now) }
{
    if word == CRC {
        let [low, high] = crc_of_characters(characters.as_slice()).to_le_bytes();
        characters.push(good(low))?;
        characters.push(good(high))?;
        return Ok(Some(characters));
    }
    let Some(c) = character(word) else {
        return Ok(None);
    };
    characters.push(c)?;
    Ok(Some(characters))
}

fn octets(heap: Global, words: &[&[u8]]) -> Result<Line, AllocError>
    ensures { IfOk result (λ l. said l ≡ octets_said (fold with_word (Some []) (spelt words.now))) }
{
    let mut characters = Vec::new(heap);
    for word in words {
        let Some(more) = with_word(characters, word)? else {
            return Ok(Line::Unknown);
        };
        characters = more;
    }
    Ok(Line::Octets(characters))
}

// The number where it is the only word.
fn lone_number(words: &[&[u8]]) -> Option<u32>
    ensures { result ≡ lone_number (spelt words.now) }
{
    match words {
        [word] => number(word),
        _ => None,
    }
}

// The call that the first word names, with the words behind it.
fn named(heap: Global, name: &[u8], rest: &[&[u8]]) -> Result<Line, AllocError>
    ensures { IfOk result (λ l. said l ≡ call_named name.now (spelt rest.now)) }
{
    if name == STATION {
        Ok(lone_number(rest).map_or(Line::Unknown, Line::Station))
    } else if name == OCTETS {
        octets(heap, rest)
    } else if name == SILENCE {
        Ok(lone_number(rest).map_or(Line::Unknown, Line::Silence))
    } else {
        Ok(Line::Unknown)
    }
}

fn call(heap: Global, words: &[&[u8]]) -> Result<Line, AllocError>
    ensures { IfOk result (λ l. said l ≡ call_said (spelt words.now)) }
{
    match words {
        [] => Ok(Line::Blank),
        [name, rest @ ..] => named(heap, name, rest),
    }
}

/// What a line of a script says.
pub fn parse(heap: Global, text: &[u8]) -> Result<Line, AllocError>
    ensures { IfOk result (λ l. said l ≡ line_said text.now) }
{
    let words = words(heap, uncommented(text))?;
    call(heap, words.as_slice())
}
