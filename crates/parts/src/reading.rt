// An opening as the words of a script.
ghost use Rattle.std.specs.Prelude.{◌≡◌};
ghost use Rattle.parts.specs.Reading.{kind_in, contacts_in, mark_in, short_store, long_store, store_in, opening_of, opening_in};
ghost use Rattle.tokens.specs.Words.{spelt};

use crate::kinds::{BreakerKind, Opening, StoreImage};
use settings::Settings;
use tokens::{hex_octets, number, word_values};

// Compared by `==`: in a `match` on byte strings, the way where no name fits has some twenty cases, and they did not prove.
const MOTOR: &[u8] = b"motor";

const RELEASE: &[u8] = b"release";

const SOUND: &[u8] = b"sound";

const UNSOUND: &[u8] = b"unsound";

const BATTERY: &[u8] = b"battery";

const FACTORY: &[u8] = b"factory";

const EEPROM: &[u8] = b"eeprom";

// `kind` and `mark` read two names each: over a table of names, a contract would speak of borrowed names and read worse.
fn kind(word: &[u8]) -> Option<BreakerKind>
    ensures { result ≡ kind_in word.now }
{
    if word == MOTOR {
        Some(BreakerKind::Motor)
    } else if word == RELEASE {
        Some(BreakerKind::Release)
    } else {
        None
    }
}

// A contact word is eight hexadecimal digits.
fn contacts(word: &[u8]) -> Option<u32>
    ensures { result ≡ contacts_in word.now }
{
    hex_octets(word).map(u32::from_be_bytes)
}

fn mark(word: &[u8]) -> Option<bool>
    ensures { result ≡ mark_in word.now }
{
    if word == SOUND {
        Some(true)
    } else if word == UNSOUND {
        Some(false)
    } else {
        None
    }
}

// `battery factory`, or `eeprom` and its octets.
fn short_store(name: &[u8], word: &[u8]) -> Option<StoreImage>
    ensures { result ≡ short_store name.now word.now }
{
    if name == BATTERY && word == FACTORY {
        return Some(StoreImage::factory());
    }
    if name == EEPROM {
        let octets = hex_octets(word)?;
        return Some(StoreImage::Eeprom { octets });
    }
    None
}

// `battery`, a mark and eleven words.
fn long_store(name: &[u8], word: &[u8], values: &[&[u8]]) -> Option<StoreImage>
    ensures { result ≡ long_store name.now word.now (spelt values.now) }
{
    if name != BATTERY {
        return None;
    }
    let sound = mark(word)?;
    let words = word_values(values)?;
    Some(StoreImage::Battery {
        settings: Settings { words },
        sound,
    })
}

fn store(image: &[&[u8]]) -> Option<StoreImage>
    ensures { result ≡ store_in (spelt image.now) }
{
    match image {
        [name, word] => short_store(name, word),
        [name, word, values @ ..] => long_store(name, word, values),
        _ => None,
    }
}

fn opening_of(breaker: &[u8], word: &[u8], image: &[&[u8]], address: &[u8]) -> Option<Opening>
    ensures { result ≡ opening_of breaker.now word.now (spelt image.now) address.now }
{
    Some(Opening {
        breaker: kind(breaker)?,
        contacts: contacts(word)?,
        store: store(image)?,
        address: number(address)?,
    })
}

/// What a station opens from, by the words BREAKER CONTACTS STORE … ADDRESS; nothing where they are not of that form.
pub fn opening(words: &[&[u8]]) -> Option<Opening>
    ensures { result ≡ opening_in (spelt words.now) }
{
    match words {
        [breaker, word, image @ .., address] => opening_of(breaker, word, image, address),
        _ => None,
    }
}
