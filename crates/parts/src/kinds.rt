// What a station opens from.
ghost use Rattle.std.specs.Prelude.{◌≡◌};
ghost use Rattle.parts.specs.Reading.{factory_store, at_first};

use settings::{LawfulSettings, Settings};

#[derive(Clone, Copy, PartialEq, Eq, Debug)]
pub enum BreakerKind {
    Motor,
    Release,
}

/// A store by what it opens from.
// `sound` is a flag beside the settings, since a store opens unsound with words of its own too.
#[derive(Clone, Copy, PartialEq, Eq, Debug)]
pub enum StoreImage {
    Battery { settings: Settings, sound: bool },
    Eeprom { octets: [u8; 23] },
}

impl StoreImage {
    /// A battery store with the factory settings.
    pub(crate) fn factory() -> StoreImage
        ensures { result ≡ factory_store }
    {
        StoreImage::Battery {
            settings: LawfulSettings::factory().settings(),
            sound: true,
        }
    }
}

/// Breaker, contact word at the start, store and address.
#[derive(Clone, Copy, PartialEq, Eq, Debug)]
pub struct Opening {
    pub breaker: BreakerKind,
    pub contacts: u32,
    pub store: StoreImage,
    pub address: u32,
}

impl Opening {
    /// What stands there before a script opens a station.
    pub fn at_first() -> Opening
        ensures { result ≡ at_first }
    {
        Opening {
            breaker: BreakerKind::Motor,
            contacts: 0,
            store: StoreImage::factory(),
            address: 247,
        }
    }
}
