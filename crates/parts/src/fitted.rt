// A breaker and a store whose kinds are chosen at opening.
ghost use Rattle.std.specs.Prelude.{◌≡◌};
ghost use Rattle.parts.specs.Fitted.{breaker_of, store_of, fitted_of, breaker_at, store_from, fitted_by, kept_in, panel_in};
ghost use Rattle.parts.specs.Panel.{panel_of};

use crate::kinds::{BreakerKind, Opening, StoreImage};
use crate::panels::{Panel, panel_of};
use breaker::{Breaker, MotorBreaker, ReleaseBreaker};
use store::{BatteryStore, EepromStore};

// Enums and no `dyn`: parts are opened and handed out, which a `dyn` does only in a box, on a heap.

#[derive(Drop)]
pub enum AnyBreaker {
    Motor(MotorBreaker),
    Release(ReleaseBreaker),
}

#[derive(Drop)]
pub enum AnyStore {
    Battery(BatteryStore),
    Eeprom(EepromStore),
}

/// What stands behind a station.
#[derive(Drop)]
pub struct Parts {
    pub(crate) breaker: AnyBreaker,
    pub(crate) store: AnyStore,
}

fn breaker_at(kind: BreakerKind, word: u32) -> AnyBreaker
    ensures { breaker_of result ≡ breaker_at kind word }
{
    match kind {
        BreakerKind::Motor => AnyBreaker::Motor(MotorBreaker::new(word)),
        BreakerKind::Release => AnyBreaker::Release(ReleaseBreaker::new(word)),
    }
}

impl From<StoreImage> for AnyStore {
    ghost from_gives = { λ image store. store_of store ≡ store_from image };

    fn from(image: StoreImage) -> AnyStore {
        match image {
            StoreImage::Battery { settings, sound } => {
                AnyStore::Battery(BatteryStore::new(settings, sound))
            }
            StoreImage::Eeprom { octets } => AnyStore::Eeprom(EepromStore::open(octets)),
        }
    }
}

fn panel_with<B: Breaker>(breaker: &B, store: &AnyStore) -> Panel
    ensures { result ≡ panel_of B.Breaker.terms (B.Breaker.figure breaker.now) (kept_in (store_of store.now)) }
{
    match store {
        AnyStore::Battery(store) => panel_of(breaker, store),
        AnyStore::Eeprom(store) => panel_of(breaker, store),
    }
}

impl Parts {
    pub fn open(opening: &Opening) -> Parts
        ensures { fitted_of result ≡ fitted_by opening.now }
    {
        Parts {
            breaker: breaker_at(opening.breaker, opening.contacts),
            store: opening.store.into(),
        }
    }

    pub fn panel(&self) -> Panel
        ensures { result ≡ panel_in (fitted_of self.now) }
    {
        match &self.breaker {
            AnyBreaker::Motor(breaker) => panel_with(breaker, &self.store),
            AnyBreaker::Release(breaker) => panel_with(breaker, &self.store),
        }
    }
}
