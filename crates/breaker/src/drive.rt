// What carries out a breaker's orders.
ghost use Rattle.std.specs.Prelude.{◌≡◌, ℕ, Bool};
ghost use Rattle.breaker.specs.Contacts.{is_hot, travel_is_done, always, is_not_closed};

use crate::contacts::{Contact, position_at, shows};
use crate::words::Position;

/// A drive says, by the contact word, when the motor's orders are barred and when an order ends.
pub trait Drive {
    ghost bars: { ℕ → Bool };

    ghost ends: { ℕ → Bool };

    fn bars(word: u32) -> bool
        ensures { result ≡ bars word };

    fn ends(word: u32) -> bool
        ensures { result ≡ ends word };
}

/// It bars the motor's orders while the motor is hot, and its order ends when the travel is done.
#[derive(Clone, Copy, PartialEq, Eq, Debug)]
pub struct Motor;

impl Drive for Motor {
    ghost bars = { is_hot };

    ghost ends = { travel_is_done };

    // A hot motor must rest.
    fn bars(word: u32) -> bool {
        shows(Contact::Hot, word)
    }

    fn ends(word: u32) -> bool {
        shows(Contact::TravelDone, word)
    }
}

/// No motor: it bars the motor's orders always, and its order ends when the breaker is no longer closed.
#[derive(Clone, Copy, PartialEq, Eq, Debug)]
pub struct Release;

impl Drive for Release {
    ghost bars = { always };

    ghost ends = { is_not_closed };

    fn bars(_word: u32) -> bool {
        true
    }

    fn ends(word: u32) -> bool {
        position_at(word) != Position::Closed
    }
}
