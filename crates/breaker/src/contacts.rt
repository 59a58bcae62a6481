// What a breaker that reads its contacts is at a moment.
ghost use Rattle.std.specs.Prelude.{◌≡◌};
ghost use Rattle.breaker.specs.Contacts.{shows, position_at, by_motor, started};

use crate::words::{Order, Position};

/// The last contact word, and the order in hand.
#[derive(Clone, Copy, PartialEq, Eq, Debug)]
pub struct Contacts {
    pub(crate) word: u32,
    pub(crate) hand: Option<Order>,
}

/// What a contact word tells: the bit for each.
#[derive(Clone, Copy, PartialEq, Eq, Debug)]
pub(crate) enum Contact {
    Closed = 0,
    Tripped = 1,
    /// A trip command failed.
    Failed = 2,
    /// The motor is over 100 °C.
    Hot = 3,
    TravelDone = 4,
}

pub(crate) fn shows(contact: Contact, word: u32) -> bool
    ensures { result ≡ shows contact word }
{
    (word >> (contact as u32)) % 2 == 1
}

pub(crate) fn position_at(word: u32) -> Position
    ensures { result ≡ position_at word }
{
    if shows(Contact::Tripped, word) {
        Position::Tripped
    } else if shows(Contact::Closed, word) {
        Position::Closed
    } else {
        Position::Open
    }
}

// Close and reset are the motor's orders; opening needs none.
pub(crate) fn by_motor(order: Order) -> bool
    ensures { result ≡ by_motor order }
{
    matches!(order, Order::Close | Order::Reset)
}

impl Contacts {
    /// A breaker starts from a contact word with an empty hand.
    pub(crate) fn new(word: u32) -> Contacts
        ensures { result ≡ started word }
    {
        Contacts { word, hand: None }
    }
}
