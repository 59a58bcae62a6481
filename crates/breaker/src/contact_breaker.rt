// A breaker that reads its contacts, with a drive of some kind.
ghost use Rattle.std.specs.Prelude.{◌≡◌};
ghost use Rattle.breaker.specs.Contacts.{by_contacts, started, motor, release};
ghost use Rattle.breaker.specs.declared.contacts.Contacts.{Contacts};
ghost use Rattle.std.proofs.Common.{rules};

use crate::contacts::{Contact, Contacts, by_motor, position_at, shows};
use crate::drive::{Drive, Motor, Release};
use crate::terms::Breaker;
use crate::words::{NotTaken, Order, Position};
use std::marker::PhantomData;

/// A breaker that reads its contacts.
#[derive(Drop)]
pub struct ContactBreaker<D> {
    pub(crate) contacts: Contacts,
    drive: PhantomData<D>,
}

/// A breaker that closes and resets by a motor.
pub type MotorBreaker = ContactBreaker<Motor>;

/// A breaker with an opening release and no motor.
pub type ReleaseBreaker = ContactBreaker<Release>;

impl<D: Drive> ContactBreaker<D> {
    /// It starts from a contact word with an empty hand. With the motor it keeps the terms of the motor breaker, with the
    /// release those of the release breaker.
    pub fn new(word: u32) -> ContactBreaker<D>
        ensures started { result.contacts ≡ started word }
        ensures motor { ⟦<MotorBreaker as Breaker>⟧.terms ≡ motor }
        ensures release { ⟦<ReleaseBreaker as Breaker>⟧.terms ≡ release }
    {
        ContactBreaker {
            contacts: Contacts::new(word),
            drive: PhantomData,
        }
    }
}

impl<D: Drive> Breaker for ContactBreaker<D> {
    ghost Figure = { Contacts };

    ghost figure = { λ b. b.contacts };

    ghost terms = { by_contacts D.bars D.ends };

    ghost laws = { Prim.search rules };

    fn position(&self) -> Position {
        position_at(self.contacts.word)
    }

    fn failed(&self) -> bool {
        shows(Contact::Failed, self.contacts.word)
    }

    fn hand(&self) -> Option<Order> {
        self.contacts.hand
    }

    fn bars(&self, order: Order) -> bool {
        by_motor(order) && D::bars(self.contacts.word)
    }

    fn take(&mut self, order: Order) -> Result<(), NotTaken> {
        let barred = self.bars(order);
        if barred || self.contacts.hand.is_some() {
            return Err(NotTaken);
        }
        self.contacts = Contacts {
            hand: Some(order),
            ..self.contacts
        };
        Ok(())
    }

    fn let_go(&mut self) {
        self.contacts = Contacts {
            hand: None,
            ..self.contacts
        };
    }

    fn tick(&mut self, word: u32) {
        self.contacts.word = word;
        if D::ends(word) {
            self.let_go();
        }
    }
}
