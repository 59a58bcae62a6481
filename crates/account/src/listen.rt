// The calls of a station that only listens.
ghost use Rattle.std.specs.Prelude.{◌≡◌, ◌≤◌, length, IfOk, IfSome};
ghost use Rattle.account.specs.State.{Within, listening};
ghost use Rattle.account.specs.Listening.{opened, address_in, passed, silence_tells, silence_leaves};
ghost use Rattle.line.specs.Burst.{more};
ghost use Rattle.line.specs.Lent.{lent};
ghost use Rattle.line.specs.Line.{reception};

use crate::heard::Unheard;
use crate::state::Listener;
use line::{Character, Frame, Receiver};
use outcome::{Cause, Fault};

// An address outside 1 to 247 becomes 247.
pub(crate) fn address_in(address: u32) -> u8
    ensures { result ≡ address_in address }
{
    match u8::try_from(address) {
        Ok(usable @ 1..=247) => usable,
        _ => 247,
    }
}

impl Listener {
    /// A station just opened at an address.
    pub fn open(address: u32) -> Listener
        ensures value { result ≡ opened address }
        ensures within { Within result }
    {
        Listener {
            address: address_in(address),
            receiver: Receiver::new(),
        }
    }

    /// Characters off the wire.
    pub fn octets(&mut self, characters: &[Character])
        ensures value { self.new ≡ listening self.old.address (more self.old.burst characters.now) }
        ensures within { (Within self.old) × (Within self.new) }
    {
        self.receiver.characters(characters);
    }

    /// What a silence with an answer buffer of `room` octets tells.
    pub fn heard(&self, room: u32) -> Result<Option<Frame<'_>>, Unheard>
        ensures value { lent result ≡ silence_tells self.now room }
        ensures within { Within self.now }
        ensures frame { IfOk (lent result) (λ o. IfSome o (λ os. length os ≤ 254)) }
    {
        // Brings in what every listener keeps to, for a silence that is refused.
        let _ = &self.address;
        if room < 32 {
            return Err(Unheard::Refused(Cause::ShortBuffer));
        }
        Ok(self.received()?)
    }

    // The burst under way, as the line takes it.
    fn received(&self) -> Result<Option<Frame<'_>>, Fault>
        ensures value { lent result ≡ passed (reception self.now.address self.now.burst) }
        ensures frame { IfOk (lent result) (λ o. IfSome o (λ os. length os ≤ 254)) }
    {
        Ok(self.receiver.frame(self.address)?)
    }

    /// The silence itself: it ends the burst, unless it is refused.
    pub fn silence(&mut self, room: u32)
        ensures value { self.new ≡ silence_leaves self.old room }
        ensures within { (Within self.old) × (Within self.new) }
    {
        if room >= 32 {
            self.receiver.clear();
        }
    }
}
