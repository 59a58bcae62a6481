// A station that only listens.
use line::Receiver;
use std::marker::Model;

/// Its address, and the burst under way.
#[derive(Drop)]
pub struct Listener {
    pub(crate) address: u8,
    pub(crate) receiver: Receiver,
}

impl Model for Listener {
    ghost use Rattle.line.specs.Memory.{burst_of};
    ghost use Rattle.account.specs.State.{Listening, Within, listening};

    ghost Value = { Listening };

    ghost view = { λ l. listening l.address (burst_of l.receiver) };

    ghost invariant = { λ l. Within (listening l.address (burst_of l.receiver)) };
}
