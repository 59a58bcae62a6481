// The receiver's memory.
use crate::characters::Parity;
use std::marker::Model;

// Arrays with a length and a flag beside them, and no Vec: the rules fix this memory, zero octets at first, never on a heap.
// Two arrays and none of characters, since a frame is lent as its octets.

/// The octets of the burst under way. Only the first 256 are kept, with their marks; `overlong` tells that more came.
#[derive(Drop)]
pub struct Receiver {
    pub(crate) octets: [u8; 256],
    pub(crate) marks: [Parity; 256],
    pub(crate) length: usize,
    pub(crate) overlong: bool,
}

// The memory and not the burst that is read from it, since what lies behind the burst is promised too.
impl Model for Receiver {
    ghost use Rattle.line.specs.Memory.{Memory, Bounded, memory};

    ghost Value = { Memory };

    ghost view = { λ r. memory r.octets r.marks r.length r.overlong };

    ghost invariant = { λ r. Bounded (memory r.octets r.marks r.length r.overlong) };
}
