// Octets come in, a silence empties the receiver.
ghost use Rattle.std.specs.Prelude.{◌≡◌, ◌≤◌, length};
ghost use Rattle.line.specs.Burst.{more, no_burst, one_more, whole_burst};
ghost use Rattle.line.specs.Memory.{Bounded, burst_of, fresh, remembered, all_remembered, emptied};

use crate::characters::{Character, Parity};
use crate::kept::Receiver;

impl Receiver {
    /// A receiver begins as 256 zero octets and length 0.
    pub fn new() -> Receiver
        ensures burst { burst_of result ≡ no_burst }
        ensures memory { result ≡ fresh }
        ensures bounded { Bounded result }
    {
        Receiver {
            octets: [0; 256],
            marks: [Parity::Good; 256],
            length: 0,
            overlong: false,
        }
    }

    /// A run of characters off the wire. From a burst's beginning on, what is kept of it is its first 256 octets.
    pub fn characters(&mut self, characters: &[Character])
        ensures burst { burst_of self.new ≡ more (burst_of self.old) characters.now }
        ensures memory { self.new ≡ all_remembered self.old characters.now }
        ensures bounded { (Bounded self.old) × (Bounded self.new) }
        ensures whole { burst_of self.old ≡ no_burst → burst_of self.new ≡ whole_burst characters.now }
    {
        // Brings in what every receiver keeps to, for a run of no characters.
        let _ = &self.length;
        for character in characters {
            self.octet(*character);
        }
    }

    /// One character off the wire.
    pub fn octet(&mut self, character: Character)
        ensures burst { burst_of self.new ≡ one_more (burst_of self.old) character }
        ensures memory { self.new ≡ remembered self.old character }
        ensures bounded { (Bounded self.old) × (Bounded self.new) }
    {
        if self.length < 256 {
            self.octets[self.length] = character.value;
            self.marks[self.length] = character.parity;
            self.length += 1;
        } else {
            self.overlong = true;
        }
    }

    /// The burst has ended: the next octet is the first of another.
    pub fn clear(&mut self)
        ensures burst { burst_of self.new ≡ no_burst }
        ensures memory { self.new ≡ emptied self.old }
        ensures bounded { (Bounded self.old) × (Bounded self.new) }
    {
        self.length = 0;
        self.overlong = false;
    }

    /// The octets kept, at most 256.
    pub fn octets(&self) -> &[u8]
        ensures value { result.now ≡ (burst_of self.now).octets }
        ensures within { length result.now ≤ 256 }
        ensures bounded { Bounded self.now }
    {
        &self.octets[..self.length]
    }

    /// The mark of each octet kept.
    // As `octets`, over an array of another type: one generic function would be handed the array and its length.
    pub(crate) fn marks(&self) -> &[Parity]
        ensures { result.now ≡ (burst_of self.now).marks }
    {
        &self.marks[..self.length]
    }
}
