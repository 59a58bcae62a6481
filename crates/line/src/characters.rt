// What comes off the wire.

/// Whether an octet came with the parity that it should have.
#[derive(Clone, Copy, PartialEq, Eq, Debug)]
pub enum Parity {
    Good,
    Bad,
}

/// One character off the wire.
#[derive(Clone, Copy, PartialEq, Eq, Debug)]
pub struct Character {
    pub value: u8,
    pub parity: Parity,
}
