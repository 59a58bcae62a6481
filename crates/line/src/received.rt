// A sound frame for this station.
ghost use Rattle.std.specs.Prelude.{◌≡◌, ◌≤◌, length, drop};

/// The octets of a frame without its CRC, where the receiver keeps them: address, function and data.
// A ghost field and no model: a struct that borrows and has a model is neither copied nor compared.
#[derive(Clone, Copy, PartialEq, Eq, Debug)]
pub struct Frame<'a> {
    pub(crate) octets: &'a [u8],
    ghost whole: { 2 ≤ length octets.now },
}

/// Where the parts of a sound frame for this station stand in the receiver: the function at `function`, the data from `data` on,
/// and at `end` the CRC.
#[derive(Clone, Copy, PartialEq, Eq, Debug)]
pub struct Places {
    pub address: u8,
    pub broadcast: bool,
    pub function: usize,
    pub data: usize,
    pub end: usize,
}

impl<'a> Frame<'a> {
    ghost use Rattle.std.specs.Option.{option_map};
    ghost use Rattle.line.specs.Frames.{address_of, function_of, is_broadcast};
    ghost use Rattle.line.specs.Line.{parted};
    ghost use Rattle.line.specs.Lent.{octets_of, octets_and_crc};
    ghost use Rattle.line.specs.Places.{places_of};

    /// Octets off the wire as a frame and the CRC that it carries; `None` where they are too short for that.
    pub(crate) fn parted(octets: &'a [u8]) -> Option<(Frame<'a>, u16)>
        ensures { option_map octets_and_crc result ≡ parted octets.now }
    {
        match octets {
            [body @ .., low, high] if body.len() >= 2 => {
                Some((Frame { octets: body }, u16::from_le_bytes([*low, *high])))
            }
            _ => None,
        }
    }

    pub fn address(&self) -> u8
        ensures { result ≡ address_of (octets_of self.now) }
    {
        self.octets[0]
    }

    /// A broadcast is for all stations, and not answered.
    pub fn is_broadcast(&self) -> bool
        ensures { result ≡ is_broadcast (octets_of self.now) }
    {
        self.address() == 0
    }

    pub fn function(&self) -> u8
        ensures { result ≡ function_of (octets_of self.now) }
    {
        self.octets[1]
    }

    pub fn data(&self) -> &'a [u8]
        ensures { result.now ≡ drop 2 (octets_of self.now) }
    {
        &self.octets[2..]
    }

    // Where its parts stand in the receiver that lends it.
    pub(crate) fn places(&self) -> Places
        ensures { result ≡ places_of (octets_of self.now) }
    {
        Places {
            address: self.address(),
            broadcast: self.is_broadcast(),
            function: 1,
            data: 2,
            end: self.octets.len(),
        }
    }

    /// All of it.
    pub fn octets(&self) -> &'a [u8]
        ensures { result.now ≡ octets_of self.now }
    {
        &self.octets[..]
    }
}
