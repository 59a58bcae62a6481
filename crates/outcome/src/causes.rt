// Every cause for which a call is refused or a burst is at fault.
ghost use Rattle.std.specs.Prelude.{◌≡◌, is_some};
ghost use Rattle.outcome.specs.Causes.{number_of, layer_of, code_of};
ghost use Rattle.outcome.specs.Laws.{layer_numbered, is_answered};

/// Where a check stands on the way from the wire to the breaker. `Entry` is the call itself, before any burst is looked at.
#[derive(Clone, Copy, PartialEq, Eq, Debug)]
pub enum Layer {
    Entry,
    Line,
    Request,
    Device,
}

/// Why a call is refused or a burst is at fault.
#[derive(Clone, Copy, PartialEq, Eq, Debug)]
pub enum Cause {
    /// A silence whose answer buffer has under 32 octets.
    ShortBuffer,
    /// A tick with alarms above 31 or trips above 15.
    BadInputs,
    /// An answer longer than the transmit buffer.
    ShortTransmit,
    BadParity,
    /// More than 256 octets.
    Overlong,
    /// Fewer than 4 octets.
    TooShort,
    WrongCrc,
    OtherAddress,
    /// A broadcast of a function that does not write.
    BroadcastFunction,
    UnknownFunction,
    WrongLength,
    WrongSubFunction,
    WrongCount,
    WrongByteCount,
    /// The start lies in no buffer of the function.
    NoBuffer,
    /// The run of registers leaves the buffer it starts in.
    LeavesBuffer,
    /// A command with another value than 1.
    WrongValue,
    ConditionNotMet,
    HandNotEmpty,
    OrderBarred,
    LocalMode,
    StoreBusy,
    /// Trip buffers without trip data, or the settings in force while the store is unsound.
    NothingToShow,
    /// A Stop whose copy fails a check of the settings.
    UnlawfulCopy,
}

// A row of the table of causes.
#[derive(Clone, Copy)]
struct Row {
    number: u8,
    layer: Layer,
    code: Option<u8>,
}

const fn told(number: u8, layer: Layer, code: Option<u8>) -> Row
    ensures { result ≡ record { number = number; layer = layer; code = code } }
{
    Row {
        number,
        layer,
        code,
    }
}

impl Cause {
    /// The number by which it is told.
    pub fn number(self) -> u8
        ensures value { result ≡ number_of self }
        ensures own { (other : Cause) → number_of other ≡ result → other ≡ self }
    {
        self.row().number
    }

    /// The layer whose check it is, which its number shows.
    pub fn layer(self) -> Layer
        ensures value { result ≡ layer_of self }
        ensures numbered { result ≡ layer_numbered (number_of self) }
    {
        self.row().layer
    }

    /// The exception code that is sent for it: none in the layers that are met before the request.
    pub fn code(self) -> Option<u8>
        ensures value { result ≡ code_of self }
        ensures answered { is_some result ≡ is_answered (layer_of self) }
    {
        self.row().code
    }

    fn row(self) -> Row
        ensures { result ≡ record { number = number_of self; layer = layer_of self; code = code_of self } }
    {
        match self {
            Cause::ShortBuffer => told(1, Layer::Entry, None),
            Cause::BadInputs => told(2, Layer::Entry, None),
            Cause::ShortTransmit => told(3, Layer::Entry, None),
            Cause::BadParity => told(12, Layer::Line, None),
            Cause::Overlong => told(13, Layer::Line, None),
            Cause::TooShort => told(14, Layer::Line, None),
            Cause::WrongCrc => told(15, Layer::Line, None),
            Cause::OtherAddress => told(16, Layer::Line, None),
            Cause::BroadcastFunction => told(17, Layer::Line, None),
            Cause::UnknownFunction => told(21, Layer::Request, Some(1)),
            Cause::WrongLength => told(22, Layer::Request, Some(3)),
            Cause::WrongSubFunction => told(23, Layer::Request, Some(3)),
            Cause::WrongCount => told(24, Layer::Request, Some(3)),
            Cause::WrongByteCount => told(25, Layer::Request, Some(3)),
            Cause::NoBuffer => told(26, Layer::Request, Some(2)),
            Cause::LeavesBuffer => told(27, Layer::Request, Some(3)),
            Cause::WrongValue => told(28, Layer::Request, Some(3)),
            Cause::ConditionNotMet => told(31, Layer::Device, Some(6)),
            Cause::HandNotEmpty => told(32, Layer::Device, Some(6)),
            Cause::OrderBarred => told(33, Layer::Device, Some(6)),
            Cause::LocalMode => told(34, Layer::Device, Some(6)),
            Cause::StoreBusy => told(35, Layer::Device, Some(6)),
            Cause::NothingToShow => told(36, Layer::Device, Some(4)),
            Cause::UnlawfulCopy => told(37, Layer::Device, Some(4)),
        }
    }
}
