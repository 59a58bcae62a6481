// A fault of the line.
ghost use Rattle.std.specs.Prelude.{◌≡◌};
ghost use Rattle.outcome.specs.Causes.{fault_at};

use outcome::{Cause, Fault};

/// Which check of the line failed, and at which octet.
#[derive(Clone, Copy, PartialEq, Eq, Debug)]
pub struct LineFault {
    pub cause: Cause,
    pub place: usize,
}

/// A fault of the line goes up with nothing lost.
impl From<LineFault> for Fault {
    ghost from_gives = { λ e r. r ≡ fault_at e.cause e.place };

    fn from(e: LineFault) -> Fault {
        Fault::at(e.cause, e.place)
    }
}
