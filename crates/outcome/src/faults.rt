// A fault as it is told.
ghost use Rattle.std.specs.Prelude.{◌≡◌};
ghost use Rattle.outcome.specs.Causes.{fault_at};

use crate::causes::{Cause, Layer};

/// Which check failed, in which layer, and where: the octet it met, counted from 0, or the address the request starts at.
#[derive(Clone, Copy, PartialEq, Eq, Debug)]
pub struct Fault {
    pub layer: Layer,
    pub cause: Cause,
    pub place: usize,
}

impl Fault {
    /// The fault of a cause at a place, in the cause's own layer.
    pub fn at(cause: Cause, place: usize) -> Fault
        ensures { result ≡ fault_at cause place }
    {
        Fault {
            layer: cause.layer(),
            cause,
            place,
        }
    }
}
