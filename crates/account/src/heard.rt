// What keeps a silence from bringing a frame.
ghost use Rattle.std.specs.Prelude.{◌≡◌, Some};
ghost use Rattle.account.specs.declared.heard.Unheard.{Unheard};
ghost use Rattle.account.specs.Texts.{unheard_text};

use outcome::{Cause, Fault};
use std::fmt;

/// The silence is refused, or the burst that it ends is at fault.
#[derive(Clone, Copy, PartialEq, Eq, Debug)]
pub enum Unheard {
    Refused(Cause),
    Fault(Fault),
}

impl From<Fault> for Unheard {
    ghost from_gives = { λ f e. e ≡ Unheard.Fault f };

    fn from(fault: Fault) -> Unheard {
        Self::Fault(fault)
    }
}

impl fmt::Display for Unheard {
    ghost output = { λ unheard. Some (unheard_text unheard) };

    fn fmt<W: fmt::Write>(&self, f: &mut fmt::Formatter<W>) -> fmt::Result {
        match self {
            Unheard::Refused(cause) => write!(f, "refused {}", cause.number()),
            Unheard::Fault(fault) => write!(f, "{fault}, nothing sent"),
        }
    }
}
