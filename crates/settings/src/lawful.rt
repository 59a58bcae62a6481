// A set that has passed every check.
ghost use Rattle.std.specs.Prelude.{◌≡◌, ℕ, List, length, true};
ghost use Rattle.settings.specs.Checks.{is_lawful};

use crate::words::Settings;
use std::marker::Model;

/// Eleven words that pass all thirteen checks. A check makes one, and so does the factory set; nothing else can.
// That they are eleven is said here and not at `Settings`: if that had a ghost field, no definition could write one down.
#[derive(Clone, Copy, PartialEq, Eq, Debug)]
pub struct LawfulSettings {
    pub(crate) settings: Settings,
}

impl Model for LawfulSettings {
    ghost Value = { List ℕ };

    ghost view = { λ s. s.settings.words };

    ghost invariant = { λ s. (length s.settings.words ≡ 11) × (is_lawful s.settings.words ≡ true) };

    ghost inverse = { λ ws. record { settings = record { words = ws } } };
}
