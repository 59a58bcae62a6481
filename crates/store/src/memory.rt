// What the two stores hold.
ghost use Rattle.std.specs.Prelude.{◌≡◌, ◌≤◌, length};

use settings::Settings;

// The marks are flags, and no Option of the words: an unsound store has words too, and tells them.
//
// That the words are eleven is said here and not at `Settings`: if that had a ghost field, no definition could write one down.

/// A store whose memory a battery keeps: eleven words and a mark. It writes at once.
#[derive(Drop)]
pub struct BatteryStore {
    pub(crate) settings: Settings,
    pub(crate) sound: bool,
    ghost eleven: { length settings.words ≡ 11 },
}

/// A store that writes behind: the 23 octets as they are, and the words that they will be once all is written.
#[derive(Drop)]
pub struct EepromStore {
    pub(crate) octets: [u8; 23],
    pub(crate) settings: Settings,
    pub(crate) sound: bool,
    pub(crate) busy: u8,
    ghost within: { busy ≤ 3 },
    ghost eleven: { length settings.words ≡ 11 },
}
