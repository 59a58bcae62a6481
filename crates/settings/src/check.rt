// The thirteen checks.
ghost use Rattle.std.specs.Prelude.{◌≡◌, true, is_ok};
ghost use Rattle.outcome.specs.Checks.{first_failing};
ghost use Rattle.settings.specs.Checks.{range_checks, order_checks, fail_code, is_lawful};
ghost use Rattle.settings.specs.Laws.{Lawful};
ghost use Rattle.settings.specs.Table.{settings, factory_set};
ghost use Rattle.settings.specs.Verdict.{verdict};

use crate::lawful::LawfulSettings;
use crate::table::TABLE;
use crate::words::{Settings, Unlawful};

// The code of the first word outside its range.
fn range_code(words: &[u16; 11]) -> Option<u16>
    ensures { result ≡ first_failing (range_checks settings words.now) }
{
    TABLE
        .iter()
        .zip(words)
        .find(|(setting, word)| setting.is_outside(**word))
        .map(|(setting, _)| setting.code)
}

// The code of the first two thresholds that are not in order.
fn order_code(words: &[u16; 11]) -> Option<u16>
    ensures { result ≡ first_failing (order_checks words.now) }
{
    let [
        l_threshold,
        _,
        s_disable,
        _,
        s_threshold,
        _,
        i_disable,
        i_threshold,
        ..
    ] = *words;
    if s_disable != 0 {
        return None;
    }
    if s_threshold <= l_threshold {
        return Some(31);
    }
    if i_disable == 0 && i_threshold <= s_threshold {
        return Some(32);
    }
    None
}

fn fail_code(words: &[u16; 11]) -> Option<u16>
    ensures { result ≡ fail_code words.now }
{
    range_code(words).or_else(|| order_code(words))
}

// Methods and no TryFrom and From: `set.check()` says at a call what is done, `LawfulSettings::try_from(set)` does not.
impl Settings {
    /// The same words, lawful, or the code of the first check that they do not pass. Every set that is lawful passes.
    pub fn check(&self) -> Result<LawfulSettings, Unlawful>
        ensures value { result ≡ verdict self.now.words }
        ensures passes { Lawful self.now.words → is_ok result ≡ true }
    {
        match fail_code(&self.words) {
            Some(code) => Err(Unlawful { code }),
            None => Ok(LawfulSettings { settings: *self }),
        }
    }
}

impl LawfulSettings {
    /// The factory set.
    pub fn factory() -> LawfulSettings
        ensures { result ≡ factory_set }
    {
        let words = TABLE.map(|setting| setting.factory);
        LawfulSettings {
            settings: Settings { words },
        }
    }

    /// The words: each in its range, and the thresholds in order.
    pub fn settings(&self) -> Settings
        ensures value { result.words ≡ self.now }
        ensures lawful { Lawful result.words }
        ensures checked { is_lawful result.words ≡ true }
    {
        self.settings
    }
}
