// The table of the eleven settings.
ghost use Rattle.std.specs.Prelude.{◌≡◌};
ghost use Rattle.std.specs.List.{slice_get};
ghost use Rattle.settings.specs.Table.{settings};
ghost use Rattle.settings.specs.Checks.{is_outside};

/// A setting: its range, the value from the factory, and the fail code of a value outside the range.
#[derive(Clone, Copy, PartialEq, Eq, Debug)]
pub struct Setting {
    pub low: u16,
    pub high: u16,
    pub factory: u16,
    pub code: u16,
}

pub(crate) const TABLE: [Setting; 11] = [
    Setting {
        low: 40,
        high: 100,
        factory: 100,
        code: 1031,
    }, // 0 L threshold, % of the nominal current In
    Setting {
        low: 3,
        high: 18,
        factory: 3,
        code: 1033,
    }, // 1 L time delay, s
    Setting {
        low: 0,
        high: 1,
        factory: 0,
        code: 1040,
    }, // 2 S disable
    Setting {
        low: 0,
        high: 1,
        factory: 0,
        code: 1041,
    }, // 3 S curve type
    Setting {
        low: 60,
        high: 1000,
        factory: 200,
        code: 1042,
    }, // 4 S threshold, % of In
    Setting {
        low: 50,
        high: 500,
        factory: 100,
        code: 1043,
    }, // 5 S time delay, ms
    Setting {
        low: 0,
        high: 1,
        factory: 0,
        code: 1050,
    }, // 6 I disable
    Setting {
        low: 150,
        high: 1200,
        factory: 400,
        code: 1051,
    }, // 7 I threshold, % of In
    Setting {
        low: 0,
        high: 1,
        factory: 1,
        code: 1060,
    }, // 8 G disable
    Setting {
        low: 20,
        high: 100,
        factory: 20,
        code: 1062,
    }, // 9 G threshold, % of In
    Setting {
        low: 100,
        high: 800,
        factory: 100,
        code: 1063,
    }, // 10 G time delay, ms
];

impl Setting {
    /// The setting that a word is, by the word's number.
    pub fn of_word(number: usize) -> Option<Setting>
        ensures { result ≡ slice_get settings number }
    {
        TABLE.get(number).copied()
    }

    /// Whether a word lies outside the range.
    pub fn is_outside(&self, word: u16) -> bool
        ensures { result ≡ is_outside self.now word }
    {
        !(self.low..=self.high).contains(&word)
    }
}
