// Settings at the ends of their ranges, and the order of the thresholds.
#[cfg(test)]
mod tests {
    use settings::{LawfulSettings, Setting, Settings};

    // Low and high end, value from the factory, code.
    const TABLE: [(u16, u16, u16, u16); 11] = [
        (40, 100, 100, 1031),
        (3, 18, 3, 1033),
        (0, 1, 0, 1040),
        (0, 1, 0, 1041),
        (60, 1000, 200, 1042),
        (50, 500, 100, 1043),
        (0, 1, 0, 1050),
        (150, 1200, 400, 1051),
        (0, 1, 1, 1060),
        (20, 100, 20, 1062),
        (100, 800, 100, 1063),
    ];

    fn factory() -> [u16; 11] {
        TABLE.map(|(_, _, factory, _)| factory)
    }

    // None for a lawful set.
    fn code(words: [u16; 11]) -> Option<u16> {
        let settings = Settings { words };
        settings.check().err().map(|unlawful| unlawful.code)
    }

    // The factory set with S and I disabled, so that only ranges can fail, and one word changed.
    fn with_word(i: usize, value: u16) -> [u16; 11] {
        let mut words = factory();
        words[2] = 1;
        words[6] = 1;
        if i < 11 {
            words[i] = value;
        }
        words
    }

    #[test]
    fn ends_of_ranges(rt: HostRuntime) {
        for (i, &(low, high, _, failing)) in TABLE.iter().enumerate() {
            assert_eq!(rt; code(with_word(i, low)), None, "low");
            assert_eq!(rt; code(with_word(i, high)), None, "high");
            assert_eq!(rt;
                code(with_word(i, high.saturating_add(1))),
                Some(failing),
                "high + 1"
            );
            assert_eq!(rt; code(with_word(i, 65535)), Some(failing), "largest");
            if low > 0 {
                assert_eq!(rt;
                    code(with_word(i, low.saturating_sub(1))),
                    Some(failing),
                    "low - 1"
                );
                assert_eq!(rt; code(with_word(i, 0)), Some(failing), "0");
            }
        }
    }

    #[test]
    fn first_failing_word(rt: HostRuntime) {
        assert_eq!(rt; code([0; 11]), Some(1031));
        assert_eq!(rt; code([40, 0, 2, 2, 0, 0, 2, 0, 2, 0, 0]), Some(1033));
        assert_eq!(rt; code([40, 3, 2, 2, 0, 0, 2, 0, 2, 0, 0]), Some(1040));
        assert_eq!(rt;
            code([100, 3, 0, 0, 100, 100, 0, 400, 1, 20, 99]),
            Some(1063),
            "before 31"
        );
        assert_eq!(rt;
            code([100, 3, 0, 0, 200, 100, 0, 200, 2, 20, 100]),
            Some(1060),
            "before 32"
        );
    }

    // L, S and I thresholds with S and I disabled or not.
    fn thresholds(l: u16, s_off: u16, s: u16, i_off: u16, i: u16) -> Option<u16> {
        code([l, 3, s_off, 0, s, 100, i_off, i, 1, 20, 100])
    }

    #[test]
    fn s_above_l(rt: HostRuntime) {
        for i_off in 0..2 {
            assert_eq!(rt; thresholds(100, 0, 99, i_off, 400), Some(31), "S below L");
            assert_eq!(rt; thresholds(100, 0, 100, i_off, 400), Some(31), "S is L");
            assert_eq!(rt; thresholds(100, 0, 101, i_off, 400), None, "S above L");
            assert_eq!(rt;
                thresholds(100, 1, 99, i_off, 400),
                None,
                "below, S disabled"
            );
            assert_eq!(rt;
                thresholds(100, 1, 100, i_off, 400),
                None,
                "equal, S disabled"
            );
        }
    }

    #[test]
    fn i_above_s(rt: HostRuntime) {
        assert_eq!(rt; thresholds(100, 0, 400, 0, 399), Some(32), "I below S");
        assert_eq!(rt; thresholds(100, 0, 400, 0, 400), Some(32), "I is S");
        assert_eq!(rt; thresholds(100, 0, 400, 0, 401), None, "I above S");
        for i in 399..401 {
            assert_eq!(rt; thresholds(100, 1, 400, 0, i), None, "S disabled");
            assert_eq!(rt; thresholds(100, 0, 400, 1, i), None, "I disabled");
            assert_eq!(rt; thresholds(100, 1, 400, 1, i), None, "both disabled");
        }
    }

    #[test]
    fn table(rt: HostRuntime) {
        for (i, &(low, high, factory, code)) in TABLE.iter().enumerate() {
            assert_eq!(rt;
                Setting::of_word(i),
                Some(Setting {
                    low,
                    high,
                    factory,
                    code
                })
            );
        }
        assert_eq!(rt; Setting::of_word(11), None);
        assert_eq!(rt;
            LawfulSettings::factory().settings(),
            Settings { words: factory() }
        );
        assert_eq!(rt; code(factory()), None);
    }
}
