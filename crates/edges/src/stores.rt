// Stores: images of an EEPROM store, what it writes behind, and the battery store.
#[cfg(test)]
mod tests {
    use settings::{LawfulSettings, Settings};
    use store::{BatteryStore, Busy, EepromStore, Store, in_force};

    const FACTORY: [u16; 11] = [100, 3, 0, 0, 200, 100, 0, 400, 1, 20, 100];

    const FACTORY_IMAGE: [u8; 23] = [
        0, 100, 0, 3, 0, 0, 0, 0, 0, 200, 0, 100, 0, 0, 1, 144, 0, 1, 0, 20, 0, 100, 0xF2,
    ];

    // Another lawful set, with an image that differs from zeros in every part.
    const OTHER: [u16; 11] = [99, 18, 0, 1, 1000, 500, 0, 1200, 0, 100, 800];

    const OTHER_IMAGE: [u8; 23] = [
        0, 99, 0, 18, 0, 0, 0, 1, 3, 232, 1, 244, 0, 0, 4, 176, 0, 0, 0, 100, 3, 32, 0xE6,
    ];

    fn other() -> LawfulSettings {
        let settings = Settings { words: OTHER };
        match settings.check() {
            Ok(lawful) => lawful,
            Err(_) => LawfulSettings::factory(),
        }
    }

    fn factory() -> Settings {
        Settings { words: FACTORY }
    }

    #[test]
    fn opens_from_an_image(rt: HostRuntime) {
        let store = EepromStore::open(FACTORY_IMAGE);
        assert!(rt; store.is_sound());
        assert_eq!(rt; store.busy(), 0);
        assert_eq!(rt; store.settings(), factory());
        assert_eq!(rt; store.octets(), FACTORY_IMAGE);
        let store = EepromStore::open(OTHER_IMAGE);
        assert!(rt; store.is_sound());
        assert_eq!(rt; in_force(&store), Settings { words: OTHER });
    }

    // Whatever one octet is changed to, the congruency octet does not fit.
    #[test]
    fn one_octet_changed(rt: HostRuntime) {
        for i in 0..23 {
            for change in 1..=255u8 {
                let mut octets = OTHER_IMAGE;
                octets[i] = octets[i].wrapping_add(change);
                let store = EepromStore::open(octets);
                assert!(rt; !store.is_sound());
                assert_eq!(rt; in_force(&store), factory());
            }
        }
    }

    #[test]
    fn without_55h(rt: HostRuntime) {
        assert!(rt; !EepromStore::open([0; 23]).is_sound());
        let mut octets = [0; 23];
        octets[22] = 0x55;
        assert!(rt; EepromStore::open(octets).is_sound());
    }

    // Eight, eight and seven octets, over octets that are all EEh.
    #[test]
    fn writes_behind(rt: HostRuntime) {
        let old = [0xEE; 23];
        let mut store = EepromStore::open(old);
        assert!(rt; !store.is_sound());
        assert_eq!(rt; store.put(other()), Ok(()));
        for (ticks, &busy) in [3, 2, 1].iter().enumerate() {
            assert_eq!(rt; store.busy(), busy);
            assert_eq!(rt; in_force(&store), Settings { words: OTHER });
            for (i, (octet, new)) in store.octets().iter().zip(&OTHER_IMAGE).enumerate() {
                assert_eq!(rt; *octet, if i < 8 * ticks { *new } else { 0xEE });
            }
            assert_eq!(rt; store.put(LawfulSettings::factory()), Err(Busy));
            store.tick();
        }
        assert_eq!(rt; store.busy(), 0);
        assert_eq!(rt; store.octets(), OTHER_IMAGE);
        store.tick();
        assert_eq!(rt; store.octets(), OTHER_IMAGE, "a tick while not busy");
        let again = EepromStore::open(store.octets());
        assert!(rt; again.is_sound());
        assert_eq!(rt; again.settings(), Settings { words: OTHER });
    }

    #[test]
    fn battery(rt: HostRuntime) {
        let mut store = BatteryStore::new(Settings { words: [7; 11] }, false);
        assert_eq!(rt; store.settings(), Settings { words: [7; 11] });
        assert_eq!(rt; in_force(&store), factory(), "unsound");
        assert_eq!(rt; store.put(other()), Ok(()));
        assert!(rt; store.is_sound());
        assert_eq!(rt; store.busy(), 0);
        assert_eq!(rt;
            store.put(LawfulSettings::factory()),
            Ok(()),
            "it writes at once"
        );
        store.tick();
        assert_eq!(rt; in_force(&store), factory());
    }
}
