// Openings as words, and what a panel then shows as text.
#[cfg(test)]
mod tests {
    use parts::{Parts, opening};
    use readout::state_text;
    use std::alloc::{AllocError, Global};
    use std::test::Fail;
    use tokens::{uncommented, words};

    // Whether a text names an opening whose panel reads so.
    fn shows(alloc: Global, text: &[u8], expected: &str) -> Result<bool, AllocError> {
        let words = words(alloc, uncommented(text))?;
        let Some(opening) = opening(words.as_slice()) else {
            return Ok(false);
        };
        let told = state_text(alloc, &Parts::open(&opening).panel())?;
        Ok(told.as_str() == expected)
    }

    fn is_opening(alloc: Global, text: &[u8]) -> Result<bool, AllocError> {
        let words = words(alloc, text)?;
        Ok(opening(words.as_slice()).is_some())
    }

    #[test]
    fn batteries(rt: HostRuntime) -> Result<(), Fail> {
        assert!(rt;
            shows(
                rt.alloc(),
                b"motor 00000000 battery factory 5 # the factory set",
                "state: open, ok, hand empty, settings 100 3 0 0 200 100 0 400 1 20 100, bars none, sound, busy 0",
            )?
        );
        assert!(rt;
            shows(
                rt.alloc(),
                b"motor 00000001 battery sound 40 18 1 1 60 500 1 1200 0 100 800 5",
                "state: closed, ok, hand empty, settings 40 18 1 1 60 500 1 1200 0 100 800, bars none, sound, busy 0",
            )?
        );
        assert!(rt;
            shows(
                rt.alloc(),
                b"motor 0000000F battery unsound 40 18 1 1 60 500 1 1200 0 100 800 5",
                "state: tripped, failed, hand empty, settings 100 3 0 0 200 100 0 400 1 20 100, bars close reset, unsound, busy 0",
            )?
        );
        assert!(rt;
            shows(
                rt.alloc(),
                b"motor FFFFFFF8 battery sound 65535 0 0 0 0 0 0 0 0 0 1 5",
                "state: open, ok, hand empty, settings 65535 0 0 0 0 0 0 0 0 0 1, bars close reset, sound, busy 0",
            )?
        );
        Ok(())
    }

    #[test]
    fn eeproms(rt: HostRuntime) -> Result<(), Fail> {
        assert!(rt;
            shows(
                rt.alloc(),
                b"release 00000005 eeprom 006400030000000000C8006400000190000100140064F2 5",
                "state: closed, failed, hand empty, settings 100 3 0 0 200 100 0 400 1 20 100, bars close reset, sound, busy 0",
            )?
        );
        assert!(rt;
            shows(
                rt.alloc(),
                b"release 00000000 eeprom 006400030000000000c9006400000190000100140064f2 5",
                "state: open, ok, hand empty, settings 100 3 0 0 200 100 0 400 1 20 100, bars close reset, unsound, busy 0",
            )?
        );
        Ok(())
    }

    #[test]
    fn words_that_are_no_opening(rt: HostRuntime) -> Result<(), Fail> {
        assert!(rt; is_opening(rt.alloc(), b"motor 00000000 battery factory 248")?);
        assert!(rt; !is_opening(rt.alloc(), b"spring 00000000 battery factory 5")?);
        assert!(rt; !is_opening(rt.alloc(), b"motor 0000000 battery factory 5")?);
        assert!(rt; !is_opening(rt.alloc(), b"motor 00000000 battery factory")?);
        assert!(rt;
            !is_opening(
                rt.alloc(),
                b"motor 00000000 battery sound 65536 3 0 0 200 100 0 400 1 20 100 5"
            )?
        );
        assert!(rt;
            !is_opening(
                rt.alloc(),
                b"motor 00000000 battery sound 100 3 0 0 200 100 0 400 1 20 5"
            )?
        );
        assert!(rt;
            !is_opening(
                rt.alloc(),
                b"release 00000000 eeprom 006400030000000000C8006400000190000100140064 5"
            )?
        );
        assert!(rt;
            !is_opening(
                rt.alloc(),
                b"release 00000000 eeprom 006400030000000000C8006400000190000100140064FG 5"
            )?
        );
        Ok(())
    }
}
