// Bursts: lengths, parity marks, addresses. The CRCs are stored, not worked out here.
#[cfg(test)]
mod tests {
    use line::{Character, LineFault, Parity, Places, Receiver, compose};
    use outcome::{Cause, Fault, Layer};

    const NONE: Option<usize> = None;

    // A burst of so many octets: address, function, zeros, and the CRC at its end. The octet at `bad`, if any, has bad parity.
    fn received(
        length: usize,
        address: u8,
        function: u8,
        crc: u16,
        bad: Option<usize>,
    ) -> Receiver {
        let mut receiver = Receiver::new();
        let [low, high] = crc.to_le_bytes();
        for i in 0..length {
            let value = match i {
                _ if length - i == 2 => low,
                _ if length - i == 1 => high,
                0 => address,
                1 => function,
                _ => 0,
            };
            let parity = if bad == Some(i) {
                Parity::Bad
            } else {
                Parity::Good
            };
            receiver.octet(Character { value, parity });
        }
        receiver
    }

    // What comes of such a burst.
    fn heard(
        length: usize,
        address: u8,
        function: u8,
        crc: u16,
        bad: Option<usize>,
    ) -> Result<Option<Places>, LineFault> {
        received(length, address, function, crc, bad).reception(5)
    }

    fn frame(address: u8, end: usize) -> Result<Option<Places>, LineFault> {
        Ok(Some(Places {
            address,
            broadcast: address == 0,
            function: 1,
            data: 2,
            end,
        }))
    }

    fn fault(cause: Cause, place: usize) -> Result<Option<Places>, LineFault> {
        Err(LineFault { cause, place })
    }

    #[test]
    fn lengths(rt: HostRuntime) {
        assert_eq!(rt; heard(0, 5, 3, 0x0000, NONE), Ok(None), "0");
        assert_eq!(rt;
            heard(3, 5, 3, 0x0000, NONE),
            fault(Cause::TooShort, 3),
            "3"
        );
        assert_eq!(rt; heard(4, 5, 3, 0xE142, NONE), frame(5, 2), "4");
        assert_eq!(rt; heard(255, 5, 3, 0x9226, NONE), frame(5, 253), "255");
        assert_eq!(rt; heard(256, 5, 3, 0xDA13, NONE), frame(5, 254), "256");
        assert_eq!(rt;
            heard(257, 5, 3, 0xCD9B, NONE),
            fault(Cause::Overlong, 256),
            "257"
        );
    }

    #[test]
    fn wrong_crcs(rt: HostRuntime) {
        assert_eq!(rt;
            heard(4, 5, 3, 0x42E1, NONE),
            fault(Cause::WrongCrc, 2),
            "octets swapped"
        );
        assert_eq!(rt;
            heard(4, 5, 3, 0xE143, NONE),
            fault(Cause::WrongCrc, 2),
            "one bit off"
        );
        assert_eq!(rt;
            heard(256, 5, 3, 0xDA12, NONE),
            fault(Cause::WrongCrc, 254),
            "256"
        );
    }

    #[test]
    fn parity_marks(rt: HostRuntime) {
        assert_eq!(rt;
            heard(4, 5, 3, 0xE142, Some(0)),
            fault(Cause::BadParity, 0),
            "0"
        );
        assert_eq!(rt;
            heard(3, 5, 3, 0x0000, Some(2)),
            fault(Cause::BadParity, 2),
            "before too short"
        );
        assert_eq!(rt;
            heard(256, 5, 3, 0xDA13, Some(255)),
            fault(Cause::BadParity, 255),
            "255"
        );
        assert_eq!(rt;
            heard(257, 5, 3, 0xCD9B, Some(255)),
            fault(Cause::BadParity, 255),
            "before overlong"
        );
        assert_eq!(rt;
            heard(257, 5, 3, 0xCD9B, Some(256)),
            fault(Cause::Overlong, 256),
            "256 is not kept"
        );
    }

    #[test]
    fn addresses(rt: HostRuntime) {
        assert_eq!(rt; heard(4, 0, 6, 0xB281, NONE), frame(0, 2), "0, 06h");
        assert_eq!(rt; heard(4, 0, 16, 0x7C00, NONE), frame(0, 2), "0, 10h");
        assert_eq!(rt;
            heard(4, 0, 3, 0xB141, NONE),
            fault(Cause::BroadcastFunction, 1),
            "0, 03h"
        );
        assert_eq!(rt; heard(4, 5, 6, 0xE282, NONE), frame(5, 2), "5");
        assert_eq!(rt;
            heard(4, 6, 6, 0x1282, NONE),
            fault(Cause::OtherAddress, 0),
            "6"
        );
        assert_eq!(rt;
            heard(4, 247, 6, 0x82C7, NONE),
            fault(Cause::OtherAddress, 0),
            "247"
        );
        assert_eq!(rt;
            heard(4, 248, 6, 0x72C2, NONE),
            fault(Cause::OtherAddress, 0),
            "248"
        );
        assert_eq!(rt;
            heard(4, 255, 6, 0x42C0, NONE),
            fault(Cause::OtherAddress, 0),
            "255"
        );
    }

    // What is kept, and the frame of it, copied into room for the most that they can be. That this is room enough is what
    // `octets` and `frame` promise a caller: without that, the copies are not proved.
    fn copied(receiver: &Receiver) -> ([u8; 256], [u8; 254]) {
        let mut kept = [0xEE; 256];
        let octets = receiver.octets();
        kept[..octets.len()].copy_from_slice(octets);
        let mut told = [0xEE; 254];
        if let Ok(Some(frame)) = receiver.frame(5) {
            let octets = frame.octets();
            told[..octets.len()].copy_from_slice(octets);
        }
        (kept, told)
    }

    #[test]
    fn no_more_than_there_is_room_for(rt: HostRuntime) {
        let (kept, told) = copied(&received(256, 5, 3, 0xDA13, NONE));
        assert_eq!(rt;
            [kept[0], kept[1], kept[2], kept[254], kept[255]],
            [5, 3, 0, 0x13, 0xDA]
        );
        assert_eq!(rt; [told[0], told[1], told[2], told[253]], [5, 3, 0, 0]);
        let (kept, told) = copied(&received(4, 5, 3, 0xE142, NONE));
        assert_eq!(rt; [kept[3], kept[4], told[1], told[2]], [0xE1, 0xEE, 3, 0xEE]);
    }

    #[test]
    fn a_frame_is_copied_and_compared(rt: HostRuntime) {
        let receiver = received(4, 5, 3, 0xE142, NONE);
        let other = received(4, 0, 6, 0xB281, NONE);
        let heard = receiver.frame(5);
        let again = heard;
        assert_eq!(rt; heard, again);
        assert_eq!(rt; heard == other.frame(5), false);
        if let Ok(Some(frame)) = heard {
            assert_eq!(rt;
                (frame.address(), frame.is_broadcast(), frame.function()),
                (5, false, 3)
            );
            assert_eq!(rt; (frame.data().len(), frame.octets().len()), (0, 2));
        }
    }

    #[test]
    fn a_reception_is_kept_when_the_burst_has_gone(rt: HostRuntime) {
        let mut receiver = received(256, 5, 3, 0xDA13, NONE);
        let told = receiver.reception(5);
        receiver.clear();
        assert_eq!(rt; told, frame(5, 254));
        assert_eq!(rt; receiver.reception(5), Ok(None));
    }

    #[test]
    fn a_fault_goes_up_whole(rt: HostRuntime) {
        let fault = Fault::from(LineFault {
            cause: Cause::WrongCrc,
            place: 7,
        });
        assert_eq!(rt;
            fault,
            Fault {
                layer: Layer::Line,
                cause: Cause::WrongCrc,
                place: 7
            }
        );
        assert_eq!(rt; fault.cause.number(), 15);
        assert_eq!(rt; fault.cause.code(), None);
    }

    // The rest of the buffer, and all of it where the frame does not fit, stays.
    #[test]
    fn frames_put_together(rt: HostRuntime) {
        let mut buffer = [0xEE; 6];
        assert_eq!(rt; compose(&[0x02, 0x07], &mut buffer), Some(4));
        assert_eq!(rt; buffer, [0x02, 0x07, 0x41, 0x12, 0xEE, 0xEE]);
        let mut short = [0xEE; 3];
        assert_eq!(rt; compose(&[0x02, 0x07], &mut short), None);
        assert_eq!(rt; short, [0xEE; 3]);
    }
}
