// Breakers: contacts, bars, and orders that are taken, end and are let go.
#[cfg(test)]
mod tests {
    use breaker::{Breaker, MotorBreaker, NotTaken, Order, Position, ReleaseBreaker, carry_out};

    #[test]
    fn positions(rt: HostRuntime) {
        let expected = [
            Position::Open,
            Position::Closed,
            Position::Tripped,
            Position::Tripped,
        ];
        for (word, &position) in (0..4).zip(&expected) {
            assert_eq!(rt; MotorBreaker::new(word).position(), position);
            assert_eq!(rt; ReleaseBreaker::new(word).position(), position);
        }
        assert_eq!(rt; MotorBreaker::new(0xFFFF_FFFC).position(), Position::Open);
        assert!(rt; MotorBreaker::new(4).failed());
        assert!(rt; !MotorBreaker::new(0xFFFF_FFFB).failed());
        assert!(rt; ReleaseBreaker::new(4).failed());
    }

    #[test]
    fn bars(rt: HostRuntime) {
        let hot = MotorBreaker::new(8);
        assert!(rt; !hot.bars(Order::Open));
        assert!(rt; hot.bars(Order::Close));
        assert!(rt; hot.bars(Order::Reset));
        let cold = MotorBreaker::new(0xFFFF_FFF7);
        assert!(rt; !cold.bars(Order::Close));
        assert!(rt; !cold.bars(Order::Reset));
        let release = ReleaseBreaker::new(0);
        assert!(rt; !release.bars(Order::Open));
        assert!(rt; release.bars(Order::Close));
        assert!(rt; release.bars(Order::Reset));
    }

    #[test]
    fn motor_order(rt: HostRuntime) {
        let mut motor = MotorBreaker::new(4);
        assert_eq!(rt; motor.take(Order::Close), Ok(()));
        assert_eq!(rt; motor.hand(), Some(Order::Close));
        assert!(rt; motor.failed(), "as before");
        assert_eq!(rt;
            motor.take(Order::Close),
            Err(NotTaken),
            "the hand is not empty"
        );
        motor.tick(0xFFFF_FFEF);
        assert_eq!(rt; motor.hand(), Some(Order::Close), "no bit 4");
        motor.tick(16);
        assert_eq!(rt; motor.hand(), None);
        motor.tick(8);
        assert_eq!(rt; motor.take(Order::Reset), Err(NotTaken), "hot");
        assert_eq!(rt; motor.take(Order::Open), Ok(()));
        motor.let_go();
        assert_eq!(rt; motor.hand(), None);
        assert!(rt; motor.bars(Order::Close), "as before");
    }

    #[test]
    fn release_order(rt: HostRuntime) {
        let mut release = ReleaseBreaker::new(1);
        assert_eq!(rt; release.take(Order::Close), Err(NotTaken));
        assert_eq!(rt; release.hand(), None);
        assert_eq!(rt; release.take(Order::Open), Ok(()));
        release.tick(17);
        assert_eq!(rt; release.hand(), Some(Order::Open), "still closed");
        release.tick(3);
        assert_eq!(rt; release.hand(), None, "tripped");
    }

    // One function serves both.
    #[test]
    fn carried_out(rt: HostRuntime) {
        let mut motor = MotorBreaker::new(0);
        assert_eq!(rt; carry_out(&mut motor, Order::Close, &[0, 0, 17, 1]), Ok(3));
        assert_eq!(rt; motor.position(), Position::Closed);
        assert_eq!(rt;
            carry_out(&mut motor, Order::Open, &[1, 1]),
            Ok(2),
            "the words run out"
        );
        assert_eq!(rt; motor.hand(), Some(Order::Open));
        assert_eq!(rt; carry_out(&mut motor, Order::Open, &[16]), Err(NotTaken));
        assert_eq!(rt; motor.hand(), Some(Order::Open));
        let mut release = ReleaseBreaker::new(1);
        assert_eq!(rt; carry_out(&mut release, Order::Open, &[1, 0, 0]), Ok(2));
        assert_eq!(rt; carry_out(&mut release, Order::Reset, &[0]), Err(NotTaken));
    }
}
