// The line's checks, tried downwards.
ghost use Rattle.std.specs.Prelude.{◌≡◌, ◌≤◌, length, Err, IfOk, IfSome};
ghost use Rattle.line.specs.Burst.{Burst};
ghost use Rattle.line.specs.Memory.{Bounded, burst_of};
ghost use Rattle.line.specs.Lent.{octets_of, told, lent};
ghost use Rattle.line.specs.Places.{places_of};
ghost use Rattle.std.specs.Option.{option_map};
ghost use Rattle.line.specs.Line.{good_marks, damage_checks, address_checks, frame_of, judged, reception};
ghost use Rattle.outcome.specs.Checks.{first_failing};

use crate::characters::Parity;
use crate::faults::LineFault;
use crate::kept::Receiver;
use crate::received::{Frame, Places};
use crc::crc_of;
use outcome::Cause;

// How many octets come before the first whose parity is bad.
fn good_marks(marks: &[Parity]) -> usize
    ensures { result ≡ good_marks marks.now }
{
    marks
        .iter()
        .take_while(|mark| **mark == Parity::Good)
        .count()
}

fn fails<T>(cause: Cause, place: usize) -> Result<T, LineFault>
    ensures { result ≡ Err (record { cause = cause; place = place }) }
{
    Err(LineFault { cause, place })
}

// Whether a frame is for the station with this address.
fn addressed(frame: &Frame<'_>, address: u8) -> Result<(), LineFault>
    ensures { (b : Burst) → result ≡ judged b tt (first_failing (address_checks address (octets_of frame.now))) }
{
    if frame.address() != address && !frame.is_broadcast() {
        return fails(Cause::OtherAddress, 0);
    }
    if frame.is_broadcast() && !matches!(frame.function(), 0x06 | 0x10) {
        return fails(Cause::BroadcastFunction, 1);
    }
    Ok(())
}

impl Receiver {
    /// What the burst under way is to the station with this address: a frame, by where its parts stand here, or none where there
    /// are no octets. The answer is not lent, so it may be kept when the burst has gone.
    pub fn reception(&self, address: u8) -> Result<Option<Places>, LineFault>
        ensures value { result ≡ told (option_map places_of) (reception address (burst_of self.now)) }
        ensures frame { IfOk result (λ o. IfSome o (λ places. places.end ≤ 254)) }
        ensures bounded { Bounded self.now }
    {
        let frame = self.frame(address)?;
        Ok(frame.map(|frame| frame.places()))
    }

    /// The same, with the frame as its octets, which are lent.
    pub fn frame(&self, address: u8) -> Result<Option<Frame<'_>>, LineFault>
        ensures value { lent result ≡ reception address (burst_of self.now) }
        ensures frame { IfOk (lent result) (λ o. IfSome o (λ os. length os ≤ 254)) }
        ensures bounded { Bounded self.now }
    {
        if self.octets().is_empty() {
            return Ok(None);
        }
        let frame = self.sound()?;
        addressed(&frame, address)?;
        Ok(Some(frame))
    }

    // The frame of a burst that came undamaged.
    fn sound(&self) -> Result<Frame<'_>, LineFault>
        ensures { told octets_of result ≡ judged (burst_of self.now) (frame_of (burst_of self.now).octets) (first_failing (damage_checks (burst_of self.now))) }
    {
        let marks = self.marks();
        let good = good_marks(marks);
        if good < marks.len() {
            return fails(Cause::BadParity, good);
        }
        if self.overlong {
            return fails(Cause::Overlong, 256);
        }
        let octets = self.octets();
        let Some((frame, crc)) = Frame::parted(octets) else {
            return fails(Cause::TooShort, octets.len());
        };
        if crc_of(frame.octets()) != crc {
            return fails(Cause::WrongCrc, frame.octets().len());
        }
        Ok(frame)
    }
}
