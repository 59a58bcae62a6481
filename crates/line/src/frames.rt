// A frame put together.
ghost use Rattle.std.specs.Prelude.{◌≡◌, ◌≤◌, length, None};
ghost use Rattle.line.specs.Compose.{composed, undamaged, with_crc};
ghost use Rattle.line.specs.Line.{damage_checks};
ghost use Rattle.outcome.specs.Checks.{first_failing};

use crc::crc_of;

/// Writes octets and their CRC, low octet first, to the start of a buffer, and tells the frame's length. `None` where the
/// buffer is too short: it stays as it was. Of 2 to 254 octets, what is written is sound where it comes undamaged.
// The length and no slice of the buffer, since the rules have the length told.
pub fn compose(octets: &[u8], buffer: &mut [u8]) -> Option<usize>
    ensures value { (result, buffer.new) ≡ composed octets.now buffer.old }
    ensures sound { 2 ≤ length octets.now → length octets.now ≤ 254 → first_failing (damage_checks (undamaged (with_crc octets.now))) ≡ None }
{
    let end = octets.len();
    if buffer.len() < 2 || buffer.len() - 2 < end {
        return None;
    }
    let [low, high] = crc_of(octets).to_le_bytes();
    buffer[0..end].copy_from_slice(octets);
    buffer[end] = low;
    buffer[end + 1] = high;
    Some(end + 2)
}
