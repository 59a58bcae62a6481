// What is told, as text.
ghost use Rattle.std.specs.Prelude.{◌≡◌, ◌<◌, ◌++◌, map, IfOk, string_bytes, codes};
ghost use Rattle.account.specs.Texts.{hex_digit, hex_octets, silence_text};
ghost use Rattle.line.specs.Burst.{good};
ghost use Rattle.line.specs.Lent.{lent};
ghost use Rattle.script.specs.Lines.{octets as brings, line_said};

use crate::heard::Unheard;
use line::Frame;
use std::alloc::{AllocError, Global};

// A value of four bits as its digit, 0 to 9 and A to F.
fn hex_digit(value: u8) -> char
    requires { value < 16 }
    ensures value { result ≡ hex_digit value }
    ensures ascii { result < 128 }
{
    char::from_digit(u32::from(value), 16)
        .unwrap()
        .to_ascii_uppercase()
}

// A function and no Display, since `again` speaks of the text as it is read: behind the word `octets`, the text is a line of a script that brings these octets again.
fn octets_text(heap: Global, octets: &[u8]) -> Result<String, AllocError>
    ensures value { IfOk result (λ s. string_bytes s ≡ hex_octets octets.now) }
    ensures again { IfOk result (λ s. line_said (codes "octets" ++ string_bytes s) ≡ brings (map good octets.now)) }
{
    let mut text = String::new(heap);
    // Character by character: with `{octet:02X}`, a run that tells long frames took a third more time.
    for octet in octets {
        text.push(' ')?;
        text.push(hex_digit(octet / 16))?;
        text.push(hex_digit(octet % 16))?;
    }
    Ok(text)
}

/// What a silence tells.
pub(crate) fn silence_text(
    heap: Global,
    heard: &Result<Option<Frame<'_>>, Unheard>,
) -> Result<String, AllocError>
    ensures { IfOk result (λ s. string_bytes s ≡ silence_text (lent heard.now)) }
{
    match heard {
        Ok(None) => String::from_str(heap, "silence: idle"),
        Ok(Some(frame)) => {
            let count = frame.octets().len();
            let octets = octets_text(heap, frame.octets())?;
            format!(in heap; "silence: frame, {count} octets:{octets}")
        }
        Err(unheard) => format!(in heap; "silence: {unheard}"),
    }
}
