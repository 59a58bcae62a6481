// A line of a script: what is told of it, and what it does.
ghost use Rattle.std.specs.Prelude.{◌≡◌, ◌++◌, is_ok, IfOk, if◌then◌else◌, string_bytes, codes, decimal};
ghost use Rattle.account.specs.Listening.{next};
ghost use Rattle.account.specs.State.{Within};
ghost use Rattle.account.specs.Texts.{account_of};
ghost use Rattle.script.specs.Lines.{said, line_said};
ghost use Rattle.std.specs.Option.{option_map};

use crate::listen::address_in;
use crate::source::Source;
use crate::state::Listener;
use crate::texts::silence_text;
use script::{Line, parse};
use std::alloc::{AllocError, Global};

// Octets and no String: the text may be any octets at all.
fn unknown_text(heap: Global, source: &Source<'_>) -> Result<Vec<u8>, AllocError>
    ensures { IfOk result (λ v. v.items ≡ (codes "line " ++ (decimal source.now.number ++ codes ": not understood: ")) ++ source.now.text.now) }
{
    let number = source.number;
    let mut all = format!(in heap; "line {number}: not understood: ")?.into_bytes();
    all.extend_from_slice(source.text)?;
    Ok(all)
}

// What is told of a line.
fn account(
    heap: Global,
    listener: &Listener,
    source: &Source<'_>,
    line: &Line,
) -> Result<Option<Vec<u8>>, AllocError>
    ensures { IfOk result (λ o. option_map (λ v. v.items) o ≡ account_of source.now.number source.now.text.now listener.now (said line.now)) }
{
    let text = match line {
        Line::Blank => return Ok(None),
        Line::Unknown => return Ok(Some(unknown_text(heap, source)?)),
        Line::Station(address) => format!(in heap; "station: {}", address_in(*address))?,
        Line::Octets(characters) => format!(in heap; "octets: {}", characters.len())?,
        Line::Silence(room) => silence_text(heap, &listener.heard(*room))?,
    };
    Ok(Some(text.into_bytes()))
}

impl Listener {
    // What a line does.
    fn take(&mut self, line: &Line)
        ensures value { self.new ≡ next self.old (said line.now) }
        ensures within { (Within self.old) × (Within self.new) }
    {
        // Brings in what every listener keeps to, for a line that does nothing.
        let _ = &self.address;
        match line {
            Line::Blank | Line::Unknown => {}
            Line::Station(address) => *self = Listener::open(*address),
            Line::Octets(characters) => self.octets(characters.as_slice()),
            Line::Silence(room) => self.silence(*room),
        }
    }
}

/// One line of a script: what is told of it, with the station then as the line leaves it. Where memory is wanting the
/// station stays as it was.
pub fn play(
    heap: Global,
    listener: &mut Listener,
    source: &Source<'_>,
) -> Result<Option<Vec<u8>>, AllocError>
    ensures told { IfOk result (λ o. option_map (λ v. v.items) o ≡ account_of source.now.number source.now.text.now listener.old (line_said source.now.text.now)) }
    ensures after { listener.new ≡ (if is_ok result then next listener.old (line_said source.now.text.now) else listener.old) }
    ensures within { (Within listener.old) × (Within listener.new) }
{
    // Brings in what every listener keeps to, for a line that finds no memory.
    let _ = &listener.address;
    let line = parse(heap, source.text)?;
    let told = account(heap, listener, source, &line)?;
    listener.take(&line);
    Ok(told)
}
