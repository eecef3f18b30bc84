// A list of events as text: lines that a newline ends, the last one by the end of the text too. It is read in blocks, whose borders mean nothing.
#![tactic(auto)]

ghost use Rattle.std.specs.Prelude.{◌≡◌, drop};
ghost use Rattle.firmware_event_list.specs.Lists.{is_something, one_more, opened as opened_of, line_ended, checked_byte, checked_on, ends_well, found_on};

use firmware_event_lines::{Event, Malformed, Reader};

// The line that is being read, and its number from 1.
#[derive(Clone, Copy)]
pub struct Checked {
    pub reader: Reader,
    pub line: u64,
}

// The error of a list: its first malformed line, read to its end, and the number of that line.
#[derive(Clone, Copy)]
pub struct MalformedLine {
    pub reader: Reader,
    pub number: u64,
}

// The reader behind the end of a line or of a block, the place of the byte behind, and what the line means; nothing where the block ended first.
#[derive(Clone, Copy)]
pub struct Found {
    pub reader: Reader,
    pub at: usize,
    pub meaning: Result<Option<Event>, Malformed>,
}

// ---- every line checked

// Before the first byte.
pub fn opened() -> Checked
    ensures { result ≡ opened_of }
{
    Checked {
        reader: firmware_event_lines::line_start(),
        line: 1,
    }
}

// The end of a line, behind which the next one begins.
#[tactic(auto, unfolding(crate::specs::Lists::line_ended, crate::specs::Lists::one_more))]
fn line_ended(c: Checked) -> Result<Checked, MalformedLine>
    ensures { result ≡ line_ended c }
{
    match firmware_event_lines::meaning_of(c.reader.line) {
        Ok(_) => Ok(Checked {
            reader: firmware_event_lines::line_start(),
            line: c.line.saturating_add(1),
        }),
        Err(_) => Err(MalformedLine {
            reader: c.reader,
            number: c.line,
        }),
    }
}

#[tactic(auto, unfolding(crate::specs::Lists::checked_byte))]
fn checked_byte(c: Checked, b: u8) -> Result<Checked, MalformedLine>
    ensures { result ≡ checked_byte c b }
{
    if b == b'\n' {
        return line_ended(c);
    }
    Ok(Checked {
        reader: firmware_event_lines::next(c.reader, b),
        ..c
    })
}

// A block more, until a line is malformed. Behind that line nothing is read: what a call gave is what the next one takes.
pub fn check(start: Result<Checked, MalformedLine>, bytes: &[u8]) -> Result<Checked, MalformedLine>
    ensures { result ≡ checked_on start bytes.now }
{
    let mut checked = start?;
    for &b in bytes {
        checked = checked_byte(checked, b)?;
    }
    Ok(checked)
}

// Whether every line is well formed, at the end of the text, which ends the last one.
#[tactic(auto, unfolding(crate::specs::Lists::ends_well))]
pub fn is_well_formed(lines: Result<Checked, MalformedLine>) -> bool
    ensures { result ≡ ends_well lines }
{
    match lines {
        Ok(c) => firmware_event_lines::meaning_of(c.reader.line).is_ok(),
        Err(_) => false,
    }
}

// ---- event by event

fn is_something(m: Result<Option<Event>, Malformed>) -> bool
    ensures { result ≡ is_something m }
{
    !matches!(m, Ok(None))
}

// Reads on in a block from a place, up to the end of the next line that means an event or is malformed.
pub fn next_event(start: Reader, bytes: &[u8], from: usize) -> Found
    ensures { result ≡ found_on start from (drop from bytes.now) }
{
    let mut reader = start;
    for i in from..bytes.len() {
        let b = bytes[i];
        if b == b'\n' {
            let meaning = firmware_event_lines::meaning_of(reader.line);
            reader = firmware_event_lines::line_start();
            if is_something(meaning) {
                let at = i + 1;
                return Found {
                    reader,
                    at,
                    meaning,
                };
            }
        } else {
            reader = firmware_event_lines::next(reader, b);
        }
    }
    Found {
        reader,
        at: from.max(bytes.len()),
        meaning: Ok(None),
    }
}
