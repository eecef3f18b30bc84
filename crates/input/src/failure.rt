// What a program says on standard error, and the status that it then ends with: 0, or 141 where nobody reads what it writes, which is
// the status of a program that SIGPIPE ends. Rattle's programs ignore that signal, and learn of a closed pipe by a write that fails.
ghost use Rattle.std.specs.Prelude.{◌≡◌, ◌≢◌, ◌≤◌, ◌↔◌, IsOk, IfErr, IsTrue};
ghost use Rattle.std.specs.IoError.{error_kind};
ghost use Rattle.std.specs.Process.{exit_status};

use std::fmt::Write;
use std::io::{Error, ErrorKind, Print};
use std::process::ExitCode;
use std::{fmt, io};

// Room for the system's longest message and the number behind it.
const ROOM: usize = 128;

const CLOSED_PIPE: u8 = 141;

// What an error prints, as far as there is room.
#[derive(Drop)]
struct Text {
    bytes: [u8; ROOM],
    count: usize,
}

impl Write for Text {
    fn write_str(&mut self, s: &str) -> fmt::Result {
        for byte in s.as_bytes() {
            let at = self.count;
            if at < ROOM {
                self.bytes[at] = *byte;
                self.count = at + 1;
            }
        }
        Ok(())
    }
}

// Whether a write failed since nobody reads on.
pub fn is_closed_pipe(error: &Error) -> bool
    ensures { IsTrue result ↔ (error_kind error.now ≡ ErrorKind.BrokenPipe) }
{
    error.kind() == ErrorKind::BrokenPipe
}

// Writes text to standard error, which may fail itself.
pub fn tell<P: Print>(to: &P, text: &[u8]) -> ExitCode {
    status(to.write_all(text))
}

// Writes a line to standard error: what failed, as the caller names it, a colon and the system's message. Of a closed pipe it says
// nothing.
pub fn fail<P: Print>(to: &P, what: &[u8], error: &Error) -> ExitCode
    ensures { error_kind error.now ≡ ErrorKind.BrokenPipe → exit_status result ≡ 141 }
{
    if is_closed_pipe(error) {
        return ExitCode::from(CLOSED_PIPE);
    }
    status(write_line(to, what, error))
}

// The status after a write: a closed pipe's, or 0 whatever else became of it.
pub fn status(written: io::Result<()>) -> ExitCode
    ensures ok { IsOk written → exit_status result ≡ 0 }
    ensures closed { IfErr written (λ e. error_kind e ≡ ErrorKind.BrokenPipe → exit_status result ≡ 141) }
    ensures other { IfErr written (λ e. error_kind e ≢ ErrorKind.BrokenPipe → exit_status result ≡ 0) }
{
    match written {
        Ok(()) => ExitCode::from(0),
        Err(e) => {
            if is_closed_pipe(&e) {
                ExitCode::from(CLOSED_PIPE)
            } else {
                ExitCode::from(0)
            }
        }
    }
}

fn write_line<P: Print>(to: &P, what: &[u8], error: &Error) -> io::Result<()> {
    let mut text = Text {
        bytes: [0; ROOM],
        count: 0,
    };
    let _ = text.write(error);
    let size = message_size(&text.bytes);
    to.write_all(what)?;
    to.write_all(b": ")?;
    to.write_all(&text.bytes[..size])?;
    to.write_all(b"\n")
}

// An error prints its number in parentheses behind its message, which the line leaves out: what stands before the last " (", or all
// of the text, which ends at its first zero.
fn message_size(text: &[u8; ROOM]) -> usize
    ensures { result ≤ 128 }
{
    let mut size = 0;
    for (at, b) in text.iter().enumerate() {
        match *b {
            0 => return if size == 0 { at } else { size },
            b'(' if at > 0 => size = at - 1,
            _ => {}
        }
    }
    size
}
