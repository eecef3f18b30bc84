// Writes the event words of a listing on standard input to standard output, lowest byte first: a line is an event by name or as eight digits,
// behind `N *` where it is given N times; answers are passed over. The first line that is none is told on standard error, with the place of
// its first bad token, and ends the program; the words before it are written. A read or a write that fails is told there too.
#![tactic(auto)]

use case_words::{Case, Listed};
use line_tokens::{BadToken, Scanner, Token};
use std::io::{Print, Read};
use std::process::ExitCode;

// The line that is being read, and its number.
#[derive(Clone, Copy)]
struct Turn {
    scanner: Scanner,
    case: Case,
    line: u64,
}

fn opened() -> Turn {
    Turn {
        scanner: line_tokens::start(),
        case: case_words::case_start(),
        line: 1,
    }
}

// A word as often as its line says. Here and below an `Err` has the status with which the program ends.
fn write_words<P: Print, Q: Print>(out: &P, err: &Q, times: u64, w: u32) -> Result<(), ExitCode> {
    let bytes = w.to_le_bytes();
    for _ in 0..times {
        if let Err(e) = out.write_all(&bytes) {
            return Err(input::fail(err, b"words: standard output", &e));
        }
    }
    Ok(())
}

fn refuse<Q: Print>(err: &Q, line: u64, bad: BadToken) -> ExitCode {
    let place = bad.at;
    input::status(println!(err; "words: line {line}: at byte {place}: not an event"))
}

fn found<P: Print, Q: Print>(
    out: &P,
    err: &Q,
    listed: Result<Option<Listed>, BadToken>,
    line: u64,
) -> Result<(), ExitCode> {
    match listed {
        Ok(Some(l)) => write_words(out, err, l.times, l.word),
        Ok(None) => Ok(()),
        Err(bad) => Err(refuse(err, line, bad)),
    }
}

fn line_ended<P: Print, Q: Print>(out: &P, err: &Q, t: Turn) -> Result<Turn, ExitCode> {
    let last = case_words::taken(t.case, t.scanner.pending);
    found(out, err, case_words::case_end(last, t.scanner.at), t.line)?;
    Ok(Turn {
        scanner: line_tokens::start(),
        case: case_words::case_start(),
        line: line_tokens::one_more(t.line),
    })
}

// The token that a byte ended, if any. Most bytes end none, so a call is made for a token alone.
fn on_token(c: Case, token: Option<Token>) -> Case {
    match token {
        Some(t) => case_words::take_case(c, t),
        None => c,
    }
}

fn byte_taken<P: Print, Q: Print>(out: &P, err: &Q, t: Turn, b: u8) -> Result<Turn, ExitCode> {
    if b == b'\n' {
        return line_ended(out, err, t);
    }
    let s = line_tokens::scan(t.scanner, b);
    Ok(Turn {
        scanner: s,
        case: on_token(t.case, s.done),
        line: t.line,
    })
}

// The bytes of a block, up to a line that is refused.
fn block_taken<P: Print, Q: Print>(
    out: &P,
    err: &Q,
    start: Turn,
    bytes: &[u8],
) -> Result<Turn, ExitCode> {
    let mut t = start;
    for b in bytes {
        t = byte_taken(out, err, t, *b)?;
    }
    Ok(t)
}

// The end of the text ends its last line.
fn closed<P: Print, Q: Print>(out: &P, err: &Q, t: Turn) -> ExitCode {
    if t.scanner.at == 0 {
        return ExitCode::SUCCESS;
    }
    match line_ended(out, err, t) {
        Ok(_) => ExitCode::SUCCESS,
        Err(status) => status,
    }
}

fn take_turn<R: Read, P: Print, Q: Print>(
    from: &mut R,
    out: &P,
    err: &Q,
    t: Turn,
) -> Result<Turn, ExitCode> {
    let mut block = [0u8; 65536];
    match from.read(&mut block) {
        Ok(n) => {
            if n == 0 {
                return Err(closed(out, err, t));
            }
            block_taken(out, err, t, &block[..n])
        }
        Err(e) => Err(input::fail(err, b"words: standard input", &e)),
    }
}

// A proved loop has to end, and nothing says that the input does, so the loop counts its turns, up to a number that no run reaches.
fn main(rt: HostRuntime) -> ExitCode {
    let mut from = rt.stdin();
    let mut t = opened();
    for _ in 0..u64::MAX {
        match take_turn(&mut from, &rt.stdout(), &rt.stderr(), t) {
            Ok(next) => t = next,
            Err(status) => return status,
        }
    }
    ExitCode::SUCCESS
}
