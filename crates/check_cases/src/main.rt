// Runs each case that an argument names from a fresh chip, and prints a line for each: that it passed, with the words given; or the first line
// whose answer is not the expected one, with the event and both answers; or that it has no events. Last it prints how many passed and how
// many did not. A malformed line, a case that cannot be read and output that cannot be written are told on standard error.
#![tactic(auto)]

use case_run::{Failure, Progress};
use line_tokens::BadToken;
use std::env::FillError;
use std::io::{Error, Print, Read};
use std::process::ExitCode;
use std::rt::{Env, Files};
use std::{fs, io, str};

// How many cases passed and how many did not.
#[derive(Clone, Copy)]
struct Counts {
    passed: u64,
    failed: u64,
}

// The system's number for a name that is no text: EILSEQ.
const NO_TEXT: i32 = 84;

// ---- reading

// A case to its end, or to where it fails. The loop counts its turns, since nothing says that a file ends.
fn read_all<R: Read>(from: &mut R) -> io::Result<Progress> {
    let mut block = [0u8; 65536];
    let mut p = case_run::opened();
    for _ in 0..u64::MAX {
        let n = from.read(&mut block)?;
        p = case_run::read(p, &block[..n]);
        if n == 0 || !case_run::goes_on(p.failure) {
            return Ok(p);
        }
    }
    Ok(p)
}

// The case in a file of that name. No file is opened by a name that is not UTF-8.
fn read_file<R: Files>(rt: &R, path: &[u8]) -> io::Result<Progress> {
    match str::from_utf8(path) {
        Ok(name) => {
            let mut file = fs::open(rt, name)?;
            read_all(&mut file)
        }
        Err(_) => Err(Error::from_raw_os_error(NO_TEXT)),
    }
}

// ---- what is printed

fn print_event<P: Print>(out: &P, word: u32) -> io::Result<()> {
    let mut line = [0u8; 4096];
    let n = event_text_write::write_event(word, &mut line);
    out.write_all(&line[..n])
}

fn print_answer<P: Print>(out: &P, word: u32, answer: u32) -> io::Result<()> {
    let mut line = [0u8; 4096];
    let n = case_text::write_answer(word, answer, &mut line);
    out.write_all(&line[..n])
}

fn print_passed<P: Print>(out: &P, path: &[u8], words: u64) -> io::Result<()> {
    out.write_all(path)?;
    println!(out; ": passed, {words} words")
}

fn print_empty<P: Print>(out: &P, path: &[u8]) -> io::Result<()> {
    out.write_all(path)?;
    out.write_all(b": no events\n")
}

fn print_difference<P: Print>(
    out: &P,
    path: &[u8],
    end: Progress,
    word: u32,
    expected: u32,
    given: u32,
) -> io::Result<()> {
    let line = end.line;
    let place = line_tokens::one_more(end.words);
    out.write_all(path)?;
    print!(out; ":{line}: ")?;
    print_event(out, word)?;
    out.write_all(b": expected ")?;
    print_answer(out, word, expected)?;
    out.write_all(b", given ")?;
    print_answer(out, word, given)?;
    println!(out; " (word {place})")
}

fn write_malformed<Q: Print>(err: &Q, path: &[u8], line: u64, bad: BadToken) -> io::Result<()> {
    let place = bad.at;
    err.write_all(b"check_cases: ")?;
    err.write_all(path)?;
    println!(err; ":{line}: at byte {place}: not an event with its answer")
}

fn tell_malformed<Q: Print>(err: &Q, path: &[u8], line: u64, bad: BadToken) -> ExitCode {
    input::status(write_malformed(err, path, line, bad))
}

// ---- cases

fn passed(c: Counts) -> Counts {
    Counts {
        passed: line_tokens::one_more(c.passed),
        failed: c.failed,
    }
}

fn failed(c: Counts) -> Counts {
    Counts {
        passed: c.passed,
        failed: line_tokens::one_more(c.failed),
    }
}

// After a write to standard output that failed nothing more is run. Here and below an `Err` has the status with which the program ends.
fn counted<Q: Print>(err: &Q, printed: io::Result<()>, c: Counts) -> Result<Counts, ExitCode> {
    match printed {
        Ok(()) => Ok(c),
        Err(e) => Err(input::fail(err, b"check_cases: standard output", &e)),
    }
}

// What standard error does not take is passed over, unless nobody reads it.
fn told(status: ExitCode, c: Counts) -> Result<Counts, ExitCode> {
    if status == ExitCode::SUCCESS {
        return Ok(c);
    }
    Err(status)
}

fn judged<P: Print, Q: Print>(
    out: &P,
    err: &Q,
    c: Counts,
    path: &[u8],
    end: Progress,
) -> Result<Counts, ExitCode> {
    match end.failure {
        None => counted(err, print_passed(out, path, end.words), passed(c)),
        Some(Failure::Malformed(bad)) => told(tell_malformed(err, path, end.line, bad), failed(c)),
        Some(Failure::Differs(word, expected, given)) => {
            let printed = print_difference(out, path, end, word, expected, given);
            counted(err, printed, failed(c))
        }
        Some(Failure::Empty) => counted(err, print_empty(out, path), failed(c)),
    }
}

// Runs the case of that name.
fn run_named<R: Files, P: Print, Q: Print>(
    rt: &R,
    out: &P,
    err: &Q,
    c: Counts,
    path: &[u8],
) -> Result<Counts, ExitCode> {
    match read_file(rt, path) {
        Ok(p) => judged(out, err, c, path, case_run::closed(p)),
        Err(e) => told(input::fail(err, path, &e), failed(c)),
    }
}

// Runs the case that an argument names, if there is such an argument. One that is too long names no file.
fn run_case<R: Env + Files, P: Print, Q: Print>(
    rt: &R,
    out: &P,
    err: &Q,
    c: Counts,
    i: usize,
) -> Result<Option<Counts>, ExitCode> {
    let mut path = [0u8; 4096];
    match rt.arg(i, &mut path) {
        Ok(n) => Ok(Some(run_named(rt, out, err, c, &path[..n])?)),
        Err(FillError::TooLong) => Ok(Some(run_named(rt, out, err, c, b"")?)),
        Err(FillError::NotPresent) => Ok(None),
    }
}

fn run_all<R: Env + Files, P: Print, Q: Print>(
    rt: &R,
    out: &P,
    err: &Q,
) -> Result<Counts, ExitCode> {
    let mut c = Counts {
        passed: 0,
        failed: 0,
    };
    for i in 1..usize::MAX {
        match run_case(rt, out, err, c, i)? {
            Some(next) => c = next,
            None => return Ok(c),
        }
    }
    Ok(c)
}

fn print_counts<P: Print>(out: &P, c: Counts) -> io::Result<()> {
    let Counts { passed, failed } = c;
    println!(out; "{passed} passed, {failed} failed")
}

fn main(rt: HostRuntime) -> ExitCode {
    let (out, err) = (rt.stdout(), rt.stderr());
    match run_all(&rt, &out, &err) {
        Ok(c) => match print_counts(&out, c) {
            Ok(()) => ExitCode::SUCCESS,
            Err(e) => input::fail(&err, b"check_cases: standard output", &e),
        },
        Err(status) => status,
    }
}
