// Runs each listing that an argument names from a fresh chip, and prints a line for each: how many words were answered as
// expected, or where the first difference is, or which line is malformed, or that it has no words. A listing that cannot be read
// and output that cannot be written are told on standard error.
#![tactic(auto)]

use listing::{Progress, Verdict};
use std::env::{Env, FillError};
use std::fs::File;
use std::io;
use std::io::{Error, Read};
use std::process::ExitCode;

// What the system says of a name that is no text, EILSEQ: only a name that is text can be opened.
const NO_TEXT: i32 = 84;

// A listing to its end.
fn read_all(file: &mut File) -> io::Result<Progress> {
    let mut progress = listing::opened();
    let mut block = [0u8; 65536];
    for _ in 0..u64::MAX {
        let n = file.read(&mut block)?;
        progress = listing::read(progress, &block[..n]);
        if n == 0 {
            break;
        }
    }
    Ok(progress)
}

fn print_result(rt: &HostRuntime, path: &str, p: Progress) -> io::Result<()> {
    let line = p.line;
    let words = p.words;
    match p.verdict {
        Verdict::Agrees => println!(rt; "{path}: words {words}"),
        Verdict::Malformed => println!(rt; "{path}: line {line} malformed"),
        Verdict::Differs(word, expected, given) => {
            println!(rt;
                "{path}: line {line}: after words {words} word {word:08X} expected {expected:08X} given {given:08X}"
            )
        }
        Verdict::Empty => println!(rt; "{path}: no words"),
    }
}

// The listing with this path, run to its end.
fn read_listing(rt: &HostRuntime, path: &str) -> io::Result<Progress> {
    let mut file = File::open(rt, path)?;
    Ok(listing::closed(read_all(&mut file)?))
}

// Runs the listing with this path. Where its result cannot be written, or nobody hears why it cannot be read, the program ends.
fn run_listing(rt: &HostRuntime, name: &[u8]) -> Result<(), ExitCode> {
    let path = match std::str::from_utf8(name) {
        Ok(path) => path,
        Err(_) => return heard(input::fail(&rt.stderr(), name, &Error::from_raw_os_error(NO_TEXT))),
    };
    match read_listing(rt, path) {
        Ok(progress) => match print_result(rt, path, progress) {
            Ok(()) => Ok(()),
            Err(e) => Err(input::fail(&rt.stderr(), b"vectors: standard output", &e)),
        },
        Err(e) => heard(input::fail(&rt.stderr(), name, &e)),
    }
}

// What has been told of one listing ends the program only where nobody hears it.
fn heard(status: ExitCode) -> Result<(), ExitCode> {
    if status == ExitCode::SUCCESS {
        Ok(())
    } else {
        Err(status)
    }
}

// Runs the listing that an argument names, and tells whether there is such an argument. One with more bytes than a path can have
// names no file.
fn run_argument(rt: &HostRuntime, i: usize) -> Result<bool, ExitCode> {
    let mut name = [0u8; 4096];
    let n = match rt.arg(i, &mut name) {
        Ok(n) => n,
        Err(FillError::TooLong) => 0,
        Err(FillError::NotPresent) => return Ok(false),
    };
    run_listing(rt, &name[..n])?;
    Ok(true)
}

fn main(rt: HostRuntime) -> ExitCode {
    for i in 1..usize::MAX {
        match run_argument(&rt, i) {
            Ok(true) => {}
            Ok(false) => {
                if i == 1 {
                    return input::tell(&rt.stderr(), b"vectors: no listing is named\n");
                }
                break;
            }
            Err(status) => return status,
        }
    }
    ExitCode::SUCCESS
}
