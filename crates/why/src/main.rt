// Gives the words on standard input, lowest byte first, to a fresh chip, and then tells of each source why its request line is up: a line
// for each of V, E, R, A, D and S. Bytes left over make no word. A read or a write that fails is told on standard error.
#![tactic(auto)]

ghost use Rattle.std.specs.Prelude.{◌≡◌, length};

use bus::OwnAddress;
use std::io;
use std::io::{Error, Print, Read};
use std::process::ExitCode;
use why_last_set::Sort;
use why_reasons::{Followed, Reason, Reasons};

// What a block leaves, whether another may follow, and why a read failed where one did.
#[derive(Clone, Copy)]
struct Turn {
    followed: Followed,
    more: bool,
    error: Option<Error>,
}

// Places for the words of a full buffer.
fn places() -> [u32; 16384]
    ensures { 16384 ≡ length result }
{
    [0; 16384]
}

// Reads until the buffer is full or the input ends, and follows its whole words.
fn take_block<R: Read>(from: &mut R, f: Followed) -> Turn {
    let mut bytes = [0u8; 65536];
    let read = input::read_block(from, &mut bytes);
    let n = read.count;
    let mut words = places();
    let count = recording_writer::words_of(&bytes[..n], &mut words);
    Turn {
        followed: why_reasons::follow(f, &words[..count]),
        more: n == 65536,
        error: read.error,
    }
}

fn sort_text(sort: Sort) -> &'static str {
    match sort {
        Sort::VsyncRise => "vsync-rise",
        Sort::P16Rise => "p16-rise",
        Sort::Timer => "timer",
        Sort::MatchedAddress(OwnAddress::A0) => "matched-address a0",
        Sort::MatchedAddress(OwnAddress::IiAdr) => "matched-address ii-adr",
        Sort::MatchedAddress(OwnAddress::Both) => "matched-address both",
        Sort::NinthClock => "ninth-clock",
        Sort::Ddc1Load => "ddc1-load",
        Sort::SclFall => "scl-fall",
    }
}

fn print_reason<P: Print>(out: &P, source: char, reason: Reason) -> io::Result<()> {
    match reason {
        Reason::NotRequested => println!(out; "{source} not-requested"),
        Reason::AlreadySet => println!(out; "{source} already-set"),
        Reason::Event(place, sort) => {
            let what = sort_text(sort);
            println!(out; "{source} place {place} {what}")
        }
    }
}

// The six lines.
fn print_all<P: Print>(out: &P, reasons: Reasons) -> io::Result<()> {
    print_reason(out, 'V', reasons.v)?;
    print_reason(out, 'E', reasons.e)?;
    print_reason(out, 'R', reasons.r)?;
    print_reason(out, 'A', reasons.a)?;
    print_reason(out, 'D', reasons.d)?;
    print_reason(out, 'S', reasons.s)
}

// The end of the input: what is found is told.
fn finish<P: Print, Q: Print>(out: &P, err: &Q, f: Followed) -> ExitCode {
    match print_all(out, why_reasons::reasons_after(f)) {
        Ok(()) => ExitCode::SUCCESS,
        Err(e) => input::fail(err, b"why: standard output", &e),
    }
}

// A proved loop has to end, and nothing says that the input does, so the loop counts blocks, up to a number that no run reaches.
fn main(rt: HostRuntime) -> ExitCode {
    let mut from = rt.stdin();
    let mut f = why_reasons::start(chip::fresh());
    for _ in 0..u64::MAX {
        let turn = take_block(&mut from, f);
        f = turn.followed;
        if let Some(e) = turn.error {
            return input::fail(&rt.stderr(), b"why: standard input", &e);
        }
        if !turn.more {
            break;
        }
    }
    finish(&rt.stdout(), &rt.stderr(), f)
}
