// Runs the script on standard input on the counters of either chip. After each line it prints the number given back and the twelve numbers,
// and behind those of `field` the report. A malformed line is told with its number, on standard error too, and ends the run. A read or a
// write that fails ends it too, and is told on standard error.
#![tactic(auto)]

use counters6862_script::{Event, Progress};
use rates::{NoRate, Rate};
use std::io;
use std::io::{Print, Read};
use std::process::ExitCode;

// The number and the twelve numbers.
fn print_answer<P: Print>(out: &P, number: u8, n: [u16; 12]) -> io::Result<()> {
    let line = counters6862_lines::line(number, n);
    out.write_all(&line.bytes[..line.count])
}

// Eight hex digits.
fn print_half<P: Print>(out: &P, w: u32) -> io::Result<()> {
    let line = hex_digits::hex_line(w);
    out.write_all(&line[..8])
}

// The rate's 64 bits as sixteen hex digits.
fn print_bits<P: Print>(out: &P, bits: u64) -> io::Result<()> {
    print_half(out, (bits / 4294967296) as u32)?;
    print_half(out, (bits % 4294967296) as u32)
}

// The rate's 64 bits, or why there is no rate.
fn print_report<P: Print>(out: &P, rate: Result<Rate, NoRate>) -> io::Result<()> {
    match rate {
        Ok(_) => print_bits(out, counters6862_script::rate_bits(rate)),
        Err(NoRate::IllFormed) => out.write_all(b"ill-formed"),
        Err(NoRate::NothingLatched) => out.write_all(b"nothing-latched"),
        Err(NoRate::Overflow) => out.write_all(b"overflow"),
    }
}

// The line's number, on standard error first. An `Err` has the status with which the program ends.
fn print_malformed<P: Print, Q: Print>(out: &P, err: &Q, line: u64) -> Result<(), ExitCode> {
    let told = println!(err; "counters6862: line {line} malformed");
    if let Err(e) = told {
        if input::is_closed_pipe(&e) {
            return Err(input::status(told));
        }
    }
    written(err, println!(out; "line {line} malformed"))
}

// After a write that failed nothing more is written, so that what stands has no hole.
fn written<Q: Print>(err: &Q, done: io::Result<()>) -> Result<(), ExitCode> {
    match done {
        Ok(()) => Ok(()),
        Err(e) => Err(input::fail(err, b"counters6862: standard output", &e)),
    }
}

fn print_line<P: Print>(out: &P, number: u8, n: [u16; 12]) -> io::Result<()> {
    print_answer(out, number, n)?;
    out.write_all(b"\n")
}

fn print_with_report<P: Print>(
    out: &P,
    number: u8,
    n: [u16; 12],
    rate: Result<Rate, NoRate>,
) -> io::Result<()> {
    print_answer(out, number, n)?;
    out.write_all(b" ")?;
    print_report(out, rate)?;
    out.write_all(b"\n")
}

fn print_event<P: Print, Q: Print>(
    out: &P,
    err: &Q,
    event: Event,
    line: u64,
    n: [u16; 12],
) -> Result<(), ExitCode> {
    match event {
        Event::Nothing => Ok(()),
        Event::Answer(number) => written(err, print_line(out, number, n)),
        Event::Report(number, rate) => written(err, print_with_report(out, number, n, rate)),
        Event::Malformed => print_malformed(out, err, line),
    }
}

fn take_byte<P: Print, Q: Print>(
    out: &P,
    err: &Q,
    p: Progress,
    b: u8,
) -> Result<Progress, ExitCode> {
    let step = counters6862_script::next(p, b);
    let after = step.progress;
    print_event(out, err, step.event, after.line, after.numbers)?;
    Ok(after)
}

fn take_bytes<P: Print, Q: Print>(
    out: &P,
    err: &Q,
    start: Progress,
    bytes: &[u8],
) -> Result<Progress, ExitCode> {
    let mut p = start;
    for b in bytes {
        p = take_byte(out, err, p, *b)?;
    }
    Ok(p)
}

// The end of the input ends its last line.
fn finish<P: Print, Q: Print>(out: &P, err: &Q, p: Progress) -> ExitCode {
    match take_byte(out, err, p, b'\n') {
        Ok(_) => ExitCode::SUCCESS,
        Err(status) => status,
    }
}

// Reads a block and runs it. `read_block` fills the buffer unless the input ends or fails.
fn take_block<R: Read, P: Print, Q: Print>(
    from: &mut R,
    out: &P,
    err: &Q,
    p: Progress,
) -> Result<Progress, ExitCode> {
    let mut block = [0u8; 65536];
    let read = input::read_block(from, &mut block);
    let n = read.count;
    let next = take_bytes(out, err, p, &block[..n])?;
    if let Some(e) = read.error {
        return Err(input::fail(err, b"counters6862: standard input", &e));
    }
    if n == 65536 && !next.ended {
        return Ok(next);
    }
    Err(finish(out, err, next))
}

// A proved loop has to end, and nothing says that the input does, so the loop counts blocks, up to a number that no run reaches.
fn main(rt: HostRuntime) -> ExitCode {
    let mut from = rt.stdin();
    let mut p = counters6862_script::opened();
    for _ in 0..u64::MAX {
        match take_block(&mut from, &rt.stdout(), &rt.stderr(), p) {
            Ok(next) => p = next,
            Err(status) => return status,
        }
    }
    ExitCode::SUCCESS
}
