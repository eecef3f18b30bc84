// Gives the words on standard input, lowest byte first, to a fresh chip, and writes the run to standard output as a value change dump. Bytes
// left over at the end are reported on standard error, past a dump of the whole words. A read or a write that fails is reported there, and
// ends the program.
#![tactic(auto)]

use chip::Chip;
use std::io::{Print, Read};
use std::process::ExitCode;
use wave_run::Run;
use wave_write::Writer;

// Text to standard output. Here and below an `Err` has the status with which the program ends.
fn write<P: Print, Q: Print>(out: &P, err: &Q, text: &[u8]) -> Result<(), ExitCode> {
    match out.write_all(text) {
        Ok(()) => Ok(()),
        Err(e) => Err(input::fail(err, b"wave: standard output", &e)),
    }
}

fn tell_left_over<Q: Print>(err: &Q) -> ExitCode {
    input::tell(
        err,
        b"wave: the input ends within a word; its bytes are left out\n",
    )
}

// The end of the input: the dump is ended, and bytes left over are reported.
fn finish<P: Print, Q: Print>(
    out: &P,
    err: &Q,
    w: Writer,
    left: usize,
    text: &mut [u8],
) -> Result<(), ExitCode> {
    let end = wave_write::finish(text, 0, w);
    write(out, err, &text[..end])?;
    if left == 0 {
        return Ok(());
    }
    Err(tell_left_over(err))
}

// What begins the dump of a chip's run.
fn begin<P: Print, Q: Print>(out: &P, err: &Q, c: Chip, text: &mut [u8]) -> Result<(), ExitCode> {
    let end = wave_run::begin(c, text);
    write(out, err, &text[..end])
}

// A block of words to the chip, and what they add to the dump.
fn write_block<P: Print, Q: Print>(
    out: &P,
    err: &Q,
    run: Run,
    words: &[u32],
    text: &mut [u8],
) -> Result<Run, ExitCode> {
    let done = wave_run::write_block(run, words, text);
    let end = done.next;
    write(out, err, &text[..end])?;
    Ok(done.run)
}

// The words of so many bytes, and the end of the dump where the input has ended.
fn take_bytes<P: Print, Q: Print>(
    out: &P,
    err: &Q,
    run: Run,
    bytes: &[u8],
    text: &mut [u8],
) -> Result<Run, ExitCode> {
    let mut words = [0u32; 1024];
    let count = recording_writer::words_of(bytes, &mut words);
    let next = write_block(out, err, run, &words[..count], text)?;
    if bytes.len() == 4096 {
        return Ok(next);
    }
    finish(out, err, next.writer, bytes.len() % 4, text)?;
    Err(ExitCode::SUCCESS)
}

// Reads until the buffer is full or the input ends. Before the first block stands what begins the dump. Nothing is written where the first
// read fails.
fn take_turn<R: Read, P: Print, Q: Print>(
    from: &mut R,
    out: &P,
    err: &Q,
    run: Run,
    is_first: bool,
    text: &mut [u8],
) -> Result<Run, ExitCode> {
    let mut bytes = [0u8; 4096];
    let read = input::read_block(from, &mut bytes);
    if let Some(e) = read.error {
        return Err(input::fail(err, b"wave: standard input", &e));
    }
    if is_first {
        begin(out, err, run.chip, text)?;
    }
    take_bytes(out, err, run, &bytes[..read.count], text)
}

// A proved loop has to end, and nothing says that the input does, so the loop counts blocks, up to a number that no run reaches.
fn main(rt: HostRuntime) -> ExitCode {
    let mut from = rt.stdin();
    let (out, err) = (rt.stdout(), rt.stderr());
    // What a block of 1,024 words adds to the dump: 151 bytes a word at most.
    let mut text = [0u8; 154624];
    let mut run = wave_run::start(chip::fresh());
    let mut is_first = true;
    for _ in 0..u64::MAX {
        match take_turn(&mut from, &out, &err, run, is_first, &mut text) {
            Ok(next) => run = next,
            Err(status) => return status,
        }
        is_first = false;
    }
    ExitCode::SUCCESS
}
