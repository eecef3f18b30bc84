// Writes the words on standard input, lowest byte first, to standard output as a recording: blocks of 126 words and one with the
// rest. What goes wrong is told on standard error.
#![tactic(auto)]

ghost use Rattle.std.specs.Prelude.{◌≡◌, MatchResult};

use recording_blocks::WriteFault;
use recording_writer::BlocksWritten;
use std::io::Print;
use std::process::ExitCode;

// Tells what went wrong with the input, and the status that the program then ends with.
fn tell_input(rt: &HostRuntime, count: usize, failed: bool, full: bool) -> Option<ExitCode> {
    let text: &[u8] = if failed {
        b"record: cannot read standard input\n"
    } else if full {
        b"record: more words than 65,536 blocks hold; the rest is left out\n"
    } else if count % 4 != 0 {
        b"record: the input ends within a word; its bytes are left out\n"
    } else {
        return None;
    };
    Some(input::tell(&rt.stderr(), text))
}

// The bytes of the blocks, none where they are refused.
fn size_of(done: &Result<BlocksWritten, WriteFault>) -> usize
    ensures { MatchResult done.now (λ d. result ≡ d.count) (λ f. result ≡ 0) }
{
    match done {
        Ok(blocks) => blocks.count,
        Err(_) => 0,
    }
}

// Reads words for up to 128 blocks and writes these. Gives the number of the next block, or the status where none may follow.
fn record_some(rt: &HostRuntime, next: u32) -> Result<u32, ExitCode> {
    let mut bytes = [0u8; 64512];
    let filled = input::fill(&mut rt.stdin(), &mut bytes);
    let n = filled.count;
    let mut words = [0u32; 16128];
    let count = recording_writer::words_of(&bytes[..n], &mut words);
    let mut out = [0u8; 65536];
    let done = recording_writer::write_blocks(next, &words[..count], &mut out);
    let size = size_of(&done);
    let written = rt.stdout().write_all(&out[..size]);
    if let Err(e) = &written {
        if input::is_closed_pipe(e) {
            return Err(input::status(written));
        }
    }
    let told = tell_input(rt, n, filled.failed, done.is_err());
    if written.is_err() {
        return Err(input::tell(&rt.stderr(), b"record: cannot write to standard output\n"));
    }
    match (told, done) {
        (Some(status), _) => Err(status),
        (None, Ok(blocks)) if n == 64512 => Ok(blocks.next),
        (None, _) => Err(ExitCode::SUCCESS),
    }
}

// After 512 turns of 128 blocks there is no number for a further block.
fn main(rt: HostRuntime) -> ExitCode {
    let mut next: u32 = 0;
    for _ in 0..u64::MAX {
        match record_some(&rt, next) {
            Ok(number) => next = number,
            Err(status) => return status,
        }
    }
    ExitCode::SUCCESS
}
