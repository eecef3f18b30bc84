// Writes the event words that send the EDID base block on standard input through DDC1 to standard output, lowest byte first, as
// `replay` reads them. Of a block that the check refuses nothing is written, and standard error has its number; where reading
// or writing fails, standard error says why.
#![tactic(auto)]

use std::io;
use std::io::Print;
use std::process::ExitCode;

// 21 words before the block and 20 for each of 128 bytes.
fn send<P: Print>(to: &P, block: &[u8]) -> io::Result<()> {
    let mut words = [0u32; 2581];
    let count = edid_feed::feed(block, &mut words);
    let mut bytes = [0u8; 10324];
    let size = edid_feed::store(&words[..count], &mut bytes);
    to.write_all(&bytes[..size])
}

// 4,096 bytes are too many whatever follows.
fn main(rt: HostRuntime) -> ExitCode {
    let mut bytes = [0u8; 4096];
    let read = input::read_block(&mut rt.stdin(), &mut bytes);
    if let Some(e) = read.error {
        return input::fail(&rt.stderr(), b"feed: standard input", &e);
    }
    let block = &bytes[..read.count];
    let number = edid_check::number(edid_check::check(block));
    if number != 0 {
        return input::status(eprintln!(rt; "feed: the block is refused: {number}"));
    }
    match send(&rt.stdout(), block) {
        Ok(()) => ExitCode::SUCCESS,
        Err(e) => input::fail(&rt.stderr(), b"feed: standard output", &e),
    }
}
