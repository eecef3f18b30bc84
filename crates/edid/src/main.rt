// Checks an EDID base block on standard input and writes a line with the verdict's number and name to standard output, for an
// accepted block with its edition. Where reading or writing fails, standard error says why.
#![tactic(auto)]

use edid_check::{Edition, Verdict};
use std::io;
use std::io::Print;
use std::process::ExitCode;

fn print_accepted<P: Print>(to: &P, e: Edition) -> io::Result<()> {
    match e {
        Edition::Revision3 => to.write_all(b"0 accepted 1.3\n"),
        Edition::Revision4 => to.write_all(b"0 accepted 1.4\n"),
    }
}

fn print<P: Print>(to: &P, v: Verdict) -> io::Result<()> {
    match v {
        Verdict::Accepted(e) => print_accepted(to, e),
        Verdict::Length => to.write_all(b"30 length\n"),
        Verdict::Header => to.write_all(b"31 header\n"),
        Verdict::Version => to.write_all(b"32 version\n"),
        Verdict::Sum => to.write_all(b"33 sum\n"),
        Verdict::Digital => to.write_all(b"34 digital\n"),
        Verdict::Depth => to.write_all(b"35 depth\n"),
        Verdict::Interface => to.write_all(b"36 interface\n"),
    }
}

// 4,096 bytes are too many whatever follows.
fn main(rt: HostRuntime) -> ExitCode {
    let mut bytes = [0u8; 4096];
    let block = input::read_block(&mut rt.stdin(), &mut bytes);
    if let Some(e) = block.error {
        return input::fail(&rt.stderr(), b"edid: standard input", &e);
    }
    let verdict = edid_check::check(&bytes[..block.count]);
    match print(&rt.stdout(), verdict) {
        Ok(()) => ExitCode::SUCCESS,
        Err(e) => input::fail(&rt.stderr(), b"edid: standard output", &e),
    }
}
