// Gives the recording on standard input to a fresh chip, and writes a line of eight hex digits for each answer to standard
// output; where a bad block ends it, a last line with its number. What goes wrong is told on standard error.
#![tactic(auto)]

ghost use Rattle.std.specs.Prelude.{◌≤◌};

use chip::Chip;
use std::io::Print;
use std::process::ExitCode;

// The chip after some blocks, and the number that is due.
#[derive(Clone, Copy)]
struct Turn {
    chip: Chip,
    next: u32,
}

// The bytes to replay: all that were read or, where a read failed, those of whole blocks, since the rest of a block is not known
// to be missing.
fn replayed_bytes(count: usize, failed: bool) -> usize
    ensures { result ≤ count }
{
    if failed { count / 512 * 512 } else { count }
}

// Tells what went wrong, and the status that the program then ends with.
fn tell(rt: &HostRuntime, failed: bool, number: u8) -> Option<ExitCode> {
    let text: &[u8] = if failed {
        b"recording: cannot read standard input\n"
    } else if number != 0 {
        b"recording: a bad block ends the replay\n"
    } else {
        return None;
    };
    Some(input::tell(&rt.stderr(), text))
}

// Reads up to 32 blocks and answers them: buffers of this size stay in the processor's nearest memory. The text of 32 blocks and a
// last line takes 36,297 bytes. Gives what the next turn begins with, or the status where none may follow.
fn replay_some(rt: &HostRuntime, turn: Turn) -> Result<Turn, ExitCode> {
    let mut bytes = [0u8; 16384];
    let filled = input::fill(&mut rt.stdin(), &mut bytes);
    let n = replayed_bytes(filled.count, filled.failed);
    let mut out = [0u8; 36297];
    let done = recording_replay::replay_blocks(turn.chip, turn.next, &bytes[..n], &mut out);
    let written = rt.stdout().write_all(&out[..done.count]);
    if let Err(e) = &written {
        if input::is_closed_pipe(e) {
            return Err(input::status(written));
        }
    }
    let told = tell(rt, filled.failed, done.number);
    if written.is_err() {
        return Err(input::tell(
            &rt.stderr(),
            b"recording: cannot write to standard output\n",
        ));
    }
    match told {
        Some(status) => Err(status),
        None if n < 16384 => Err(ExitCode::SUCCESS),
        None => Ok(Turn {
            chip: done.chip,
            next: done.next,
        }),
    }
}

fn main(rt: HostRuntime) -> ExitCode {
    let mut turn = Turn {
        chip: chip::fresh(),
        next: 0,
    };
    for _ in 0..u64::MAX {
        match replay_some(&rt, turn) {
            Ok(next) => turn = next,
            Err(status) => return status,
        }
    }
    ExitCode::SUCCESS
}
