// Gives the words on standard input, lowest byte first, to a fresh chip, and writes a line of eight hex digits for each
// answer to standard output. Words are answered as they come: a read that brings less than the buffer holds is answered at
// once. A read or a write that fails is told on standard error, and ends the program.
#![tactic(auto)]

ghost use Rattle.std.specs.Prelude.{◌≤◌, length, IfOk};

use chip::Chip;
use std::io::{Print, Read};
use std::process::ExitCode;

// The chip after a part, and the bytes of a cut word, which stand at the start of the input.
#[derive(Clone, Copy)]
struct Turn {
    chip: Chip,
    carried: usize,
}

// Writes text. Where it cannot, the program ends.
fn write(rt: &HostRuntime, text: &[u8]) -> Result<(), ExitCode> {
    match rt.stdout().write_all(text) {
        Ok(()) => Ok(()),
        Err(e) => Err(input::fail(&rt.stderr(), b"replay: standard output", &e)),
    }
}

// The end of the input: bytes left over are answered.
fn finish(rt: &HostRuntime, c: Chip, left: &[u8], out: &mut [u8]) -> ExitCode {
    let answered = replay_text::answer_block(c, left, out);
    match write(rt, &out[..answered.count]) {
        Ok(()) => ExitCode::SUCCESS,
        Err(status) => status,
    }
}

// What has come, answered.
fn answer(rt: &HostRuntime, c: Chip, come: &mut [u8], out: &mut [u8]) -> Result<Turn, ExitCode>
    ensures { IfOk result (λ t. t.carried ≤ length come.old) }
{
    let part = replay_text::answer_part(c, come, out);
    write(rt, &out[..part.count])?;
    Ok(Turn {
        chip: part.chip,
        carried: part.carried,
    })
}

// Reads what has come, behind the bytes of a cut word, and answers it. At the end of the input, or where a read or a write fails,
// the program ends.
fn take_turn(
    rt: &HostRuntime,
    turn: Turn,
    bytes: &mut [u8],
    out: &mut [u8],
) -> Result<Turn, ExitCode>
    requires { turn.carried ≤ length bytes.old }
    ensures { IfOk result (λ t. t.carried ≤ length bytes.old) }
{
    let carried = turn.carried;
    match rt.stdin().read(&mut bytes[carried..]) {
        Ok(0) => Err(finish(rt, turn.chip, &bytes[..carried], out)),
        Ok(n) => answer(rt, turn.chip, &mut bytes[..carried + n], out),
        Err(e) => Err(input::fail(&rt.stderr(), b"replay: standard input", &e)),
    }
}

// The text of a full input takes 9 bytes for each 4.
fn main(rt: HostRuntime) -> ExitCode {
    let mut bytes = [0u8; 65536];
    let mut out = [0u8; 147456];
    let mut turn = Turn {
        chip: chip::fresh(),
        carried: 0,
    };
    for _ in 0..u64::MAX {
        match take_turn(&rt, turn, &mut bytes, &mut out) {
            Ok(next) => turn = next,
            Err(status) => return status,
        }
    }
    ExitCode::SUCCESS
}
