// Gives the words on standard input, lowest byte first, to a fresh chip, and writes a line for each to standard output: the word as text, `=>`,
// and its answer, so that what is written is a case. Bytes left over, a read or a write that fails are told on standard error.
#![tactic(auto)]

ghost use Rattle.std.specs.Prelude.{◌+◌, ◌*◌, ◌≤◌, length};

use chip::Chip;
use std::io::{Print, Read};
use std::process::ExitCode;

// The line of a word and its answer at a place of the text, and where it ends.
fn put_line(word: u32, answer: u32, text: &mut [u8], at: usize) -> usize
    requires { at + 145 ≤ length text.old }
    ensures { result ≤ at + 145 }
{
    let n = case_text::write_case(word, answer, &mut text[at..]);
    let end = at + n;
    text[end] = 10;
    end + 1
}

// The lines of words and their answers at the start of the text, and where they end.
fn put_lines(words: &[u32], answers: &[u32], text: &mut [u8]) -> usize
    requires { (length words.now ≤ length answers.now) × (145 * length words.now ≤ length text.old) }
    ensures { result ≤ 145 * length words.now }
{
    let mut at = 0;
    for (i, word) in words.iter().enumerate() {
        at = put_line(*word, answers[i], text, at);
    }
    at
}

// Text to standard output. Here and below an `Err` has the status with which the program ends.
fn write<P: Print, Q: Print>(out: &P, err: &Q, text: &[u8]) -> Result<(), ExitCode> {
    match out.write_all(text) {
        Ok(()) => Ok(()),
        Err(e) => Err(input::fail(err, b"list_words: standard output", &e)),
    }
}

// The lines of words and their answers to standard output. The text of 1,024 words has 145 bytes for each.
fn print_lines<P: Print, Q: Print>(
    out: &P,
    err: &Q,
    words: &[u32],
    answers: &[u32],
    text: &mut [u8; 148480],
) -> Result<(), ExitCode>
    requires { (length words.now ≤ 1024) × (length words.now ≤ length answers.now) }
{
    let end = put_lines(words, answers, text);
    write(out, err, &text[..end])
}

// The whole words of a block to the chip, and their lines to standard output.
fn list_block<P: Print, Q: Print>(
    out: &P,
    err: &Q,
    c: Chip,
    bytes: &[u8],
    text: &mut [u8; 148480],
) -> Result<Chip, ExitCode> {
    let mut words = [0u32; 1024];
    let mut answers = [0u32; 1024];
    let count = recording_writer::words_of(bytes, &mut words);
    let done = list_call::advance_all(c, &words[..count], &mut answers);
    print_lines(out, err, &words[..count], &answers, text)?;
    Ok(done.chip)
}

// The status at the end of the input, so many bytes past its last word.
fn left_over<Q: Print>(err: &Q, left: usize) -> ExitCode {
    if left == 0 {
        return ExitCode::SUCCESS;
    }
    input::status(println!(err; "list_words: standard input: bytes left over: {left}"))
}

// A block is full unless it is the last one, and only that one may end within a word.
fn take_turn<R: Read, P: Print, Q: Print>(
    from: &mut R,
    out: &P,
    err: &Q,
    c: Chip,
    text: &mut [u8; 148480],
) -> Result<Chip, ExitCode> {
    let mut block = [0u8; 4096];
    let read = input::read_block(from, &mut block);
    let next = list_block(out, err, c, &block[..read.count], text)?;
    if let Some(e) = read.error {
        return Err(input::fail(err, b"list_words: standard input", &e));
    }
    if read.count < 4096 {
        return Err(left_over(err, read.count % 4));
    }
    Ok(next)
}

// A proved loop has to end, and nothing says that the input does, so the loop counts its turns, up to a number that no run reaches.
fn main(rt: HostRuntime) -> ExitCode {
    let mut from = rt.stdin();
    let (out, err) = (rt.stdout(), rt.stderr());
    let mut text = [0u8; 148480];
    let mut c = chip::fresh();
    for _ in 0..u64::MAX {
        match take_turn(&mut from, &out, &err, c, &mut text) {
            Ok(next) => c = next,
            Err(status) => return status,
        }
    }
    ExitCode::SUCCESS
}
