// Cases: events with the answers that they must get, as text, run from a fresh chip.
#![tactic(auto)]

ghost use Rattle.std.specs.Prelude.{◌≡◌};
ghost use Rattle.case_lines.specs.Line.{Entry};
ghost use Rattle.case_run.specs.Run.{goes, opened as opened_of, stopped as stopped_of, differs as differs_of, given as given_of, repeated as repeated_of, next_line, line_done, entered as entered_of, within as within_of, byte_taken, byte_read, read as read_of, concluded as concluded_of, closed as closed_of};

use case_lines::{Given, Reader};
use chip::Chip;
use line_tokens::BadToken;

// Why a case does not pass: a line that is no event with its answer; a word, the expected answer and the one given; or no event at all.
#[derive(Clone, Copy)]
pub enum Failure {
    Malformed(BadToken),
    Differs(u32, u32, u32),
    Empty,
}

// The chip, the line in reading, its number, the words that were answered as expected, and the failure at which reading has stopped.
#[derive(Clone, Copy)]
pub struct Progress {
    pub chip: Chip,
    pub reader: Reader,
    pub line: u64,
    pub words: u64,
    pub failure: Option<Failure>,
}

// Whether reading goes on.
#[tactic(auto, unfolding(crate::specs::Run::goes))]
pub fn goes_on(failure: Option<Failure>) -> bool
    ensures { result ≡ goes failure }
{
    failure.is_none()
}

// Before the first byte of a case.
#[tactic(auto, unfolding(crate::specs::Run::opened))]
pub fn opened() -> Progress
    ensures { result ≡ opened_of }
{
    Progress {
        chip: chip::fresh(),
        reader: case_lines::line_start(),
        line: 1,
        words: 0,
        failure: None,
    }
}

fn stopped(p: Progress, failure: Failure) -> Progress
    ensures { result ≡ stopped_of p failure }
{
    Progress {
        chip: p.chip,
        reader: p.reader,
        line: p.line,
        words: p.words,
        failure: Some(failure),
    }
}

// ---- events

// The failure of an answer that is another than expected.
fn differs(word: u32, expected: Option<u32>, answer: u32) -> Option<Failure>
    ensures { result ≡ differs_of word expected answer }
{
    match expected {
        Some(expected) if answer != expected => Some(Failure::Differs(word, expected, answer)),
        Some(_) => None,
        None => None,
    }
}

// A word to the chip, and its answer against the expected one.
#[tactic(auto, unfolding(crate::specs::Run::given))]
fn given(p: Progress, word: u32, expected: Option<u32>) -> Progress
    ensures { result ≡ given_of p word expected }
{
    let done = step::advance(p.chip, events::decode(word));
    match differs(word, expected, done.answer) {
        Some(failure) => stopped(p, failure),
        None => Progress {
            chip: done.chip,
            reader: p.reader,
            line: p.line,
            words: line_tokens::one_more(p.words),
            failure: None,
        },
    }
}

// A word as often as its line says.
fn repeated(times: u64, start: Progress, word: u32, expected: Option<u32>) -> Progress
    ensures { result ≡ repeated_of times start word expected }
{
    let mut p = start;
    for _i in 0..times {
        if !goes_on(p.failure) {
            return p;
        }
        p = given(p, word, expected);
    }
    p
}

// ---- lines

fn next_line(p: Progress) -> Progress
    ensures { result ≡ next_line p }
{
    Progress {
        chip: p.chip,
        reader: case_lines::line_start(),
        line: line_tokens::one_more(p.line),
        words: p.words,
        failure: p.failure,
    }
}

#[tactic(auto, unfolding(crate::specs::Run::line_done))]
fn line_done(p: Progress) -> Progress
    ensures { result ≡ line_done p }
{
    if goes_on(p.failure) { next_line(p) } else { p }
}

#[tactic(auto, unfolding(crate::specs::Run::entered))]
fn entered(p: Progress, entry: Result<Option<Given>, BadToken>) -> Progress
    ensures { result ≡ entered_of p entry }
{
    match entry {
        Ok(Some(g)) => line_done(repeated(g.times, p, g.word, g.expected)),
        Ok(None) => next_line(p),
        Err(bad) => stopped(p, Failure::Malformed(bad)),
    }
}

fn within(p: Progress, r: Reader) -> Progress
    ensures { result ≡ within_of p r }
{
    Progress {
        chip: p.chip,
        reader: r,
        line: p.line,
        words: p.words,
        failure: p.failure,
    }
}

// ---- the text

#[tactic(auto, unfolding(crate::specs::Run::byte_taken))]
fn byte_taken(p: Progress, b: u8) -> Progress
    ensures { result ≡ byte_taken p b }
{
    if b == b'\n' {
        return entered(p, case_lines::line_end(p.reader));
    }
    within(p, case_lines::next(p.reader, b))
}

#[tactic(auto, unfolding(crate::specs::Run::byte_read))]
fn byte_read(p: Progress, b: u8) -> Progress
    ensures { result ≡ byte_read p b }
{
    if goes_on(p.failure) {
        byte_taken(p, b)
    } else {
        p
    }
}

// A part of a case's text.
pub fn read(start: Progress, text: &[u8]) -> Progress
    ensures { result ≡ read_of start text.now }
{
    let mut p = start;
    for b in text {
        p = byte_read(p, *b);
    }
    p
}

#[tactic(auto, unfolding(crate::specs::Run::concluded))]
fn concluded(p: Progress) -> Progress
    ensures { result ≡ concluded_of p }
{
    if goes_on(p.failure) && p.words == 0 {
        return stopped(p, Failure::Empty);
    }
    p
}

// The end of the text, which ends its last line.
#[tactic(auto, unfolding(crate::specs::Run::closed))]
pub fn closed(p: Progress) -> Progress
    ensures { result ≡ closed_of p }
{
    concluded(byte_read(p, b'\n'))
}
