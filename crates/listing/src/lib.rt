// Listings: words with their expected answers, as text, run from a fresh chip.
#![tactic(auto)]

ghost use Rattle.std.specs.Prelude.{◌≡◌};
ghost use Rattle.listing.specs.Listing.{one_more, opened as opened_of, stopped as stopped_of, given as given_of, given_at, repeated as repeated_of, next_line, line_end, within as within_of, entered as entered_of, taken as taken_of, byte_read, read as read_of, concluded as concluded_of, closed as closed_of};

use chip::Chip;
use listing_lines::{Found, Reader};

// What is known of a listing so far. A difference has the word, the expected answer and the one given; a listing that has ended
// without a word is empty.
#[derive(Clone, Copy)]
pub enum Verdict {
    Agrees,
    Malformed,
    Differs(u32, u32, u32),
    Empty,
}

// The chip, the reader, the number of the line, the words that were answered as expected, and the verdict.
#[derive(Clone, Copy)]
pub struct Progress {
    pub chip: Chip,
    pub reader: Reader,
    pub line: u64,
    pub words: u64,
    pub verdict: Verdict,
}

fn one_more(n: u64) -> u64
    ensures { result ≡ one_more n }
{
    if n < u64::MAX { n + 1 } else { n }
}

// Before the first byte of a listing.
pub fn opened() -> Progress
    ensures { result ≡ opened_of }
{
    Progress {
        chip: chip::fresh(),
        reader: listing_lines::line_start(),
        line: 1,
        words: 0,
        verdict: Verdict::Agrees,
    }
}

fn stopped(p: Progress, v: Verdict) -> Progress
    ensures { result ≡ stopped_of p v }
{
    let chip = p.chip;
    let reader = p.reader;
    Progress {
        chip: chip,
        reader: reader,
        line: p.line,
        words: p.words,
        verdict: v,
    }
}

// A word to the chip, and its answer against the expected one.
fn given(p: Progress, word: u32, expected: u32) -> Progress
    ensures { result ≡ given_of p word expected }
{
    let before = p.chip;
    let done = step::advance(before, events::decode(word));
    let reader = p.reader;
    if done.answer == expected {
        let after = done.chip;
        Progress {
            chip: after,
            reader: reader,
            line: p.line,
            words: one_more(p.words),
            verdict: Verdict::Agrees,
        }
    } else {
        stopped(p, Verdict::Differs(word, expected, done.answer))
    }
}

fn given_at(verdict: Verdict, p: Progress, word: u32, expected: u32) -> Progress
    ensures { result ≡ given_at verdict p word expected }
{
    match verdict {
        Verdict::Agrees => given(p, word, expected),
        Verdict::Malformed => p,
        Verdict::Differs(_, _, _) => p,
        Verdict::Empty => p,
    }
}

// A word as often as its line says.
fn repeated(times: u32, start: Progress, word: u32, expected: u32) -> Progress
    ensures { result ≡ repeated_of times start word expected }
{
    let mut p = start;
    for _done in 0..times {
        let verdict = p.verdict;
        p = given_at(verdict, p, word, expected);
    }
    p
}

fn next_line(p: Progress) -> Progress
    ensures { result ≡ next_line p }
{
    let chip = p.chip;
    let verdict = p.verdict;
    Progress {
        chip: chip,
        reader: listing_lines::line_start(),
        line: one_more(p.line),
        words: p.words,
        verdict: verdict,
    }
}

fn line_end(verdict: Verdict, p: Progress) -> Progress
    ensures { result ≡ line_end verdict p }
{
    match verdict {
        Verdict::Agrees => next_line(p),
        Verdict::Malformed => p,
        Verdict::Differs(_, _, _) => p,
        Verdict::Empty => p,
    }
}

fn within(p: Progress, r: Reader) -> Progress
    ensures { result ≡ within_of p r }
{
    let chip = p.chip;
    let verdict = p.verdict;
    Progress {
        chip: chip,
        reader: r,
        line: p.line,
        words: p.words,
        verdict: verdict,
    }
}

fn passed(p: Progress, b: u8, r: Reader) -> Progress
    ensures { result ≡ taken_of p b (Found.Within r) }
{
    if b == 10 { next_line(p) } else { within(p, r) }
}

fn entered(p: Progress, times: u32, word: u32, expected: u32) -> Progress
    ensures { result ≡ entered_of p times word expected }
{
    let done = repeated(times, p, word, expected);
    let verdict = done.verdict;
    line_end(verdict, done)
}

fn taken(p: Progress, b: u8, f: Found) -> Progress
    ensures { result ≡ taken_of p b f }
{
    match f {
        Found::Within(r) => passed(p, b, r),
        Found::Refused => stopped(p, Verdict::Malformed),
        Found::Entry(times, word, expected) => entered(p, times, word, expected),
    }
}

fn next_byte(p: Progress, b: u8) -> Progress
    ensures { result ≡ byte_read Verdict.Agrees p b }
{
    let reader = p.reader;
    taken(p, b, listing_lines::next(reader, b))
}

fn byte_read(verdict: Verdict, p: Progress, b: u8) -> Progress
    ensures { result ≡ byte_read verdict p b }
{
    match verdict {
        Verdict::Agrees => next_byte(p, b),
        Verdict::Malformed => p,
        Verdict::Differs(_, _, _) => p,
        Verdict::Empty => p,
    }
}

// A part of a listing's text.
pub fn read(start: Progress, text: &[u8]) -> Progress
    ensures { result ≡ read_of start text.now }
{
    let mut p = start;
    for b in text {
        let verdict = p.verdict;
        p = byte_read(verdict, p, *b);
    }
    p
}

// A listing without a word shows nothing.
fn concluded(verdict: Verdict, p: Progress) -> Progress
    ensures { result ≡ concluded_of verdict p }
{
    match verdict {
        Verdict::Agrees => {
            if p.words == 0 {
                stopped(p, Verdict::Empty)
            } else {
                p
            }
        }
        Verdict::Malformed => p,
        Verdict::Differs(_, _, _) => p,
        Verdict::Empty => p,
    }
}

// The end of the text, which ends its last line.
pub fn closed(p: Progress) -> Progress
    ensures { result ≡ closed_of p }
{
    let verdict = p.verdict;
    let last = byte_read(verdict, p, 10);
    let told = last.verdict;
    concluded(told, last)
}
