// The words of a listing, token by token: events by name or as eight digits, with a count before `*`, and answers passed over.
#![tactic(auto)]

ghost use Rattle.std.specs.Prelude.{◌≡◌};
ghost use Rattle.case_words.specs.Case.{case_start, count_of, first as first_of, counted as counted_of, more as more_of, answered as answered_of, is_answer, after_word, following as following_of, later as later_of, take_case, taken as taken_of, times_of, word_end, case_end};

use event_text_read::Event;
use line_tokens::{BadToken, Token};

// A line so far: whether no token has come; the number that its one token may be as a count; the count; the event; and whether the answer
// has begun.
#[derive(Clone, Copy)]
pub struct Case {
    pub fresh: bool,
    pub count: Option<u64>,
    pub times: Option<u64>,
    pub event: Event,
    pub answer: bool,
}

// A word, and how often it is given.
#[derive(Clone, Copy)]
pub struct Listed {
    pub times: u64,
    pub word: u32,
}

// The sign `=>`, behind which an answer stands.
pub const ARROW: u64 = 0x3D3E;

// The sign `*`, behind a count.
const STAR: u64 = b'*' as u64;

// Before the first token of a line.
#[tactic(auto, unfolding(crate::specs::Case::case_start))]
pub fn case_start() -> Case
    ensures { result ≡ case_start }
{
    Case {
        fresh: true,
        count: None,
        times: None,
        event: Event::Start,
        answer: false,
    }
}

// A number that may be a count: not 0, which would give the word to no chip.
#[tactic(auto, unfolding(crate::specs::Case::count_of))]
fn count_of(n: Option<u64>) -> Option<u64>
    ensures { result ≡ count_of n }
{
    match n {
        Some(0) => None,
        _ => n,
    }
}

#[tactic(auto, unfolding(crate::specs::Case::first))]
fn first(e: Event, t: Token) -> Case
    ensures { result ≡ first_of e t }
{
    Case {
        fresh: false,
        count: count_of(t.count),
        times: None,
        event: event_text_read::take(e, t),
        answer: false,
    }
}

#[tactic(auto, unfolding(crate::specs::Case::counted))]
fn counted(n: u64) -> Case
    ensures { result ≡ counted_of n }
{
    Case {
        fresh: false,
        count: None,
        times: Some(n),
        event: Event::Start,
        answer: false,
    }
}

#[tactic(auto, unfolding(crate::specs::Case::more))]
fn more(c: Case, t: Token) -> Case
    ensures { result ≡ more_of c t }
{
    Case {
        fresh: false,
        count: None,
        times: c.times,
        event: event_text_read::take(c.event, t),
        answer: false,
    }
}

#[tactic(auto, unfolding(crate::specs::Case::answered))]
fn answered(c: Case) -> Case
    ensures { result ≡ answered_of c }
{
    Case {
        fresh: false,
        count: None,
        times: c.times,
        event: c.event,
        answer: true,
    }
}

#[tactic(auto, unfolding(crate::specs::Case::is_answer))]
fn is_answer(v: u64) -> bool
    ensures { result ≡ is_answer v }
{
    v == ARROW || event_names::unhex(8, v).is_some()
}

#[tactic(auto, unfolding(crate::specs::Case::after_word))]
fn after_word(c: Case, t: Token) -> Case
    ensures { result ≡ after_word c t }
{
    if is_answer(t.value) {
        answered(c)
    } else {
        more(c, t)
    }
}

#[tactic(auto, unfolding(crate::specs::Case::following))]
fn following(e: Event, c: Case, t: Token) -> Case
    ensures { result ≡ following_of e c t }
{
    match e {
        Event::Word(_) => after_word(c, t),
        Event::Start => more(c, t),
        Event::Kind(_) => more(c, t),
        Event::Place(_, _) => more(c, t),
        Event::Other => more(c, t),
        Event::Bad(_) => more(c, t),
        Event::Number(_) => more(c, t),
        Event::Numbered(_, _) => more(c, t),
    }
}

#[tactic(auto, unfolding(crate::specs::Case::later, crate::specs::Case::starred))]
fn later(c: Case, t: Token) -> Case
    ensures { result ≡ later_of c t }
{
    if t.value == STAR {
        return match c.count {
            Some(n) => counted(n),
            None => more(c, t),
        };
    }
    following(c.event, c, t)
}

// A token of a line.
#[tactic(auto, unfolding(crate::specs::Case::take_case))]
pub fn take_case(c: Case, t: Token) -> Case
    ensures { result ≡ take_case c t }
{
    if c.answer {
        return c;
    }
    if c.fresh {
        return first(c.event, t);
    }
    later(c, t)
}

// The token that a byte ended, if any. One of number 0, which no line leads to, is taken like another.
#[tactic(auto, unfolding(crate::specs::Case::taken))]
pub fn taken(c: Case, token: Option<Token>) -> Case
    ensures { result ≡ taken_of c token }
{
    match token {
        Some(t) => take_case(c, t),
        None => c,
    }
}

#[tactic(auto, unfolding(crate::specs::Case::times_of))]
fn times_of(n: Option<u64>) -> u64
    ensures { result ≡ times_of n }
{
    n.unwrap_or(1)
}

#[tactic(auto, unfolding(crate::specs::Case::word_end, crate::specs::Case::listed))]
fn word_end(e: Event, times: Option<u64>, end: u64) -> Result<Option<Listed>, BadToken>
    ensures { result ≡ word_end e times end }
{
    match event_text_read::line_end(e, end) {
        Ok(word) => Ok(Some(Listed {
            times: times_of(times),
            word,
        })),
        Err(bad) => Err(bad),
    }
}

// The end of a line of so many bytes: its word, nothing, or the place of a bad or missing token.
#[tactic(auto, unfolding(crate::specs::Case::case_end))]
pub fn case_end(c: Case, end: u64) -> Result<Option<Listed>, BadToken>
    ensures { result ≡ case_end c end }
{
    if c.fresh {
        return Ok(None);
    }
    word_end(c.event, c.times, end)
}
