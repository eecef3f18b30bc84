// Answer words as text, both ways: `done`, `done byte 3C`, `refused 2`, then `requests V A` and `watchdog reset`; or eight digits.
#![tactic(auto)]

ghost use Rattle.std.specs.Prelude.{◌≡◌, ◌≤◌, IfSome};
ghost use Rattle.event_names.specs.Digits.{below, unhex};
ghost use Rattle.answer_text.specs.Answer.{weight_of, bare as bare_of, at_start, at_done, at_byte, at_refused, at_head, past_letters, at_requests, at_reset, next as next_of, take as take_of, ended as ended_of, is_answer, given as given_of, first_part, second_part, third_part, answer_parts, answer_tokens};

use line_tokens::{BadToken, Token};

// What an answer begins with: the number given back, 0 where the event was done, and the byte that was read.
#[derive(Clone, Copy)]
pub struct Outcome {
    pub number: u8,
    pub byte: u8,
}

// What the tokens of an answer so far are; a bad one by its place: a state and no `Err`, since the tokens behind it are still taken.
// Requests have their bits.
#[derive(Clone, Copy)]
pub enum Answer {
    Start,
    Done,
    Byte,
    Refused,
    Head(Outcome),
    Requests(Outcome, u8),
    Reset(Outcome, u8),
    Word(u32),
    Bad(u64),
}

const DONE: u64 = 0x444F4E45;

const DONE_SHOWN: u64 = 0x646F6E65;

const BYTE: u64 = 0x42595445;

const BYTE_SHOWN: u64 = 0x62797465;

const REFUSED: u64 = 0x52454655534544;

const REFUSED_SHOWN: u64 = 0x72656675736564;

const REQUESTS: u64 = 0x5245515545535453;

const REQUESTS_SHOWN: u64 = 0x7265717565737473;

const WATCHDOG: u64 = 0x5741544348444F47;

const WATCHDOG_SHOWN: u64 = 0x7761746368646F67;

const RESET: u64 = 0x5245534554;

const RESET_SHOWN: u64 = 0x7265736574;

// The letters of the requests.
const V: u64 = b'V' as u64;

const E: u64 = b'E' as u64;

const R: u64 = b'R' as u64;

const A: u64 = b'A' as u64;

const D: u64 = b'D' as u64;

const S: u64 = b'S' as u64;

// ---- reading

// The weight of a request's letter.
#[tactic(auto, unfolding(crate::specs::Answer::weight_of))]
fn weight_of(v: u64) -> Option<u8>
    ensures value { result ≡ weight_of v }
    ensures small { IfSome result (λ weight. weight ≤ 32) }
{
    match v {
        V => Some(1),
        E => Some(2),
        R => Some(4),
        A => Some(8),
        D => Some(16),
        S => Some(32),
        _ => None,
    }
}

#[tactic(auto, unfolding(crate::specs::Answer::bare, crate::specs::Answer::word_or))]
fn bare(at: u64, v: u64) -> Answer
    ensures { result ≡ bare_of at v }
{
    match event_names::unhex(8, v) {
        Some(word) => Answer::Word(word),
        None => Answer::Bad(at),
    }
}

#[tactic(auto, unfolding(crate::specs::Answer::at_start))]
fn at_start(at: u64, asked: bool, v: u64) -> Answer
    ensures { result ≡ at_start at asked v }
{
    match v {
        DONE if asked => Answer::Done,
        DONE => Answer::Head(Outcome { number: 0, byte: 0 }),
        REFUSED => Answer::Refused,
        _ => bare(at, v),
    }
}

#[tactic(auto, unfolding(crate::specs::Answer::at_done))]
fn at_done(at: u64, v: u64) -> Answer
    ensures { result ≡ at_done at v }
{
    if v == BYTE {
        Answer::Byte
    } else {
        Answer::Bad(at)
    }
}

// The number of a token of so many hex digits, where it is below a limit.
fn digits_below(n: u32, limit: u32, v: u64) -> Option<u32>
    requires { limit ≤ 4294967295 }
    ensures { result ≡ below limit (unhex n v) }
{
    match event_names::unhex(n, v) {
        Some(number) if number < limit => Some(number),
        Some(_) => None,
        None => None,
    }
}

#[tactic(auto, unfolding(crate::specs::Answer::at_byte))]
fn at_byte(at: u64, v: u64) -> Answer
    ensures { result ≡ at_byte at v }
{
    match digits_below(2, 256, v) {
        Some(byte) => Answer::Head(Outcome {
            number: 0,
            byte: byte as u8,
        }),
        None => Answer::Bad(at),
    }
}

#[tactic(auto, unfolding(crate::specs::Answer::at_refused))]
fn at_refused(at: u64, v: u64) -> Answer
    ensures { result ≡ at_refused at v }
{
    match digits_below(1, 10, v) {
        Some(number) if number > 0 => Answer::Head(Outcome {
            number: number as u8,
            byte: 0,
        }),
        Some(_) => Answer::Bad(at),
        None => Answer::Bad(at),
    }
}

#[tactic(auto, unfolding(crate::specs::Answer::at_head))]
fn at_head(at: u64, outcome: Outcome, v: u64) -> Answer
    ensures { result ≡ at_head at outcome v }
{
    match v {
        REQUESTS => Answer::Requests(outcome, 0),
        WATCHDOG => Answer::Reset(outcome, 0),
        _ => Answer::Bad(at),
    }
}

#[tactic(auto, unfolding(crate::specs::Answer::past_letters))]
fn past_letters(at: u64, outcome: Outcome, requests: u8, v: u64) -> Answer
    ensures { result ≡ past_letters at outcome requests v }
{
    if 0 < requests && v == WATCHDOG {
        Answer::Reset(outcome, requests)
    } else {
        Answer::Bad(at)
    }
}

// Each letter stands behind those before it in their order.
#[tactic(auto, unfolding(crate::specs::Answer::at_requests, crate::specs::Answer::at_letter))]
fn at_requests(at: u64, outcome: Outcome, requests: u8, v: u64) -> Answer
    ensures { result ≡ at_requests at outcome requests v }
{
    match weight_of(v) {
        Some(weight) if requests < weight => Answer::Requests(outcome, requests + weight),
        Some(_) => past_letters(at, outcome, requests, v),
        None => past_letters(at, outcome, requests, v),
    }
}

#[tactic(auto, unfolding(crate::specs::Answer::at_reset))]
fn at_reset(at: u64, outcome: Outcome, requests: u8, v: u64) -> Answer
    ensures { result ≡ at_reset at outcome requests v }
{
    if v == RESET {
        Answer::Word(answers::answer(outcome.number, true, requests, outcome.byte))
    } else {
        Answer::Bad(at)
    }
}

#[tactic(auto, unfolding(crate::specs::Answer::next))]
fn next(at: u64, asked: bool, a: Answer, v: u64) -> Answer
    ensures { result ≡ next_of at asked a v }
{
    match a {
        Answer::Start => at_start(at, asked, v),
        Answer::Done => at_done(at, v),
        Answer::Byte => at_byte(at, v),
        Answer::Refused => at_refused(at, v),
        Answer::Head(outcome) => at_head(at, outcome, v),
        Answer::Requests(outcome, requests) => at_requests(at, outcome, requests, v),
        Answer::Reset(outcome, requests) => at_reset(at, outcome, requests, v),
        Answer::Word(_) => Answer::Bad(at),
        Answer::Bad(place) => Answer::Bad(place),
    }
}

// A token more of an answer; `asked`: the event beside it is a read.
pub fn take(asked: bool, a: Answer, t: Token) -> Answer
    ensures { result ≡ take_of asked a t }
{
    next(t.at, asked, a, t.value)
}

#[tactic(auto, unfolding(crate::specs::Answer::ended))]
fn requests_end(outcome: Outcome, requests: u8, end: u64) -> Result<u32, BadToken>
    ensures { result ≡ ended_of (Answer.Requests outcome requests) end }
{
    if requests == 0 {
        return Err(BadToken { at: end });
    }
    Ok(answers::answer(outcome.number, false, requests, outcome.byte))
}

// The word at the end of an answer, or the place of a bad or missing token.
#[tactic(auto, unfolding(crate::specs::Answer::ended))]
pub fn answer_end(a: Answer, end: u64) -> Result<u32, BadToken>
    ensures { result ≡ ended_of a end }
{
    match a {
        Answer::Head(outcome) => Ok(answers::answer(outcome.number, false, 0, outcome.byte)),
        Answer::Requests(outcome, requests) => requests_end(outcome, requests, end),
        Answer::Word(word) => Ok(word),
        Answer::Bad(place) => Err(BadToken { at: place }),
        Answer::Start => Err(BadToken { at: end }),
        Answer::Done => Err(BadToken { at: end }),
        Answer::Byte => Err(BadToken { at: end }),
        Answer::Refused => Err(BadToken { at: end }),
        Answer::Reset(_, _) => Err(BadToken { at: end }),
    }
}

// ---- writing

#[tactic(auto, unfolding(crate::specs::Answer::is_answer))]
fn is_answer(asked: bool, w: u32) -> bool
    ensures { result ≡ is_answer asked w }
{
    let number = w / 16777216;
    let no_byte = w % 256 == 0 || (asked && number == 0);
    (number < 10 && w / 65536 % 256 < 2) && (w / 256 % 256 < 64 && no_byte)
}

fn given(t: bool, v: u64) -> u64
    ensures { result ≡ given_of t v }
{
    if t { v } else { 0 }
}

#[tactic(auto, unfolding(crate::specs::Answer::first_part, event_names::specs::Names::lower, event_names::specs::Names::lowered))]
fn first_part(number: u8) -> u64
    ensures { result ≡ first_part number }
{
    if number == 0 {
        DONE_SHOWN
    } else {
        REFUSED_SHOWN
    }
}

#[tactic(auto, unfolding(crate::specs::Answer::second_part, event_names::specs::Names::lower, event_names::specs::Names::lowered))]
fn second_part(asked: bool, number: u8) -> u64
    ensures { result ≡ second_part asked number }
{
    if number == 0 {
        given(asked, BYTE_SHOWN)
    } else {
        event_names::digit_token(number)
    }
}

#[tactic(auto, unfolding(crate::specs::Answer::third_part))]
fn third_part(asked: bool, number: u8, byte: u8) -> u64
    ensures { result ≡ third_part asked number byte }
{
    given(asked && number == 0, event_names::byte_token(byte))
}

#[tactic(auto, unfolding(crate::specs::Answer::answer_parts, event_names::specs::Names::lower, event_names::specs::Names::lowered))]
fn answer_parts(asked: bool, number: u8, watchdog: bool, requests: u8, byte: u8) -> [u64; 12]
    ensures { result ≡ answer_parts asked number watchdog requests byte }
{
    [
        first_part(number),
        second_part(asked, number),
        third_part(asked, number, byte),
        given(0 < requests, REQUESTS_SHOWN),
        given(bits::bit(0, requests), V),
        given(bits::bit(1, requests), E),
        given(bits::bit(2, requests), R),
        given(bits::bit(3, requests), A),
        given(bits::bit(4, requests), D),
        given(bits::bit(5, requests), S),
        given(watchdog, WATCHDOG_SHOWN),
        given(watchdog, RESET_SHOWN),
    ]
}

// The twelve tokens of an answer, 0 for none; eight digits for a word that is no answer to such an event.
#[tactic(auto, unfolding(crate::specs::Answer::answer_tokens))]
pub fn answer_tokens(asked: bool, w: u32) -> [u64; 12]
    ensures { result ≡ answer_tokens asked w }
{
    if is_answer(asked, w) {
        return answer_parts(
            asked,
            (w / 16777216) as u8,
            w / 65536 % 256 == 1,
            (w / 256 % 256) as u8,
            (w % 256) as u8,
        );
    }
    [event_names::word_token(w), 0, 0, 0, 0, 0, 0, 0, 0, 0, 0, 0]
}
