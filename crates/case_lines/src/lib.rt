// A line of a case, byte by byte in constant memory: an event, how often it is given, and the answer that it must get.
#![tactic(auto)]

ghost use Rattle.std.specs.Prelude.{◌≡◌};
ghost use Rattle.case_lines.specs.Line.{is_read, unanswered as unanswered_of, asked as asked_of, begun as begun_of, event_token, answer_token, take_token, taken as taken_of, line_start, next as next_of, answer_end, word_end, tokens_end, line_end};

use answer_text::Answer;
use case_words::{ARROW, Case, Listed};
use event_text_read::Event;
use line_tokens::{BadToken, Scanner, Token};

// The tokens of a line so far: the event, the answer, and whether the rest is a comment.
#[derive(Clone, Copy)]
pub struct Tokens {
    pub case: Case,
    pub answer: Answer,
    pub remark: bool,
}

// A line in reading.
#[derive(Clone, Copy)]
pub struct Reader {
    pub scanner: Scanner,
    pub tokens: Tokens,
}

// A word, how often it is given, and the answer that it must get, if it is looked at.
#[derive(Clone, Copy)]
pub struct Given {
    pub times: u64,
    pub word: u32,
    pub expected: Option<u32>,
}

// ---- tokens

#[tactic(auto, unfolding(crate::specs::Line::unanswered))]
fn unanswered(c: Case) -> Tokens
    ensures { result ≡ unanswered_of c }
{
    Tokens {
        case: c,
        answer: Answer::Start,
        remark: false,
    }
}

// The word is a read, so that its answer has a byte.
#[tactic(auto, unfolding(crate::specs::Line::is_read))]
pub fn is_read(word: u32) -> bool
    ensures { result ≡ is_read word }
{
    word / 16777216 == 1
}

#[tactic(auto, unfolding(crate::specs::Line::asked))]
fn asked(e: Event) -> bool
    ensures { result ≡ asked_of e }
{
    match e {
        Event::Word(w) => is_read(w),
        Event::Start => false,
        Event::Kind(_) => false,
        Event::Place(_, _) => false,
        Event::Other => false,
        Event::Bad(_) => false,
        Event::Number(_) => false,
        Event::Numbered(_, _) => false,
    }
}

#[tactic(auto, unfolding(crate::specs::Line::begun))]
fn begun(c: Case, t: Token) -> Tokens
    ensures { result ≡ begun_of c t }
{
    if t.value == ARROW {
        return unanswered(c);
    }
    Tokens {
        case: c,
        answer: answer_text::take(false, Answer::Start, t),
        remark: true,
    }
}

#[tactic(auto, unfolding(crate::specs::Line::event_token))]
fn event_token(c: Case, t: Token) -> Tokens
    ensures { result ≡ event_token c t }
{
    if c.answer { begun(c, t) } else { unanswered(c) }
}

#[tactic(auto, unfolding(crate::specs::Line::answer_token))]
fn answer_token(l: Tokens, t: Token) -> Tokens
    ensures { result ≡ answer_token l t }
{
    if l.remark {
        return l;
    }
    Tokens {
        case: l.case,
        answer: answer_text::take(asked(l.case.event), l.answer, t),
        remark: false,
    }
}

#[tactic(auto, unfolding(crate::specs::Line::take_token))]
fn take_token(l: Tokens, t: Token) -> Tokens
    ensures { result ≡ take_token l t }
{
    if l.case.answer {
        return answer_token(l, t);
    }
    event_token(case_words::take_case(l.case, t), t)
}

#[tactic(auto, unfolding(crate::specs::Line::taken))]
fn taken(l: Tokens, token: Option<Token>) -> Tokens
    ensures { result ≡ taken_of l token }
{
    match token {
        Some(t) if t.value == 0 => l,
        Some(t) => take_token(l, t),
        None => l,
    }
}

// ---- bytes

// Before the first byte of a line.
#[tactic(auto, unfolding(crate::specs::Line::line_start))]
pub fn line_start() -> Reader
    ensures { result ≡ line_start }
{
    Reader {
        scanner: line_tokens::start(),
        tokens: unanswered(case_words::case_start()),
    }
}

// A byte of a line, which is no newline.
#[tactic(auto, unfolding(crate::specs::Line::next))]
pub fn next(r: Reader, b: u8) -> Reader
    ensures { result ≡ next_of r b }
{
    let scanner = line_tokens::scan(r.scanner, b);
    Reader {
        scanner,
        tokens: taken(r.tokens, scanner.done),
    }
}

// ---- the end of the line

#[tactic(auto, unfolding(crate::specs::Line::answer_end))]
fn answer_end(listed: Listed, answer: Result<u32, BadToken>) -> Result<Option<Given>, BadToken>
    ensures { result ≡ answer_end listed answer }
{
    match answer {
        Ok(expected) => Ok(Some(Given {
            times: listed.times,
            word: listed.word,
            expected: Some(expected),
        })),
        Err(bad) => Err(bad),
    }
}

#[tactic(auto, unfolding(crate::specs::Line::word_end))]
fn word_end(l: Tokens, listed: Listed, end: u64) -> Result<Option<Given>, BadToken>
    ensures { result ≡ word_end l listed end }
{
    if l.case.answer {
        return answer_end(listed, answer_text::answer_end(l.answer, end));
    }
    Ok(Some(Given {
        times: listed.times,
        word: listed.word,
        expected: None,
    }))
}

#[tactic(auto, unfolding(crate::specs::Line::tokens_end, crate::specs::Line::found_end))]
fn tokens_end(l: Tokens, end: u64) -> Result<Option<Given>, BadToken>
    ensures { result ≡ tokens_end l end }
{
    match case_words::case_end(l.case, end) {
        Ok(Some(listed)) => word_end(l, listed, end),
        Ok(None) => Ok(None),
        Err(bad) => Err(bad),
    }
}

// The end of a line: what it gives, nothing, or the place of a bad or missing token.
#[tactic(auto, unfolding(crate::specs::Line::line_end))]
pub fn line_end(r: Reader) -> Result<Option<Given>, BadToken>
    ensures { result ≡ line_end r }
{
    tokens_end(taken(r.tokens, r.scanner.pending), r.scanner.at)
}
