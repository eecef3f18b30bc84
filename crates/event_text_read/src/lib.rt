// A line of text as an event word: `read IRQX`, `write IEX 3F`, `pin VSYNCI 0`, `clock 8us`, `polarity H 1`, `word 06000000`, or eight
// digits. A line is read token by token, so that a program needs no room for it.
#![tactic(auto)]

ghost use Rattle.std.specs.Prelude.{◌≡◌, ◌≤◌};
ghost use Rattle.events.specs.Word.{event_word};
ghost use Rattle.event_names.specs.Names.{number_of};
ghost use Rattle.event_text_read.specs.Event.{takes_b, digits_b, limit_b, bound_b, line_kind, bare as bare_of, at_start, at_kind, at_place, at_other, at_number, at_numbered, next as next_of, take as take_of, taken as taken_of, line_end, parse};

use event_names::{Keyword, Kind};
use line_tokens::{BadToken, Token};

// What the tokens of a line so far are: none; a kind; a kind and a field A; `word`; a whole word; or a bad token, by its place. A bad token
// is a state and no `Err`, since the tokens behind it are still taken. No line leads to the last two: a number that is no kind's, 0 or 6
// to 255, stands for a kind, whose field A is a register's and whose B is 0 or 1.
#[derive(Clone, Copy)]
pub enum Event {
    Start,
    Kind(Kind),
    Place(Kind, u8),
    Other,
    Word(u32),
    Bad(u64),
    Number(u8),
    Numbered(u8, u8),
}

// ---- the fields that a kind takes

fn takes_b(k: Kind) -> bool
    ensures { result ≡ takes_b k }
{
    !matches!(k, Kind::Read | Kind::Clock)
}

fn digits_b(k: Kind) -> u32
    ensures { result ≡ digits_b k }
{
    if let Kind::Write = k { 2 } else { 1 }
}

fn limit_b(k: Kind) -> u32
    ensures { (result ≡ limit_b k) × (result ≤ 256) }
{
    if let Kind::Write = k { 256 } else { 2 }
}

fn bound_b(k: Kind) -> u32
    ensures { result ≡ bound_b k }
{
    if takes_b(k) { limit_b(k) } else { 1 }
}

// The kind of which the word has a line: kinds 1 to 5, zero between the kind and A, and a B that the kind takes.
#[tactic(auto, unfolding(crate::specs::Event::line_kind))]
pub fn line_kind(word: u32) -> Option<Kind>
    ensures { result ≡ line_kind word }
{
    let kind = Kind::with_number((word / 16777216) as u8)?;
    let formed = word / 65536 % 256 == 0 && word % 256 < bound_b(kind);
    if formed { Some(kind) } else { None }
}

// The word with these fields.
fn word_with(number: u8, a: u8, b: u8) -> u32
    ensures { result ≡ event_word number a b }
{
    u32::from_be_bytes([number, 0, a, b])
}

fn event_word(kind: Kind, a: u8, b: u8) -> u32
    ensures { result ≡ event_word (number_of kind) a b }
{
    word_with(kind.number(), a, b)
}

// ---- a token at each point of a line, at its place

#[tactic(auto, unfolding(crate::specs::Event::bare, crate::specs::Event::word_or))]
fn bare(at: u64, v: u64) -> Event
    ensures { result ≡ bare_of at v }
{
    match event_names::unhex(8, v) {
        Some(word) => Event::Word(word),
        None => Event::Bad(at),
    }
}

#[tactic(auto, unfolding(crate::specs::Event::at_start, crate::specs::Event::on_keyword))]
fn at_start(at: u64, v: u64) -> Event
    ensures { result ≡ at_start at v }
{
    match event_names::kind_of(v) {
        Some(Keyword::Event(kind)) => Event::Kind(kind),
        Some(Keyword::Word) => Event::Other,
        None => bare(at, v),
    }
}

#[tactic(auto, unfolding(crate::specs::Event::at_kind, crate::specs::Event::on_field))]
fn at_kind(at: u64, k: Kind, v: u64) -> Event
    ensures { result ≡ at_kind at k v }
{
    match event_names::field_of(k, v) {
        Some(a) if takes_b(k) => Event::Place(k, a),
        Some(a) => Event::Word(event_word(k, a, 0)),
        None => Event::Bad(at),
    }
}

#[tactic(auto, unfolding(crate::specs::Event::at_place))]
fn at_place(at: u64, k: Kind, a: u8, v: u64) -> Event
    ensures { result ≡ at_place at k a v }
{
    match event_names::unhex(digits_b(k), v) {
        Some(b) if b < limit_b(k) => Event::Word(event_word(k, a, b as u8)),
        Some(_) => Event::Bad(at),
        None => Event::Bad(at),
    }
}

#[tactic(auto, unfolding(crate::specs::Event::at_other, crate::specs::Event::other_or))]
fn at_other(at: u64, v: u64) -> Event
    ensures { result ≡ at_other at v }
{
    match event_names::unhex(8, v) {
        Some(word) => match line_kind(word) {
            Some(_) => Event::Bad(at),
            None => Event::Word(word),
        },
        None => Event::Bad(at),
    }
}

#[tactic(auto, unfolding(crate::specs::Event::at_number, crate::specs::Event::on_register))]
fn at_number(at: u64, n: u8, v: u64) -> Event
    ensures { result ≡ at_number at n v }
{
    match event_names::field_of(Kind::Read, v) {
        Some(a) => Event::Numbered(n, a),
        None => Event::Bad(at),
    }
}

#[tactic(auto, unfolding(crate::specs::Event::at_numbered))]
fn at_numbered(at: u64, n: u8, a: u8, v: u64) -> Event
    ensures { result ≡ at_numbered at n a v }
{
    match event_names::unhex(1, v) {
        Some(b) if b < 2 => Event::Word(word_with(n, a, b as u8)),
        Some(_) => Event::Bad(at),
        None => Event::Bad(at),
    }
}

#[tactic(auto, unfolding(crate::specs::Event::next))]
fn next(at: u64, e: Event, v: u64) -> Event
    ensures { result ≡ next_of at e v }
{
    match e {
        Event::Start => at_start(at, v),
        Event::Kind(k) => at_kind(at, k, v),
        Event::Place(k, a) => at_place(at, k, a, v),
        Event::Other => at_other(at, v),
        Event::Word(_) => Event::Bad(at),
        Event::Bad(place) => Event::Bad(place),
        Event::Number(n) => at_number(at, n, v),
        Event::Numbered(n, a) => at_numbered(at, n, a, v),
    }
}

// A token more of a line.
pub fn take(e: Event, t: Token) -> Event
    ensures { result ≡ take_of e t }
{
    next(t.at, e, t.value)
}

// The word at the end of a line, or the place of its first bad token; the line's end where a token is missing.
#[tactic(auto, unfolding(crate::specs::Event::line_end))]
pub fn line_end(e: Event, end: u64) -> Result<u32, BadToken>
    ensures { result ≡ line_end e end }
{
    match e {
        Event::Word(word) => Ok(word),
        Event::Bad(place) => Err(BadToken { at: place }),
        Event::Start => Err(BadToken { at: end }),
        Event::Kind(_) => Err(BadToken { at: end }),
        Event::Place(_, _) => Err(BadToken { at: end }),
        Event::Other => Err(BadToken { at: end }),
        Event::Number(_) => Err(BadToken { at: end }),
        Event::Numbered(_, _) => Err(BadToken { at: end }),
    }
}

// The token that a byte ended, if any; number 0 is none.
#[tactic(auto, unfolding(crate::specs::Event::taken))]
fn taken(e: Event, token: Option<Token>) -> Event
    ensures { result ≡ taken_of e token }
{
    match token {
        Some(t) if t.value == 0 => e,
        Some(t) => take(e, t),
        None => e,
    }
}

// The word of a line without its newline, or the place of its first bad token.
pub fn parse_line(line: &[u8]) -> Result<u32, BadToken>
    ensures { result ≡ parse line.now }
{
    let mut s = line_tokens::start();
    let mut e = Event::Start;
    for b in line {
        s = line_tokens::scan(s, *b);
        e = taken(e, s.done);
    }
    line_end(taken(e, s.pending), line.len() as u64)
}
