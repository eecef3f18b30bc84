// Lists of events as text: lines `NUMBER WORD`, read byte by byte.
#![tactic(auto)]

ghost use Rattle.std.specs.Prelude.{◌≡◌};
ghost use Rattle.firmware_event_lines.specs.Lines.{symbol_of, number_grown, at_start, at_number, at_gap, word_grown, word_ended, at_word, at_end, after, line_start, next as next_of, meaning_of};

// What a byte is to the reader of a line.
#[derive(Clone, Copy)]
pub enum Symbol {
    Blank,
    // a decimal digit's value
    Digit(u8),
    // the value of a hex digit that is a letter
    Letter(u8),
    Other,
}

// An event and the number of the instruction that it comes before.
#[derive(Clone, Copy)]
pub struct Event {
    pub number: u32,
    pub word: u32,
}

// What the bytes so far are, a comment left out.
#[derive(Clone, Copy)]
pub enum Line {
    // blanks alone
    Start,
    Number(u32),
    // behind the number
    Gap(u32),
    // the number, the word so far, and how many digits it has
    Word(u32, u32, u8),
    // behind the word
    End(Event),
    // a state, and no `Err` of `next`: the reader goes on in it to the end of the line, where `meaning_of` gives the error
    Malformed,
}

// The line so far, and whether its comment has begun.
#[derive(Clone, Copy)]
pub struct Reader {
    pub line: Line,
    pub comment: bool,
}

// The error of a line that is neither blank nor an event.
#[derive(Clone, Copy)]
pub struct Malformed;

// How many hex digits a word has.
const DIGITS: u8 = 8;

// ---- bytes

#[tactic(auto, unfolding(crate::specs::Lines::symbol_of, crate::specs::Lines::letter_of))]
fn symbol_of(b: u8) -> Symbol
    ensures { result ≡ symbol_of b }
{
    match b {
        b' ' | b'\t' | b'\r' => Symbol::Blank,
        b'0'..=b'9' => Symbol::Digit(b - b'0'),
        b'A'..=b'F' => Symbol::Letter(b - b'A' + 10),
        b'a'..=b'f' => Symbol::Letter(b - b'a' + 10),
        _ => Symbol::Other,
    }
}

// ---- a byte at each place of a line

// A digit more of a number of 32 bits.
#[tactic(auto, unfolding(crate::specs::Lines::number_grown))]
fn number_grown(n: u32, d: u8) -> Line
    ensures { result ≡ number_grown n d }
{
    match u32::try_from(u64::from(n) * 10 + u64::from(d)) {
        Ok(v) => Line::Number(v),
        Err(_) => Line::Malformed,
    }
}

fn at_start(s: Symbol) -> Line
    ensures { result ≡ at_start s }
{
    match s {
        Symbol::Blank => Line::Start,
        Symbol::Digit(d) => Line::Number(u32::from(d)),
        Symbol::Letter(_) | Symbol::Other => Line::Malformed,
    }
}

fn at_number(n: u32, s: Symbol) -> Line
    ensures { result ≡ at_number n s }
{
    match s {
        Symbol::Blank => Line::Gap(n),
        Symbol::Digit(d) => number_grown(n, d),
        Symbol::Letter(_) | Symbol::Other => Line::Malformed,
    }
}

fn at_gap(n: u32, s: Symbol) -> Line
    ensures { result ≡ at_gap n s }
{
    match s {
        Symbol::Blank => Line::Gap(n),
        Symbol::Digit(d) | Symbol::Letter(d) => Line::Word(n, u32::from(d), 1),
        Symbol::Other => Line::Malformed,
    }
}

#[tactic(auto, unfolding(crate::specs::Lines::word_grown))]
fn word_grown(n: u32, w: u32, k: u8, d: u8) -> Line
    ensures { result ≡ word_grown n w k d }
{
    if k < DIGITS {
        Line::Word(n, w % 0x1000_0000 * 16 + u32::from(d % 16), k + 1)
    } else {
        Line::Malformed
    }
}

// Behind the last digit of a word.
#[tactic(auto, unfolding(crate::specs::Lines::word_ended))]
fn word_ended(number: u32, word: u32, k: u8) -> Line
    ensures { result ≡ word_ended number word k }
{
    if k == DIGITS {
        Line::End(Event { number, word })
    } else {
        Line::Malformed
    }
}

fn at_word(n: u32, w: u32, k: u8, s: Symbol) -> Line
    ensures { result ≡ at_word n w k s }
{
    match s {
        Symbol::Blank => word_ended(n, w, k),
        Symbol::Digit(d) | Symbol::Letter(d) => word_grown(n, w, k, d),
        Symbol::Other => Line::Malformed,
    }
}

fn at_end(e: Event, s: Symbol) -> Line
    ensures { result ≡ at_end e s }
{
    match s {
        Symbol::Blank => Line::End(e),
        _ => Line::Malformed,
    }
}

fn advanced(line: Line, s: Symbol) -> Line
    ensures { result ≡ after line s }
{
    match line {
        Line::Start => at_start(s),
        Line::Number(n) => at_number(n, s),
        Line::Gap(n) => at_gap(n, s),
        Line::Word(n, w, k) => at_word(n, w, k, s),
        Line::End(e) => at_end(e, s),
        Line::Malformed => Line::Malformed,
    }
}

// ---- the line

// Before the first byte of a line.
pub fn line_start() -> Reader
    ensures { result ≡ line_start }
{
    Reader {
        line: Line::Start,
        comment: false,
    }
}

// A byte more of a line, which is not the newline that ends it.
pub fn next(r: Reader, b: u8) -> Reader
    ensures { result ≡ next_of r b }
{
    if r.comment {
        return r;
    }
    if b == b'#' {
        return Reader { comment: true, ..r };
    }
    Reader {
        line: advanced(r.line, symbol_of(b)),
        ..r
    }
}

// What a line means, at its end: an event, or nothing where it is blank.
pub fn meaning_of(line: Line) -> Result<Option<Event>, Malformed>
    ensures { result ≡ meaning_of line }
{
    match line {
        Line::Start => Ok(None),
        Line::Word(number, word, DIGITS) => Ok(Some(Event { number, word })),
        Line::End(e) => Ok(Some(e)),
        Line::Number(_) | Line::Gap(_) | Line::Word(..) | Line::Malformed => Err(Malformed),
    }
}
