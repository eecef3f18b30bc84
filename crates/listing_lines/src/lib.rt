// The lines of a listing, read byte by byte to entries.
#![tactic(auto)]

ghost use Rattle.std.specs.Prelude.{◌≡◌};
ghost use Rattle.listing_lines.specs.Line.{digit_of, symbol_of, reader_at, counted as counted_of, begun as begun_of, grown as grown_of, count_end, word_end, answer_end, entry_end, commented as commented_of, at_start, at_remark, at_first, at_repeated, at_word, at_gap, at_answer, at_rest, next_at, line_start, next as next_of};

// What a byte is to the reader of a line.
#[derive(Clone, Copy)]
pub enum Symbol {
    Newline,
    // white space within a line: a blank, a tab, or the carriage return of a line that ends in CR LF
    Blank,
    Star,
    Hash,
    // a hex digit's value
    Digit(u8),
    Other,
}

// Where in a line the reader stands.
#[derive(Clone, Copy)]
pub enum Place {
    // before its first field
    Start,
    // in a line that is passed over
    Remark,
    // in its first field, a count or a word
    First,
    // after a count
    Repeated,
    // in the word after a count
    Word,
    // before the answer
    Gap,
    Answer,
    // in the comment
    Rest,
}

// The place, the field in reading (its digits, its value, and its value as a count), the count and the word read before it.
#[derive(Clone, Copy)]
pub struct Reader {
    pub place: Place,
    pub digits: u8,
    pub value: u32,
    pub count: u32,
    pub times: u32,
    pub word: u32,
}

// What a byte brings: the reader goes on, the line is malformed, or it ends with an entry of count, word and expected answer.
#[derive(Clone, Copy)]
pub enum Found {
    Within(Reader),
    Refused,
    Entry(u32, u32, u32),
}

fn digit_of(b: u8) -> Symbol
    ensures { result ≡ digit_of b }
{
    if b < 48 {
        return Symbol::Other;
    }
    if b < 58 {
        return Symbol::Digit(b - 48);
    }
    if b < 65 {
        return Symbol::Other;
    }
    if b < 71 {
        return Symbol::Digit(b - 55);
    }
    if b < 97 {
        return Symbol::Other;
    }
    if b < 103 {
        return Symbol::Digit(b - 87);
    }
    Symbol::Other
}

fn symbol_of(b: u8) -> Symbol
    ensures { result ≡ symbol_of b }
{
    match b {
        10 => Symbol::Newline,
        9 => Symbol::Blank,
        13 => Symbol::Blank,
        32 => Symbol::Blank,
        42 => Symbol::Star,
        35 => Symbol::Hash,
        _ => digit_of(b),
    }
}

fn reader_at(place: Place, times: u32, word: u32) -> Reader
    ensures { result ≡ reader_at place times word }
{
    Reader {
        place: place,
        digits: 0,
        value: 0,
        count: 0,
        times: times,
        word: word,
    }
}

// A digit more of a count.
fn counted(n: u32, d: u8) -> u32
    ensures { result ≡ counted_of n d }
{
    if d < 10 {
        if n < 10000 { n * 10 + d as u32 } else { 100000 }
    } else {
        100000
    }
}

// The first digit of a field.
fn begun(place: Place, times: u32, word: u32, d: u8) -> Reader
    ensures { result ≡ begun_of place times word d }
{
    Reader {
        place: place,
        digits: 1,
        value: d as u32,
        count: counted(0, d),
        times: times,
        word: word,
    }
}

// A digit more of a field.
fn grown(r: Reader, d: u8) -> Found
    ensures { result ≡ grown_of r d }
{
    let place = r.place;
    if r.digits < 8 {
        Found::Within(Reader {
            place: place,
            digits: r.digits + 1,
            value: r.value % 268435456 * 16 + (d % 16) as u32,
            count: counted(r.count, d),
            times: r.times,
            word: r.word,
        })
    } else {
        Found::Refused
    }
}

// The end of a count.
fn count_end(r: Reader) -> Found
    ensures { result ≡ count_end r }
{
    if r.count == 0 {
        return Found::Refused;
    }
    if r.digits < 6 {
        if r.count < 100000 {
            Found::Within(reader_at(Place::Repeated, r.count, 0))
        } else {
            Found::Refused
        }
    } else {
        Found::Refused
    }
}

// The end of a word.
fn word_end(r: Reader) -> Found
    ensures { result ≡ word_end r }
{
    if r.digits == 8 {
        Found::Within(reader_at(Place::Gap, r.times, r.value))
    } else {
        Found::Refused
    }
}

fn commented(r: Reader) -> Reader
    ensures { result ≡ commented_of r }
{
    Reader {
        place: Place::Rest,
        digits: r.digits,
        value: r.value,
        count: r.count,
        times: r.times,
        word: r.word,
    }
}

// The end of an answer before a comment.
fn answer_end(r: Reader) -> Found
    ensures { result ≡ answer_end r }
{
    if r.digits == 8 {
        Found::Within(commented(r))
    } else {
        Found::Refused
    }
}

// The end of an answer at the end of the line.
fn entry_end(r: Reader) -> Found
    ensures { result ≡ entry_end r }
{
    if r.digits == 8 {
        Found::Entry(r.times, r.word, r.value)
    } else {
        Found::Refused
    }
}

fn at_start(s: Symbol) -> Found
    ensures { result ≡ at_start s }
{
    match s {
        Symbol::Newline => Found::Within(reader_at(Place::Start, 1, 0)),
        Symbol::Blank => Found::Within(reader_at(Place::Start, 1, 0)),
        Symbol::Star => Found::Refused,
        Symbol::Hash => Found::Within(reader_at(Place::Remark, 1, 0)),
        Symbol::Digit(d) => Found::Within(begun(Place::First, 1, 0, d)),
        Symbol::Other => Found::Refused,
    }
}

fn at_remark(s: Symbol) -> Found
    ensures { result ≡ at_remark s }
{
    match s {
        Symbol::Newline => Found::Within(reader_at(Place::Start, 1, 0)),
        Symbol::Blank => Found::Within(reader_at(Place::Remark, 1, 0)),
        Symbol::Star => Found::Within(reader_at(Place::Remark, 1, 0)),
        Symbol::Hash => Found::Within(reader_at(Place::Remark, 1, 0)),
        Symbol::Digit(_) => Found::Within(reader_at(Place::Remark, 1, 0)),
        Symbol::Other => Found::Within(reader_at(Place::Remark, 1, 0)),
    }
}

fn at_first(r: Reader, s: Symbol) -> Found
    ensures { result ≡ at_first r s }
{
    match s {
        Symbol::Newline => Found::Refused,
        Symbol::Blank => word_end(r),
        Symbol::Star => count_end(r),
        Symbol::Hash => Found::Refused,
        Symbol::Digit(d) => grown(r, d),
        Symbol::Other => Found::Refused,
    }
}

fn at_repeated(r: Reader, s: Symbol) -> Found
    ensures { result ≡ at_repeated r s }
{
    match s {
        Symbol::Newline => Found::Refused,
        Symbol::Blank => Found::Within(reader_at(Place::Repeated, r.times, 0)),
        Symbol::Star => Found::Refused,
        Symbol::Hash => Found::Refused,
        Symbol::Digit(d) => Found::Within(begun(Place::Word, r.times, 0, d)),
        Symbol::Other => Found::Refused,
    }
}

fn at_word(r: Reader, s: Symbol) -> Found
    ensures { result ≡ at_word r s }
{
    match s {
        Symbol::Newline => Found::Refused,
        Symbol::Blank => word_end(r),
        Symbol::Star => Found::Refused,
        Symbol::Hash => Found::Refused,
        Symbol::Digit(d) => grown(r, d),
        Symbol::Other => Found::Refused,
    }
}

fn at_gap(r: Reader, s: Symbol) -> Found
    ensures { result ≡ at_gap r s }
{
    match s {
        Symbol::Newline => Found::Refused,
        Symbol::Blank => Found::Within(reader_at(Place::Gap, r.times, r.word)),
        Symbol::Star => Found::Refused,
        Symbol::Hash => Found::Refused,
        Symbol::Digit(d) => Found::Within(begun(Place::Answer, r.times, r.word, d)),
        Symbol::Other => Found::Refused,
    }
}

fn at_answer(r: Reader, s: Symbol) -> Found
    ensures { result ≡ at_answer r s }
{
    match s {
        Symbol::Newline => entry_end(r),
        Symbol::Blank => answer_end(r),
        Symbol::Star => Found::Refused,
        Symbol::Hash => Found::Refused,
        Symbol::Digit(d) => grown(r, d),
        Symbol::Other => Found::Refused,
    }
}

fn at_rest(r: Reader, s: Symbol) -> Found
    ensures { result ≡ at_rest r s }
{
    match s {
        Symbol::Newline => Found::Entry(r.times, r.word, r.value),
        Symbol::Blank => Found::Within(commented(r)),
        Symbol::Star => Found::Within(commented(r)),
        Symbol::Hash => Found::Within(commented(r)),
        Symbol::Digit(_) => Found::Within(commented(r)),
        Symbol::Other => Found::Within(commented(r)),
    }
}

fn next_at(place: Place, r: Reader, s: Symbol) -> Found
    ensures { result ≡ next_at place r s }
{
    match place {
        Place::Start => at_start(s),
        Place::Remark => at_remark(s),
        Place::First => at_first(r, s),
        Place::Repeated => at_repeated(r, s),
        Place::Word => at_word(r, s),
        Place::Gap => at_gap(r, s),
        Place::Answer => at_answer(r, s),
        Place::Rest => at_rest(r, s),
    }
}

// Before the first byte of a line.
pub fn line_start() -> Reader
    ensures { result ≡ line_start }
{
    reader_at(Place::Start, 1, 0)
}

// A byte of a line.
pub fn next(r: Reader, b: u8) -> Found
    ensures { result ≡ next_of r b }
{
    let place = r.place;
    next_at(place, r, symbol_of(b))
}
