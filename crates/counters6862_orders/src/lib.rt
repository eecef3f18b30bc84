// The lines of a script for the counters, read byte by byte to orders.
#![tactic(auto)]

ghost use Rattle.std.specs.Prelude.{◌≡◌};
ghost use Rattle.counters6862_orders.specs.Line.{letter_of, symbol_of, reader_at, line_start, lettered, begun as begun_of, grown as grown_of, at_start, at_remark, at_word, at_gap, at_number, next_at, next as next_of};
ghost use Rattle.counters6862_orders.specs.Orders.{with_number, bare as bare_of, report_order, put_order, order_of};

// What a byte is to the reader of a line.
#[derive(Clone, Copy)]
pub enum Symbol {
    Newline,
    Blank,
    Hash,
    // a digit's value
    Digit(u8),
    // 1 for `a` to 26 for `z`
    Letter(u8),
    Other,
}

// Where in a line the reader stands.
#[derive(Clone, Copy)]
pub enum Place {
    // before its first byte
    Start,
    // in a line that is passed over
    Remark,
    // in its word
    Word,
    // before a number
    Gap,
    Number,
}

// The place, the word so far, how many numbers were begun, the number before the one in reading, and that one.
#[derive(Clone, Copy)]
pub struct Reader {
    pub place: Place,
    pub word: u32,
    pub count: u8,
    pub first: u32,
    pub value: u32,
}

// A line that has ended: its word, how many numbers it has, and the last two of them.
#[derive(Clone, Copy)]
pub struct Line {
    pub word: u32,
    pub count: u8,
    pub first: u32,
    pub value: u32,
}

// What a byte of a line that is not malformed brings: the reader goes on, or the line ends.
#[derive(Clone, Copy)]
pub enum Found {
    Within(Reader),
    Ended(Line),
}

// What a line asks for: a call and its value, the field rate, or a number to be put at a place.
#[derive(Clone, Copy)]
pub enum Order {
    Call(u32, u32),
    Field,
    Put(u32, u32),
}

#[tactic(auto, unfolding(crate::specs::Line::letter_of))]
fn letter_of(b: u8) -> Symbol
    ensures { result ≡ letter_of b }
{
    match b {
        b'0'..=b'9' => Symbol::Digit(b - b'0'),
        b'a'..=b'z' => Symbol::Letter(b - b'a' + 1),
        _ => Symbol::Other,
    }
}

#[tactic(auto, unfolding(crate::specs::Line::symbol_of))]
fn symbol_of(b: u8) -> Symbol
    ensures { result ≡ symbol_of b }
{
    match b {
        b'\n' => Symbol::Newline,
        b' ' => Symbol::Blank,
        b'#' => Symbol::Hash,
        _ => letter_of(b),
    }
}

fn reader_at(place: Place, word: u32, count: u8, first: u32) -> Reader
    ensures { result ≡ reader_at place word count first }
{
    Reader {
        place,
        word,
        count,
        first,
        value: 0,
    }
}

// A letter more of a word, which has six at most.
#[tactic(auto, unfolding(crate::specs::Line::lettered))]
fn with_letter(word: u32, l: u8) -> Option<Found>
    ensures { result ≡ lettered word l }
{
    if word < 33554432 {
        Some(Found::Within(reader_at(Place::Word, word * 32 + u32::from(l % 32), 0, 0)))
    } else {
        None
    }
}

// The first digit of a number, of which a line has two at most.
#[tactic(auto, unfolding(crate::specs::Line::begun))]
fn begun(r: Reader, d: u8) -> Option<Found>
    ensures { result ≡ begun_of r d }
{
    if r.count < 2 {
        Some(Found::Within(Reader {
            place: Place::Number,
            count: r.count + 1,
            value: u32::from(d),
            ..r
        }))
    } else {
        None
    }
}

// A digit more of a number, which is at most 999,999,999.
#[tactic(auto, unfolding(crate::specs::Line::grown))]
fn grown(r: Reader, d: u8) -> Option<Found>
    ensures { result ≡ grown_of r d }
{
    if r.value < 100000000 {
        Some(Found::Within(Reader {
            place: Place::Number,
            value: r.value * 10 + u32::from(d % 10),
            ..r
        }))
    } else {
        None
    }
}

fn at_start(s: Symbol) -> Option<Found>
    ensures { result ≡ at_start s }
{
    match s {
        Symbol::Newline => Some(Found::Within(line_start())),
        Symbol::Hash => Some(Found::Within(reader_at(Place::Remark, 0, 0, 0))),
        Symbol::Letter(l) => with_letter(0, l),
        _ => None,
    }
}

fn at_remark(s: Symbol) -> Option<Found>
    ensures { result ≡ at_remark s }
{
    match s {
        Symbol::Newline => Some(Found::Within(line_start())),
        _ => Some(Found::Within(reader_at(Place::Remark, 0, 0, 0))),
    }
}

fn at_word(r: Reader, s: Symbol) -> Option<Found>
    ensures { result ≡ at_word r s }
{
    match s {
        Symbol::Newline => Some(Found::Ended(Line {
            word: r.word,
            count: 0,
            first: 0,
            value: 0,
        })),
        Symbol::Blank => Some(Found::Within(reader_at(Place::Gap, r.word, 0, 0))),
        Symbol::Letter(l) => with_letter(r.word, l),
        _ => None,
    }
}

fn at_gap(r: Reader, s: Symbol) -> Option<Found>
    ensures { result ≡ at_gap r s }
{
    match s {
        Symbol::Blank => Some(Found::Within(r)),
        Symbol::Digit(d) => begun(r, d),
        _ => None,
    }
}

fn at_number(r: Reader, s: Symbol) -> Option<Found>
    ensures { result ≡ at_number r s }
{
    match s {
        Symbol::Newline => Some(Found::Ended(Line {
            word: r.word,
            count: r.count,
            first: r.first,
            value: r.value,
        })),
        Symbol::Blank => Some(Found::Within(reader_at(Place::Gap, r.word, r.count, r.value))),
        Symbol::Digit(d) => grown(r, d),
        _ => None,
    }
}

fn next_at(place: Place, r: Reader, s: Symbol) -> Option<Found>
    ensures { result ≡ next_at place r s }
{
    match place {
        Place::Start => at_start(s),
        Place::Remark => at_remark(s),
        Place::Word => at_word(r, s),
        Place::Gap => at_gap(r, s),
        Place::Number => at_number(r, s),
    }
}

// Before the first byte of a line.
pub fn line_start() -> Reader
    ensures { result ≡ line_start }
{
    reader_at(Place::Start, 0, 0, 0)
}

// A byte of a line. There is nothing where it makes the line malformed.
pub fn next(r: Reader, b: u8) -> Option<Found>
    ensures { result ≡ next_of r b }
{
    next_at(r.place, r, symbol_of(b))
}

// A call whose word comes with one number.
#[tactic(auto, unfolding(crate::specs::Orders::with_number))]
fn with_number(code: u32, count: u8, value: u32) -> Option<Order>
    ensures { result ≡ with_number code count value }
{
    if count == 1 {
        Some(Order::Call(code, value))
    } else {
        None
    }
}

// A call whose word comes alone.
#[tactic(auto, unfolding(crate::specs::Orders::bare))]
fn bare(code: u32, count: u8) -> Option<Order>
    ensures { result ≡ bare_of code count }
{
    if count == 0 {
        Some(Order::Call(code, 0))
    } else {
        None
    }
}

#[tactic(auto, unfolding(crate::specs::Orders::report_order))]
fn report_order(count: u8) -> Option<Order>
    ensures { result ≡ report_order count }
{
    if count == 0 { Some(Order::Field) } else { None }
}

// A place below twelve and a number of 16 bits.
#[tactic(auto, unfolding(crate::specs::Orders::put_order))]
fn put_order(count: u8, place: u32, value: u32) -> Option<Order>
    ensures { result ≡ put_order count place value }
{
    if count == 2 {
        if place < 12 {
            if value < 65536 {
                return Some(Order::Put(place, value));
            }
        }
    }
    None
}

// What a line asks for, by its word, if it is an order.
#[tactic(auto, unfolding(crate::specs::Orders::order_of))]
pub fn order_of(line: Line) -> Option<Order>
    ensures { result ≡ order_of line }
{
    match line.word {
        6887016 => with_number(0, line.count, line.value),
        8 => with_number(1, line.count, line.value),
        22 => with_number(2, line.count, line.value),
        3554411 => with_number(3, line.count, line.value),
        182733996 => with_number(4, line.count, line.value),
        281772 => with_number(5, line.count, line.value),
        111176 => bare(6, line.count),
        111190 => bare(7, line.count),
        6591876 => report_order(line.count),
        17076 => put_order(line.count, line.first, line.value),
        _ => None,
    }
}
