// The tokens of a line of text, byte by byte, in constant memory: what stands between white space, up to a comment. A token is one number:
// its bytes in base 256, the first one highest, letters in upper case.
#![tactic(auto)]

ghost use Rattle.std.specs.Prelude.{◌≡◌};
ghost use Rattle.line_tokens.specs.Scan.{one_more, blank as is_blank, fold as fold_of, grown as grown_by, counted as counted_by, longer as longer_by, start as start_of, is_star, moved as moved_of, scan as scan_of};

// A token: its number; what it is as a decimal number, if it is one; and the place where it begins. A token of number 0, which has no byte,
// stands for none; no line leads to one.
#[derive(Clone, Copy)]
pub struct Token {
    pub value: u64,
    pub count: Option<u64>,
    pub at: u64,
}

// Where in a line a token is bad or missing.
#[derive(Clone, Copy)]
pub struct BadToken {
    pub at: u64,
}

// A line in reading: the token that goes on, the one that the last byte ended, the bytes so far, and whether a comment has begun.
#[derive(Clone, Copy)]
pub struct Scanner {
    pub pending: Option<Token>,
    pub done: Option<Token>,
    pub at: u64,
    pub remark: bool,
}

// A number from here on has eight bytes.
const EIGHT_BYTES: u64 = 1 << 56;

// A token by itself: it stands between a count and an event.
const STAR: u8 = b'*';

// One more; the largest number stands.
#[tactic(auto, unfolding(crate::specs::Scan::one_more))]
pub fn one_more(n: u64) -> u64
    ensures { result ≡ one_more n }
{
    n.saturating_add(1)
}

#[tactic(auto, unfolding(crate::specs::Scan::blank))]
fn blank(b: u8) -> bool
    ensures { result ≡ is_blank b }
{
    matches!(b, b' ' | b'\t' | b'\r')
}

// A byte without its letter case; 255 for a control byte, which no name has.
#[tactic(auto, unfolding(crate::specs::Scan::fold))]
fn fold(b: u8) -> u8
    ensures { result ≡ fold_of b }
{
    if b < 33 { 255 } else { b.to_ascii_uppercase() }
}

// A token of nine bytes or more is the largest number.
#[tactic(auto, unfolding(crate::specs::Scan::grown))]
fn grown(v: u64, b: u8) -> u64
    ensures { result ≡ grown_by v b }
{
    if v < EIGHT_BYTES {
        v * 256 + u64::from(fold(b))
    } else {
        u64::MAX
    }
}

#[tactic(auto, unfolding(crate::specs::Scan::counted))]
fn counted(n: Option<u64>, b: u8) -> Option<u64>
    ensures { result ≡ counted_by n b }
{
    let n = n?;
    match b {
        b'0'..=b'9' if n < u64::MAX / 10 => Some(n * 10 + u64::from(b - b'0')),
        _ => None,
    }
}

// A token with one byte more; where there is none, one that begins here. One of no bytes begins here too, and goes on from its count.
#[tactic(auto, unfolding(crate::specs::Scan::longer))]
fn longer(token: Option<Token>, at: u64, b: u8) -> Token
    ensures { result ≡ longer_by token at b }
{
    match token {
        Some(t) => Token {
            value: grown(t.value, b),
            count: counted(t.count, b),
            at: if t.value == 0 { at } else { t.at },
        },
        None => Token {
            value: grown(0, b),
            count: counted(Some(0), b),
            at,
        },
    }
}

// Before the first byte of a line.
#[tactic(auto, unfolding(crate::specs::Scan::start))]
pub fn start() -> Scanner
    ensures { result ≡ start_of }
{
    Scanner {
        pending: None,
        done: None,
        at: 0,
        remark: false,
    }
}

// One byte on.
#[tactic(auto, unfolding(crate::specs::Scan::moved))]
fn moved(s: Scanner, pending: Option<Token>, done: Option<Token>, remark: bool) -> Scanner
    ensures { result ≡ moved_of s pending done remark }
{
    Scanner {
        pending,
        done,
        at: one_more(s.at),
        remark,
    }
}

#[tactic(auto, unfolding(crate::specs::Scan::is_star))]
fn is_star(token: Option<Token>) -> bool
    ensures { result ≡ is_star token }
{
    match token {
        Some(t) => t.value == u64::from(STAR),
        None => false,
    }
}

// A byte more of a line. The token that it ends, if any, is `done`.
#[tactic(auto, unfolding(crate::specs::Scan::scan, crate::specs::Scan::scanned, crate::specs::Scan::passed, crate::specs::Scan::ended, crate::specs::Scan::begun, crate::specs::Scan::within))]
pub fn scan(s: Scanner, b: u8) -> Scanner
    ensures { result ≡ scan_of s b }
{
    if s.remark {
        return moved(s, None, None, true);
    }
    if blank(b) {
        return moved(s, None, s.pending, false);
    }
    if b == b'#' {
        return moved(s, None, s.pending, true);
    }
    if b == STAR || is_star(s.pending) {
        return moved(s, Some(longer(None, s.at, b)), s.pending, false);
    }
    moved(s, Some(longer(s.pending, s.at, b)), None, false)
}
