// What a token of a dump's body is, by its bytes alone.
#![tactic(auto)]

ghost use Rattle.std.specs.Prelude.{◌≡◌, ◌<◌, length};
ghost use Rattle.vcd_items.specs.Items.{four_state, all_states, is_vector, letter_class, real_class, real_next, real_state, whole_real, is_real, kind_of, is_dump, keyword_of, item_as, item_of};

use vcd_text::{NumberError, same};

// What a token is by its first byte.
#[derive(Clone, Copy)]
pub enum Kind {
    Low,
    High,
    Vector,
    Real,
    Hash,
    Dollar,
    Other,
}

// What a token is.
#[derive(Clone, Copy)]
pub enum Item {
    // a change of a variable of one bit: whether to 1, x or z
    Scalar(bool),
    // a well formed b or r change, before its code
    Value,
    Time(Result<u64, NumberError>),
    Dump,
    End,
    Comment,
    Bad,
}

// ---- vectors

#[tactic(auto, unfolding(crate::specs::Items::four_state))]
fn is_state(b: u8) -> bool
    ensures { result ≡ four_state b }
{
    matches!(b, b'0' | b'1' | b'x' | b'X' | b'z' | b'Z')
}

fn states(t: &[u8]) -> bool
    ensures { result ≡ all_states t.now }
{
    t.iter().all(|b| is_state(*b))
}

#[tactic(auto, unfolding(crate::specs::Items::is_vector))]
fn is_vector(t: &[u8]) -> bool
    ensures { result ≡ is_vector t.now }
{
    !t.is_empty() && states(t)
}

// ---- reals

#[tactic(auto, unfolding(crate::specs::Items::letter_class))]
fn letter_class(b: u8) -> u8
    ensures { (result ≡ letter_class b) × (result < 16) }
{
    match b {
        b'+' | b'-' => 1,
        b'.' => 2,
        b'E' | b'e' => 3,
        b'N' | b'n' => 4,
        b'A' | b'a' => 5,
        b'I' | b'i' => 6,
        b'F' | b'f' => 7,
        _ => 8,
    }
}

#[tactic(auto, unfolding(crate::specs::Items::real_class))]
fn real_class(b: u8) -> u8
    ensures { (result ≡ real_class b) × (result < 16) }
{
    if b.is_ascii_digit() {
        0
    } else {
        letter_class(b)
    }
}

#[tactic(auto, unfolding(crate::specs::Items::real_next))]
fn real_next(q: u8, c: u8) -> u8
    ensures { (result ≡ real_next q c) × (result < 16) }
{
    match u16::from(q) * 16 + u16::from(c) {
        0 => 2,
        1 => 1,
        4 => 8,
        6 => 10,
        16 => 2,
        20 => 8,
        22 => 10,
        32 => 2,
        34 => 3,
        35 => 5,
        48 => 4,
        64 => 4,
        67 => 5,
        80 => 7,
        81 => 6,
        96 => 7,
        112 => 7,
        133 => 9,
        148 => 12,
        164 => 11,
        183 => 12,
        _ => 15,
    }
}

fn real_state(t: &[u8]) -> u8
    ensures { result ≡ real_state 0 t.now }
{
    t.iter().fold(0, |q, b| real_next(q, real_class(*b)))
}

#[tactic(auto, unfolding(crate::specs::Items::is_real))]
fn is_real(t: &[u8]) -> bool
    ensures { result ≡ is_real t.now }
{
    whole_real(real_state(t))
}

#[tactic(auto, unfolding(crate::specs::Items::whole_real))]
fn whole_real(q: u8) -> bool
    ensures { result ≡ whole_real q }
{
    matches!(q, 2 | 4 | 7 | 12)
}

// ---- tokens

#[tactic(auto, unfolding(crate::specs::Items::kind_of))]
fn kind_of(b: u8) -> Kind
    ensures { result ≡ kind_of b }
{
    match b {
        b'0' => Kind::Low,
        b'1' | b'x' | b'X' | b'z' | b'Z' => Kind::High,
        b'#' => Kind::Hash,
        b'$' => Kind::Dollar,
        b'b' | b'B' => Kind::Vector,
        b'r' | b'R' => Kind::Real,
        _ => Kind::Other,
    }
}

#[tactic(auto, unfolding(crate::specs::Items::is_dump))]
fn is_dump(t: &[u8]) -> bool
    ensures { result ≡ is_dump t.now }
{
    same(t, b"$dumpvars") || same(t, b"$dumpall") || same(t, b"$dumpon") || same(t, b"$dumpoff")
}

#[tactic(auto, unfolding(crate::specs::Items::keyword_of))]
fn keyword(t: &[u8]) -> Item
    ensures { result ≡ keyword_of t.now }
{
    if vcd_text::is_end(t) {
        return Item::End;
    }
    if same(t, b"$comment") {
        return Item::Comment;
    }
    if is_dump(t) {
        return Item::Dump;
    }
    Item::Bad
}

#[tactic(auto, unfolding(crate::specs::Items::item_as))]
fn vector(t: &[u8]) -> Item
    requires { 0 < length t.now }
    ensures { result ≡ item_as Kind.Vector t.now }
{
    if is_vector(&t[1..]) {
        Item::Value
    } else {
        Item::Bad
    }
}

#[tactic(auto, unfolding(crate::specs::Items::item_as))]
fn real(t: &[u8]) -> Item
    requires { 0 < length t.now }
    ensures { result ≡ item_as Kind.Real t.now }
{
    if is_real(&t[1..]) {
        Item::Value
    } else {
        Item::Bad
    }
}

#[tactic(auto, unfolding(crate::specs::Items::item_as))]
fn time(t: &[u8]) -> Item
    requires { 0 < length t.now }
    ensures { result ≡ item_as Kind.Hash t.now }
{
    Item::Time(vcd_text::decimal(&t[1..]))
}

#[tactic(auto, unfolding(crate::specs::Items::item_as))]
fn item_as(kind: Kind, t: &[u8]) -> Item
    requires { 0 < length t.now }
    ensures { result ≡ item_as kind t.now }
{
    match kind {
        Kind::Low => Item::Scalar(false),
        Kind::High => Item::Scalar(true),
        Kind::Vector => vector(t),
        Kind::Real => real(t),
        Kind::Hash => time(t),
        Kind::Dollar => keyword(t),
        Kind::Other => Item::Bad,
    }
}

// What a token is.
#[tactic(auto, unfolding(crate::specs::Items::item_of))]
pub fn item_of(t: &[u8]) -> Item
    ensures { result ≡ item_of t.now }
{
    match t.first() {
        None => Item::Bad,
        Some(b) => item_as(kind_of(*b), t),
    }
}
