// The words of a dump's header: keywords, units, types, names and indices.
#![tactic(auto)]

ghost use Rattle.std.specs.Prelude.{◌≡◌, ◌<◌, ◌≤◌};
ghost use Rattle.vcd_keywords.specs.Words.{is_text, keyword_of, count_of, letters_of, times_unit, joined_of, is_scope, is_net, is_discrete, is_real, sort_of, pin_of, index_class, index_by, index_next, index_state};

use vcd_text::same;

// A keyword of the header.
#[derive(Clone, Copy)]
pub enum Keyword {
    Text,
    Timescale,
    Scope,
    Upscope,
    Var,
    Enddefinitions,
    Unknown,
}

// A type of variables.
#[derive(Clone, Copy)]
pub enum Sort {
    Digital,
    Real,
    Neither,
}

// ---- keywords

#[tactic(auto, unfolding(crate::specs::Words::is_text))]
fn is_text(t: &[u8]) -> bool
    ensures { result ≡ is_text t.now }
{
    same(t, b"$comment") || same(t, b"$date") || same(t, b"$version")
}

// The keyword that opens a section.
#[tactic(auto, unfolding(crate::specs::Words::keyword_of))]
pub fn keyword_of(t: &[u8]) -> Keyword
    ensures { result ≡ keyword_of t.now }
{
    if is_text(t) {
        return Keyword::Text;
    }
    if same(t, b"$timescale") {
        return Keyword::Timescale;
    }
    if same(t, b"$scope") {
        return Keyword::Scope;
    }
    if same(t, b"$upscope") {
        return Keyword::Upscope;
    }
    if same(t, b"$var") {
        return Keyword::Var;
    }
    if same(t, b"$enddefinitions") {
        return Keyword::Enddefinitions;
    }
    Keyword::Unknown
}

// ---- units

// The number of a unit; 0 for another word.
#[tactic(auto, unfolding(crate::specs::Words::count_of))]
pub fn count_of(t: &[u8]) -> u64
    ensures { result ≡ count_of t.now }
{
    if same(t, b"1") {
        return 1;
    }
    if same(t, b"10") {
        return 10;
    }
    if same(t, b"100") {
        return 100;
    }
    0
}

// The letters of a unit, in ps; 0 for another word.
#[tactic(auto, unfolding(crate::specs::Words::letters_of))]
pub fn letters_of(t: &[u8]) -> u64
    ensures { (result ≡ letters_of t.now) × (result ≤ 1000000) }
{
    if same(t, b"ps") {
        return 1;
    }
    if same(t, b"ns") {
        return 1000;
    }
    if same(t, b"us") {
        return 1000000;
    }
    0
}

#[tactic(auto, unfolding(crate::specs::Words::times_unit))]
fn times_unit(count: u64, letters: u64) -> u64
    requires { letters ≤ 1000000 }
    ensures { result ≡ times_unit count letters }
{
    if count == 1 {
        return letters;
    }
    if count == 10 {
        return letters * 10;
    }
    if count == 100 {
        return letters * 100;
    }
    0
}

// So many of the unit with these letters, in ps.
pub fn scaled(count: u64, t: &[u8]) -> u64
    ensures { result ≡ times_unit count (letters_of t.now) }
{
    times_unit(count, letters_of(t))
}

// Number and letters in one word; 0 for another word.
#[tactic(auto, unfolding(crate::specs::Words::joined_of))]
pub fn joined_of(t: &[u8]) -> u64
    ensures { result ≡ joined_of t.now }
{
    if t.len() < 3 {
        return 0;
    }
    let (count, letters) = t.split_at(t.len() - 2);
    scaled(count_of(count), letters)
}

// ---- types

#[tactic(auto, unfolding(crate::specs::Words::is_scope))]
pub fn is_scope(t: &[u8]) -> bool
    ensures { result ≡ is_scope t.now }
{
    same(t, b"begin")
        || same(t, b"fork")
        || same(t, b"function")
        || same(t, b"module")
        || same(t, b"task")
}

#[tactic(auto, unfolding(crate::specs::Words::is_net))]
fn is_net(t: &[u8]) -> bool
    ensures { result ≡ is_net t.now }
{
    same(t, b"wire")
        || same(t, b"tri")
        || same(t, b"triand")
        || same(t, b"trior")
        || same(t, b"trireg")
        || same(t, b"tri0")
        || same(t, b"tri1")
        || same(t, b"wand")
        || same(t, b"wor")
        || same(t, b"supply0")
        || same(t, b"supply1")
}

#[tactic(auto, unfolding(crate::specs::Words::is_discrete))]
fn is_discrete(t: &[u8]) -> bool
    ensures { result ≡ is_discrete t.now }
{
    same(t, b"reg")
        || same(t, b"event")
        || same(t, b"integer")
        || same(t, b"parameter")
        || same(t, b"time")
}

#[tactic(auto, unfolding(crate::specs::Words::is_real))]
fn is_real(t: &[u8]) -> bool
    ensures { result ≡ is_real t.now }
{
    same(t, b"real") || same(t, b"realtime")
}

// The sort of a type.
#[tactic(auto, unfolding(crate::specs::Words::sort_of))]
pub fn sort_of(t: &[u8]) -> Sort
    ensures { result ≡ sort_of t.now }
{
    if is_net(t) || is_discrete(t) {
        return Sort::Digital;
    }
    if is_real(t) {
        return Sort::Real;
    }
    Sort::Neither
}

// ---- names and indices

// The pin with this name; 0 for another name.
#[tactic(auto, unfolding(crate::specs::Words::pin_of))]
pub fn pin_of(t: &[u8]) -> u8
    ensures { result ≡ pin_of t.now }
{
    if same(t, b"SDA") {
        return 24;
    }
    if same(t, b"SCL") {
        return 25;
    }
    if same(t, b"HSYNCI") {
        return 26;
    }
    if same(t, b"VSYNCI") {
        return 27;
    }
    0
}

#[tactic(auto, unfolding(crate::specs::Words::index_class))]
fn index_class(b: u8) -> u8
    ensures { result ≡ index_class b }
{
    match b {
        b'0'..=b'9' => 0,
        b'-' => 1,
        b':' => 2,
        b'[' => 3,
        b']' => 4,
        _ => 5,
    }
}

#[tactic(auto, unfolding(crate::specs::Words::index_by))]
fn index_next(q: u32, c: u8) -> u32
    ensures { result ≡ index_next q c }
{
    match u64::from(q) * 8 + u64::from(c) {
        3 => 1,
        8 => 3,
        9 => 2,
        16 => 3,
        24 => 3,
        26 => 4,
        28 => 7,
        32 => 6,
        33 => 5,
        40 => 6,
        48 => 6,
        52 => 7,
        _ => 9,
    }
}

// How far an index is read, from a state on.
pub fn index_state(from: u32, t: &[u8]) -> u32
    ensures { result ≡ index_state from t.now }
{
    t.iter().fold(from, |q, b| index_next(q, index_class(*b)))
}
