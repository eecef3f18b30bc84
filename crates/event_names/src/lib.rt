// The names of kinds, registers, pins, clocks and polarities in lines of text, and hex digits, each as one number: its bytes in base
// 256, the first one highest, letters in upper case.
#![tactic(auto)]

ghost use Rattle.std.specs.Prelude.{◌≡◌, ◌==◌, ◌≤◌, ◌<◌, position};
ghost use Rattle.hex_digits.specs.Hex.{hex_digit};
ghost use Rattle.event_names.specs.Digits.{below, digit_of, joined as joined_of, hex as hex_of, unhex as unhex_of};
ghost use Rattle.event_names.specs.Names.{number_of, kind_with, names, kind_of, named, name_in, unnamed as unnamed_of, field_of, token_of, clocks, lower, kind_shown, shown_of};

// Numbers, and no byte strings: a token is read byte by byte into one number, and a constant cannot be computed from its bytes.
const READ: u64 = 0x52454144;

const READ_SHOWN: u64 = 0x72656164;

const WRITE: u64 = 0x5752495445;

const WRITE_SHOWN: u64 = 0x7772697465;

const PIN: u64 = 0x50494E;

const PIN_SHOWN: u64 = 0x70696E;

const CLOCK: u64 = 0x434C4F434B;

const CLOCK_SHOWN: u64 = 0x636C6F636B;

const POLARITY: u64 = 0x504F4C4152495459;

const POLARITY_SHOWN: u64 = 0x706F6C6172697479;

const WORD: u64 = 0x574F5244;

const WORD_SHOWN: u64 = 0x776F7264;

// ---- kinds

// What happens in an event.
#[derive(Clone, Copy)]
pub enum Kind {
    Read,
    Write,
    Pin,
    Clock,
    Polarity,
}

impl Kind {
    // The number of the kind in a word.
    #[tactic(auto, unfolding(crate::specs::Names::number_of))]
    pub fn number(self) -> u8
        ensures { result ≡ number_of self }
    {
        match self {
            Kind::Read => 1,
            Kind::Write => 2,
            Kind::Pin => 3,
            Kind::Clock => 4,
            Kind::Polarity => 5,
        }
    }

    // The kind with this number in a word.
    #[tactic(auto, unfolding(crate::specs::Names::kind_with))]
    pub fn with_number(number: u8) -> Option<Kind>
        ensures { result ≡ kind_with number }
    {
        match number {
            1 => Some(Kind::Read),
            2 => Some(Kind::Write),
            3 => Some(Kind::Pin),
            4 => Some(Kind::Clock),
            5 => Some(Kind::Polarity),
            _ => None,
        }
    }
}

// The first token of a line: a kind, or `word`.
#[derive(Clone, Copy)]
pub enum Keyword {
    Event(Kind),
    Word,
}

// The keyword with this name.
#[tactic(auto, unfolding(crate::specs::Names::kind_of))]
pub fn kind_of(v: u64) -> Option<Keyword>
    ensures { result ≡ kind_of v }
{
    match v {
        READ => Some(Keyword::Event(Kind::Read)),
        WRITE => Some(Keyword::Event(Kind::Write)),
        PIN => Some(Keyword::Event(Kind::Pin)),
        CLOCK => Some(Keyword::Event(Kind::Clock)),
        POLARITY => Some(Keyword::Event(Kind::Polarity)),
        WORD => Some(Keyword::Word),
        _ => None,
    }
}

// The name of a keyword as it is written, in lower case.
#[tactic(auto, unfolding(crate::specs::Names::kind_name, crate::specs::Names::lower, crate::specs::Names::lowered))]
pub fn kind_shown(keyword: Keyword) -> u64
    ensures { result ≡ kind_shown keyword }
{
    match keyword {
        Keyword::Event(Kind::Read) => READ_SHOWN,
        Keyword::Event(Kind::Write) => WRITE_SHOWN,
        Keyword::Event(Kind::Pin) => PIN_SHOWN,
        Keyword::Event(Kind::Clock) => CLOCK_SHOWN,
        Keyword::Event(Kind::Polarity) => POLARITY_SHOWN,
        Keyword::Word => WORD_SHOWN,
    }
}

// ---- hex digits

#[tactic(auto, unfolding(crate::specs::Digits::digit_of))]
fn digit_of(c: u8) -> Option<u32>
    ensures { result ≡ below 16 (digit_of c) }
{
    match c {
        b'0'..=b'9' => Some(u32::from(c) - 48),
        b'A'..=b'F' => Some(u32::from(c) - 55),
        _ => None,
    }
}

// A number with one digit more, where it has eight digits at most.
#[tactic(auto, unfolding(crate::specs::Digits::joined))]
fn joined(high: u32, low: u32) -> Option<u32>
    requires { low < 16 }
    ensures { result ≡ below 4294967296 (joined_of high low) }
{
    Some(high.checked_mul(16)? + low)
}

// The number of a token of n hex digits.
pub fn unhex(n: u32, t: u64) -> Option<u32>
    ensures { result ≡ below 4294967296 (unhex_of n t) }
{
    if n == 0 {
        return if t == 0 { Some(0) } else { None };
    }
    joined(unhex(n - 1, t / 256)?, digit_of((t % 256) as u8)?)
}

fn hex_digit(d: u64) -> u64
    requires { d < 16 }
    ensures { result ≡ hex_digit d }
{
    if d < 10 { 48 + d } else { 55 + d }
}

// The last n hex digits of a number as a token.
fn hex(n: u32, w: u64) -> u64
    requires { n ≤ 8 }
    ensures { result ≡ hex_of n w }
{
    if n == 0 {
        return 0;
    }
    hex(n - 1, w / 16) * 256 + hex_digit(w % 16)
}

// Eight digits of a word.
pub fn word_token(w: u32) -> u64
    ensures { result ≡ hex_of 8 w }
{
    hex(8, u64::from(w))
}

// Two digits of a byte.
pub fn byte_token(b: u8) -> u64
    ensures { result ≡ hex_of 2 b }
{
    hex(2, u64::from(b))
}

// The last digit of a byte.
pub fn digit_token(d: u8) -> u64
    ensures { result ≡ hex_of 1 d }
{
    hex(1, u64::from(d))
}

// ---- the names of a field A, each at its number

const REGISTERS: [u64; 38] = [
    0x505430, // PT0
    0x505431, // PT1
    0x505432444952, // PT2DIR
    0x505432, // PT2
    0x505433, // PT3
    0x4D44434F4E, // MDCON
    0x4856434F4E, // HVCON
    0x48434E544C, // HCNTL
    0x48434E5448, // HCNTH
    0x56434E544C, // VCNTL
    0x56434E5448, // VCNTH
    0x53594E434F4E, // SYNCON
    0x454E444143, // ENDAC
    0x414430, // AD0
    0x414431, // AD1
    0x494558, // IEX
    0x49525158, // IRQX
    0x434C52464C47, // CLRFLG
    0x434C52574454, // CLRWDT
    0x4949414452, // IIADR
    0x4949444154, // IIDAT
    0x4949535453, // IISTS
    0x4254, // BT
    0x4254434F4E, // BTCON
    0x4441434830, // DACH0
    0x4441434831, // DACH1
    0x4441434832, // DACH2
    0x4441434833, // DACH3
    0x4441434834, // DACH4
    0x4441434835, // DACH5
    0x4441434836, // DACH6
    0x4441434837, // DACH7
    0x4441434838, // DACH8
    0x4441434839, // DACH9
    0x444143483130, // DACH10
    0x444143483131, // DACH11
    0x444143483132, // DACH12
    0x444143483133, // DACH13
];

const PINS: [u64; 29] = [
    0x503030, // P00
    0x503031, // P01
    0x503032, // P02
    0x503033, // P03
    0x503034, // P04
    0x503035, // P05
    0x503036, // P06
    0x503037, // P07
    0x503130, // P10
    0x503131, // P11
    0x503132, // P12
    0x503133, // P13
    0x503134, // P14
    0x503135, // P15
    0x503136, // P16
    0, // there is no pin 15
    0x503230, // P20
    0x503231, // P21
    0x503232, // P22
    0x503233, // P23
    0x503234, // P24
    0x503235, // P25
    0x503236, // P26
    0x503237, // P27
    0x534441, // SDA
    0x53434C, // SCL
    0x4853594E4349, // HSYNCI
    0x5653594E4349, // VSYNCI
    0x5245534554, // RESET
];

const CLOCKS: [u64; 4] = [
    0x385553, // 8US
    0x4241534530, // BASE0
    0x4241534531, // BASE1
    0x5741544348444F47, // WATCHDOG
];

const POLARITIES: [u64; 2] = [
    0x48, // H
    0x56, // V
];

// The names in a line of this kind; 0, the token of no bytes, where a number has none: so the tables of the definitions have it.
#[tactic(auto, unfolding(crate::specs::Names::names, crate::specs::Names::registers, crate::specs::Names::pins, crate::specs::Names::clocks, crate::specs::Names::polarities))]
fn names_of(kind: Kind) -> &'static [u64]
    ensures { result.now ≡ names kind }
{
    match kind {
        Kind::Read => &REGISTERS,
        Kind::Write => &REGISTERS,
        Kind::Pin => &PINS,
        Kind::Clock => &CLOCKS,
        Kind::Polarity => &POLARITIES,
    }
}

// The name of a number in a line of this kind; 0 where it has none.
fn name_of(kind: Kind, a: u8) -> u64
    ensures { result ≡ name_in (names kind) a }
{
    match names_of(kind).get(usize::from(a)) {
        Some(name) => *name,
        None => 0,
    }
}

// The place of a name in a table.
fn place_of(table: &[u64], v: u64) -> Option<usize>
    ensures { result ≡ position (λ n. v == n) table.now }
{
    table.iter().position(|n| v == *n)
}

// The number with this name in a line of this kind.
fn named_of(kind: Kind, v: u64) -> Option<u8>
    ensures { result ≡ below 256 (named (names kind) v) }
{
    if v == 0 {
        return None;
    }
    u8::try_from(place_of(names_of(kind), v)?).ok()
}

// ---- a field A as a token, and back

// A number given by its digits has no name.
#[tactic(auto, unfolding(crate::specs::Names::unnamed))]
fn unnamed(kind: Kind, a: u8) -> Option<u8>
    ensures { result ≡ below 256 (unnamed_of (names kind) a) }
{
    if name_of(kind, a) == 0 { Some(a) } else { None }
}

// The field A of a token in a line of this kind: a name, or two digits of a number without one.
pub fn field_of(kind: Kind, v: u64) -> Option<u8>
    ensures { result ≡ below 256 (field_of kind v) }
{
    match named_of(kind, v) {
        Some(a) => Some(a),
        None => unnamed(kind, u8::try_from(unhex(2, v)?).ok()?),
    }
}

// The token of a field A in a line of this kind: its name, or two digits where it has none.
#[tactic(auto, unfolding(crate::specs::Names::token_in))]
fn token_of(kind: Kind, a: u8) -> u64
    ensures { result ≡ token_of kind a }
{
    let name = name_of(kind, a);
    if name == 0 {
        return byte_token(a);
    }
    name
}

#[tactic(auto, using(crate::proofs::Names::last_clock), unfolding(crate::specs::Names::clocks, crate::specs::Names::lower, crate::specs::Names::lowered))]
fn clock_shown(a: u8) -> u64
    requires { a < 4 }
    ensures { result ≡ lower 8 (name_in clocks a) }
{
    match a {
        0 => 0x387573,
        1 => 0x6261736530,
        2 => 0x6261736531,
        _ => 0x7761746368646F67,
    }
}

// The same as it is written: names of clocks in lower case.
#[tactic(auto, unfolding(crate::specs::Names::shown_of))]
pub fn shown_of(kind: Kind, a: u8) -> u64
    ensures { result ≡ shown_of kind a }
{
    match kind {
        Kind::Clock if a < 4 => clock_shown(a),
        _ => token_of(kind, a),
    }
}
