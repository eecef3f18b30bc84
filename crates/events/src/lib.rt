// Event words, and the numbers that refuse a word (document 01, "Event words" and "Numbers given back").
#![tactic(auto)]

ghost use Rattle.std.specs.Prelude.{◌≡◌};
ghost use Rattle.events.specs.Word.{decode as decode_of, encode as encode_of, event as event_of, is_pin, no_event, no_place, bad_byte};
ghost use Rattle.events.specs.Word.{DecodedCase, refusal_number, word_refused_with, refused_word, event_word};

// Pins that a rule names, by their number.
pub const P16: u8 = 14;

pub const SDA: u8 = 24;

pub const SCL: u8 = 25;

pub const HSYNCI: u8 = 26;

pub const VSYNCI: u8 = 27;

pub const RESET: u8 = 28;

// Clocks: that of 8 µs, the base clocks for TBS 0 and 1, that of the watchdog.
pub const PERIOD: u8 = 0;

pub const BASE0: u8 = 1;

pub const BASE1: u8 = 2;

pub const WATCHDOG: u8 = 3;

// Words of common events: the levels of SDA, SCL, HSYNCI and VSYNCI, and the clock of 8 µs.
const SDA_LOW: u32 = 0x0300_1800;

const SDA_HIGH: u32 = 0x0300_1801;

const SCL_LOW: u32 = 0x0300_1900;

const SCL_HIGH: u32 = 0x0300_1901;

const HSYNCI_LOW: u32 = 0x0300_1a00;

const HSYNCI_HIGH: u32 = 0x0300_1a01;

const VSYNCI_LOW: u32 = 0x0300_1b00;

const VSYNCI_HIGH: u32 = 0x0300_1b01;

const PERIOD_CLOCK: u32 = 0x0400_0000;

#[derive(Clone, Copy)]
pub enum Event {
    // a register
    Read(u8),
    // a register and a byte
    Write(u8, u8),
    // a pin and its level
    Pin(u8, bool),
    // a clock
    Clock(u8),
    // vertical or not, and the polarity found
    Polarity(bool, bool),
}

// Why a word is no event.
#[derive(Clone, Copy)]
pub enum Refusal {
    NoEvent,
    NoPlace,
    BadByte,
    // a number that `decode` gives for no word
    Other(u8),
}

impl Refusal {
    // The number that an answer word gives for it.
    pub fn number(self) -> u8
        ensures { result ≡ refusal_number self }
    {
        match self {
            Refusal::NoEvent => 1,
            Refusal::NoPlace => 2,
            Refusal::BadByte => 3,
            Refusal::Other(number) => number,
        }
    }
}

// Pins 0 to 14 and 16 to 28.
fn is_pin(a: u8) -> bool
    ensures { result ≡ is_pin a }
{
    matches!(a, 0..=14 | 16..=28)
}

// Number 1: no kind, or a bit set between the kind and A.
#[tactic(auto, unfolding(crate::specs::Word::no_event))]
fn no_event(word: u32) -> bool
    ensures { result ≡ no_event word }
{
    let [kind, reserved, _, _] = word.to_be_bytes();
    !matches!(kind, 1..=5) || reserved != 0
}

// Number 2: no register, pin, clock or polarity has this A.
#[tactic(auto, unfolding(crate::specs::Word::no_place))]
fn no_place(word: u32) -> bool
    ensures { result ≡ no_place word }
{
    let [kind, _, a, _] = word.to_be_bytes();
    match kind {
        1 | 2 => 0x25 < a,
        3 => !is_pin(a),
        4 => 3 < a,
        _ => 1 < a,
    }
}

// Number 3: the kind does not take this B.
#[tactic(auto, unfolding(crate::specs::Word::bad_byte))]
fn bad_byte(word: u32) -> bool
    ensures { result ≡ bad_byte word }
{
    let [kind, _, _, b] = word.to_be_bytes();
    match kind {
        1 | 4 => 0 < b,
        2 => false,
        _ => 1 < b,
    }
}

// The event of the word's kind, once no number refuses it.
#[tactic(auto, unfolding(crate::specs::Word::event))]
fn by_kind(word: u32) -> Event
    ensures { result ≡ event_of word }
{
    let [kind, _, a, b] = word.to_be_bytes();
    match kind {
        1 => Event::Read(a),
        2 => Event::Write(a, b),
        3 => Event::Pin(a, b == 1),
        4 => Event::Clock(a),
        _ => Event::Polarity(a == 1, b == 1),
    }
}

// The first number that applies refuses the word, else it is an event.
#[tactic(auto, unfolding(crate::specs::Word::decode))]
fn by_fields(word: u32) -> Result<Event, Refusal>
    ensures { result ≡ decode_of word }
{
    if no_event(word) {
        return Err(Refusal::NoEvent);
    }
    if no_place(word) {
        return Err(Refusal::NoPlace);
    }
    if bad_byte(word) {
        return Err(Refusal::BadByte);
    }
    Ok(by_kind(word))
}

// A word's event, or why it is refused. The words of common events are met first, with their event as a constant, so that what
// takes it apart does not test it again.
#[tactic(auto, unfolding(crate::specs::Word::decode, crate::specs::Word::no_event, crate::specs::Word::no_place, crate::specs::Word::bad_byte, crate::specs::Word::event))]
pub fn decode(word: u32) -> Result<Event, Refusal>
    ensures { (result ≡ decode_of word) × DecodedCase word result }
{
    match word {
        SDA_LOW => Ok(Event::Pin(SDA, false)),
        SDA_HIGH => Ok(Event::Pin(SDA, true)),
        SCL_LOW => Ok(Event::Pin(SCL, false)),
        SCL_HIGH => Ok(Event::Pin(SCL, true)),
        HSYNCI_LOW => Ok(Event::Pin(HSYNCI, false)),
        HSYNCI_HIGH => Ok(Event::Pin(HSYNCI, true)),
        VSYNCI_LOW => Ok(Event::Pin(VSYNCI, false)),
        VSYNCI_HIGH => Ok(Event::Pin(VSYNCI, true)),
        PERIOD_CLOCK => Ok(Event::Clock(PERIOD)),
        _ => by_fields(word),
    }
}

// The word with these fields.
fn event_word(kind: u8, a: u8, b: u8) -> u32
    ensures { result ≡ event_word kind a b }
{
    u32::from_be_bytes([kind, 0, a, b])
}

// A word that is refused with this number; of kind 0 for a number with which none is.
fn word_refused_with(number: u8) -> u32
    ensures { result ≡ word_refused_with number }
{
    match number {
        2 => event_word(1, 0x26, 0),
        3 => event_word(1, 0, 1),
        _ => 0,
    }
}

// A word that is refused so.
fn refused_word(refusal: Refusal) -> u32
    ensures { result ≡ refused_word refusal }
{
    word_refused_with(refusal.number())
}

// The word of an event; for a refusal, one of the words that it refuses.
pub fn encode(event: Result<Event, Refusal>) -> u32
    ensures { result ≡ encode_of event }
{
    match event {
        Ok(Event::Read(a)) => event_word(1, a, 0),
        Ok(Event::Write(a, b)) => event_word(2, a, b),
        Ok(Event::Pin(a, level)) => event_word(3, a, u8::from(level)),
        Ok(Event::Clock(a)) => event_word(4, a, 0),
        Ok(Event::Polarity(vertical, level)) => event_word(5, u8::from(vertical), u8::from(level)),
        Err(refusal) => refused_word(refusal),
    }
}
