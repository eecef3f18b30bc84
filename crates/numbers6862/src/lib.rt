// The counters of either chip as twelve numbers, and calls by number on them.
#![tactic(auto)]

ghost use Rattle.std.specs.Prelude.{◌≡◌};
ghost use Rattle.sync6862.specs.Unit.{chip_number};
ghost use Rattle.sync6862_laws.specs.Counting.{run, clocks as clocks_of};
ghost use Rattle.numbers6862.specs.Numbers.{enhsel_number, numbers_of, bits_fit, part_of, state_of, offered_as, read as read_of, with_bit, alone as alone_of, enhsel_asked, asked as asked_of, given as given_of, given_as, after as after_of, call as call_of, field as field_of};

use rates::{NoRate, Rate};
use sync::{LatchedLines, LatchedPeriods, LineCounter, Lines, PeriodCounter, Periods, Sync};
use sync6862::{Call, Counters, Part, Refusal};

// What a call and its value ask for: a call of the unit, or that many clocks.
#[derive(Clone, Copy)]
pub enum Asked {
    Do(Call),
    Clocks(u32),
}

#[tactic(auto, unfolding(sync6862::specs::Unit::chip_number))]
fn chip_number(part: Part) -> u16
    ensures { result ≡ chip_number part }
{
    match part {
        Part::Nt6861 => 6861,
        Part::Nt6862(_) => 6862,
    }
}

#[tactic(auto, unfolding(crate::specs::Numbers::enhsel_number))]
fn enhsel_number(part: Part) -> u16
    ensures { result ≡ enhsel_number part }
{
    match part {
        Part::Nt6861 => 0,
        Part::Nt6862(enhsel) => u16::from(enhsel),
    }
}

// A state as twelve numbers.
#[tactic(auto, unfolding(crate::specs::Numbers::numbers_of))]
pub fn written(s: Counters) -> [u16; 12]
    ensures { result ≡ numbers_of s }
{
    [
        chip_number(s.part),
        u16::from(s.hsynci),
        u16::from(s.vsynci),
        s.sync.lines.count.0,
        u16::from(s.sync.lines.overflow),
        s.sync.periods.count.0,
        u16::from(s.sync.periods.overflow),
        s.sync.lines.latch.0,
        s.sync.periods.latch.0,
        s.sync.interval,
        u16::from(s.hsel),
        enhsel_number(s.part),
    ]
}

// The numbers of levels and bits are 0 or 1.
#[tactic(auto, unfolding(crate::specs::Numbers::bits_fit))]
fn bits_fit(n: [u16; 12]) -> bool
    ensures { result ≡ bits_fit n }
{
    (n[1] < 2) & (n[2] < 2) & (n[4] < 2) & (n[6] < 2) & (n[10] < 2)
}

// The chip that the first and the last number name, if they name one.
#[tactic(auto, unfolding(crate::specs::Numbers::part_of))]
fn part_of(chip: u16, enhsel: u16) -> Option<Part>
    ensures { result ≡ part_of chip enhsel }
{
    match chip {
        6861 if enhsel == 0 => Some(Part::Nt6861),
        6862 if enhsel < 2 => Some(Part::Nt6862(enhsel == 1)),
        _ => None,
    }
}

#[tactic(auto, unfolding(crate::specs::Numbers::state_of))]
fn state_of(part: Part, n: [u16; 12]) -> Counters
    ensures { result ≡ state_of part n }
{
    Counters {
        part,
        hsynci: n[1] == 1,
        vsynci: n[2] == 1,
        hsel: n[10] == 1,
        sync: Sync {
            lines: LineCounter {
                count: Lines(n[3]),
                latch: LatchedLines(n[7]),
                overflow: n[4] == 1,
            },
            periods: PeriodCounter {
                count: Periods(n[5]),
                latch: LatchedPeriods(n[8]),
                overflow: n[6] == 1,
            },
            interval: n[9],
        },
    }
}

#[tactic(auto, unfolding(crate::specs::Numbers::offered_as))]
fn offered_as(s: Counters) -> Option<Counters>
    ensures { result ≡ offered_as s }
{
    if sync6862::well_formed(s) {
        Some(s)
    } else {
        None
    }
}

// The well formed state that the numbers are, if they are one.
#[tactic(auto, unfolding(crate::specs::Numbers::read, crate::specs::Numbers::read_as))]
pub fn read(n: [u16; 12]) -> Option<Counters>
    ensures { result ≡ read_of n }
{
    if !bits_fit(n) {
        return None;
    }
    match part_of(n[0], n[11]) {
        Some(part) => offered_as(state_of(part, n)),
        None => None,
    }
}

// A call whose value is a level or a bit.
#[tactic(auto, unfolding(crate::specs::Numbers::with_bit))]
fn with_bit(value: u32, call: Call) -> Result<Asked, Refusal>
    ensures { result ≡ with_bit value call }
{
    if value < 2 {
        Ok(Asked::Do(call))
    } else {
        Err(Refusal::OutOfRange)
    }
}

// A call whose value is 0.
#[tactic(auto, unfolding(crate::specs::Numbers::alone))]
fn alone(value: u32, call: Call) -> Result<Asked, Refusal>
    ensures { result ≡ alone_of value call }
{
    if value == 0 {
        Ok(Asked::Do(call))
    } else {
        Err(Refusal::OutOfRange)
    }
}

// ENHSEL: the NT6861 refuses it whatever its value.
#[tactic(auto, unfolding(crate::specs::Numbers::enhsel_asked))]
fn enhsel_asked(part: Part, value: u32) -> Result<Asked, Refusal>
    ensures { result ≡ enhsel_asked part value }
{
    match part {
        Part::Nt6861 => Ok(Asked::Do(Call::Enhsel(value == 1))),
        Part::Nt6862(_) => with_bit(value, Call::Enhsel(value == 1)),
    }
}

// What a call by number asks for. No `TryFrom`: the number alone is no call, its value and the chip decide too.
#[tactic(auto, unfolding(crate::specs::Numbers::asked))]
fn asked_for(part: Part, call: u32, value: u32) -> Result<Asked, Refusal>
    ensures { result ≡ asked_of part call value }
{
    match call {
        1 => with_bit(value, Call::Hsynci(value == 1)),
        2 => with_bit(value, Call::Vsynci(value == 1)),
        3 => Ok(Asked::Clocks(value)),
        4 => enhsel_asked(part, value),
        5 => with_bit(value, Call::Hsel(value == 1)),
        6 => alone(value, Call::ClearH),
        7 => alone(value, Call::ClearV),
        _ => Err(Refusal::NoSuchCall),
    }
}

// So many 8 µs clocks.
fn clocks(n: u32, start: Counters) -> Counters
    ensures { result ≡ run start (clocks_of n) }
{
    let mut s = start;
    for _ in 0..n {
        s = sync6862::answer(s, Call::Clock).unwrap_or(s);
    }
    s
}

#[tactic(auto, unfolding(crate::specs::Numbers::given))]
fn given(wish: Asked, s: Counters) -> Result<Counters, Refusal>
    ensures { result ≡ given_of wish s }
{
    match wish {
        Asked::Do(call) => sync6862::answer(s, call),
        Asked::Clocks(times) => Ok(clocks(times, s)),
    }
}

fn given_to(s: Counters, code: u32, value: u32) -> Result<Counters, Refusal>
    ensures { result ≡ given_as (asked_of s.part code value) s }
{
    let wish = asked_for(s.part, code, value)?;
    given(wish, s)
}

// The state after a call, or why it is refused.
#[tactic(auto, unfolding(crate::specs::Numbers::after, crate::specs::Numbers::given_to))]
fn after(n: [u16; 12], code: u32, value: u32) -> Result<Counters, Refusal>
    ensures { result ≡ after_of n code value }
{
    if code == 0 {
        return sync6862::fresh(value);
    }
    match read(n) {
        Some(s) => given_to(s, code, value),
        None => Err(Refusal::IllFormed),
    }
}

// Call 0 makes a fresh state for the chip of that number; each other call is given to the state that the numbers are. The twelve
// numbers after it, or why it is refused: then they stay.
#[tactic(auto, unfolding(crate::specs::Numbers::call, crate::specs::Numbers::written_as))]
pub fn call(n: [u16; 12], code: u32, value: u32) -> Result<[u16; 12], Refusal>
    ensures { result ≡ call_of n code value }
{
    match after(n, code, value) {
        Ok(s) => Ok(written(s)),
        Err(why) => Err(why),
    }
}

// The report on the field rate of the state that the numbers are.
#[tactic(auto, unfolding(crate::specs::Numbers::field, crate::specs::Numbers::field_offered))]
pub fn field(n: [u16; 12]) -> Result<Rate, NoRate>
    ensures { result ≡ field_of n }
{
    match read(n) {
        Some(s) => rates6862::field_rate(s),
        None => Err(NoRate::IllFormed),
    }
}
