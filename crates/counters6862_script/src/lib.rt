// A script for the counters of either chip, run on twelve numbers.
#![tactic(auto)]

ghost use Rattle.std.specs.Prelude.{◌≡◌};
ghost use Rattle.rates.specs.Report.{rate_number};
ghost use Rattle.counters6862_script.specs.Script.{one_more, opened as opened_of, with_reader, next_line, stopped as stopped_of, put_at, called_with, reported as reported_of, obeyed as obeyed_of, within as within_of, found as found_of, next as next_of, positive_bits, rate_bits};

use counters6862_orders::{Found, Order, Reader};
use rates::{NoRate, Rate};

// What a byte of a script brings to print: nothing, the number of a line, that with the report on the field rate, or that the line is
// malformed.
#[derive(Clone, Copy)]
pub enum Event {
    Nothing,
    Answer(u8),
    Report(u8, Result<Rate, NoRate>),
    Malformed,
}

// The twelve numbers, the reader, the number of the line, and whether a malformed line has ended the script.
#[derive(Clone, Copy)]
pub struct Progress {
    pub numbers: [u16; 12],
    pub reader: Reader,
    pub line: u64,
    pub ended: bool,
}

#[derive(Clone, Copy)]
pub struct Step {
    pub progress: Progress,
    pub event: Event,
}

#[tactic(auto, unfolding(crate::specs::Script::one_more))]
fn one_more(n: u64) -> u64
    ensures { result ≡ one_more n }
{
    if n < u64::MAX { n + 1 } else { n }
}

// Before the first byte: twelve zeros, which are no state.
#[tactic(auto, unfolding(crate::specs::Script::opened))]
pub fn opened() -> Progress
    ensures { result ≡ opened_of }
{
    Progress {
        numbers: [0u16; 12],
        reader: counters6862_orders::line_start(),
        line: 1,
        ended: false,
    }
}

fn with_reader(p: Progress, r: Reader) -> Progress
    ensures { result ≡ with_reader p r }
{
    Progress { reader: r, ..p }
}

// The next line, with these numbers.
fn next_line(p: Progress, numbers: [u16; 12]) -> Progress
    ensures { result ≡ next_line p numbers }
{
    Progress {
        numbers,
        reader: counters6862_orders::line_start(),
        line: one_more(p.line),
        ..p
    }
}

fn stopped(p: Progress) -> Step
    ensures { result ≡ stopped_of p }
{
    Step {
        progress: Progress { ended: true, ..p },
        event: Event::Malformed,
    }
}

// The number of a report.
#[tactic(auto, unfolding(rates::specs::Report::rate_number))]
fn rate_number(rate: Result<Rate, NoRate>) -> u8
    ensures { result ≡ rate_number rate }
{
    match rate {
        Err(NoRate::IllFormed) => 8,
        _ => 0,
    }
}

fn called(p: Progress, code: u32, value: u32) -> Step
    ensures { result ≡ called_with p code value }
{
    match numbers6862::call(p.numbers, code, value) {
        Ok(after) => Step {
            progress: next_line(p, after),
            event: Event::Answer(0),
        },
        Err(why) => Step {
            progress: next_line(p, p.numbers),
            event: Event::Answer(why.number()),
        },
    }
}

fn reported(p: Progress) -> Step
    ensures { result ≡ reported_of p }
{
    let rate = numbers6862::field(p.numbers);
    Step {
        progress: next_line(p, p.numbers),
        event: Event::Report(rate_number(rate), rate),
    }
}

// A number put in its place. An order's place is below twelve and its number has 16 bits, so that the remainders change neither.
fn put_at(p: Progress, place: u32, value: u32) -> Step
    ensures { result ≡ put_at p place value }
{
    let mut numbers = p.numbers;
    let i = (place % 12) as usize;
    numbers[i] = (value % 65536) as u16;
    Step {
        progress: next_line(p, numbers),
        event: Event::Answer(0),
    }
}

#[tactic(auto, unfolding(crate::specs::Script::obeyed))]
fn obeyed(order: Option<Order>, p: Progress) -> Step
    ensures { result ≡ obeyed_of order p }
{
    match order {
        Some(Order::Call(code, value)) => called(p, code, value),
        Some(Order::Field) => reported(p),
        Some(Order::Put(place, value)) => put_at(p, place, value),
        None => stopped(p),
    }
}

// A byte within a line, or the end of one that is passed over.
#[tactic(auto, unfolding(crate::specs::Script::within))]
fn within(p: Progress, b: u8, r: Reader) -> Step
    ensures { result ≡ within_of p b r }
{
    if b == b'\n' {
        Step {
            progress: next_line(p, p.numbers),
            event: Event::Nothing,
        }
    } else {
        Step {
            progress: with_reader(p, r),
            event: Event::Nothing,
        }
    }
}

#[tactic(auto, unfolding(crate::specs::Script::found))]
fn found(f: Option<Found>, p: Progress, b: u8) -> Step
    ensures { result ≡ found_of f p b }
{
    match f {
        Some(Found::Within(r)) => within(p, b, r),
        Some(Found::Ended(line)) => obeyed(counters6862_orders::order_of(line), p),
        None => stopped(p),
    }
}

// A byte of the script. After a malformed line nothing is read.
#[tactic(auto, unfolding(crate::specs::Script::next))]
pub fn next(p: Progress, b: u8) -> Step
    ensures { result ≡ next_of p b }
{
    if p.ended {
        Step {
            progress: p,
            event: Event::Nothing,
        }
    } else {
        found(counters6862_orders::next(p.reader, b), p, b)
    }
}

// The 64 bits of a rate above 0; else 0.
fn positive_bits(x: f64) -> u64
    ensures { result ≡ positive_bits x }
{
    if 0.0 < x { f64::to_bits(x) } else { 0 }
}

// The 64 bits of the rate that a report tells, or 0 where it tells none.
#[tactic(auto, unfolding(crate::specs::Script::rate_bits))]
pub fn rate_bits(rate: Result<Rate, NoRate>) -> u64
    ensures { result ≡ rate_bits rate }
{
    match rate {
        Ok(told) => positive_bits(told.hertz()),
        Err(_) => 0,
    }
}
