// The sync counters of the NT6861 and of the NT6862 as a unit: state, calls, numbers.
#![tactic(auto)]

ghost use Rattle.std.specs.Prelude.{◌≡◌};
ghost use Rattle.sync6862.specs.Unit.{periods_last, interval_last, per_field, differs as differs_of, restarts as restarts_of, step_periods_to, interval_next_to, lines_on_period_to, on_period_to, well_to, well_formed, release_lines, clear_lines_of, restarted_if, on_hsync_if, on_vsync_if, with_sync, hsync_moved, vsync_moved, clocked as clocked_of, hsel_set, enhsel_set, cleared_h, cleared_v, refusal_number, on_enhsel, answered as answered_of, answer as answer_of, fresh_as, fresh as fresh_of, latches as latches_of};

use sync::{LatchedLines, LatchedPeriods, LineCounter, PeriodCounter, Periods, Sync};

// The chip that the counters are of. ENHSEL stands with the NT6862, which alone has it.
#[derive(Clone, Copy)]
pub enum Part {
    Nt6861,
    Nt6862(bool),
}

// Levels, bit HSEL, and both counters with the interval.
#[derive(Clone, Copy)]
pub struct Counters {
    pub part: Part,
    pub hsynci: bool,
    pub vsynci: bool,
    pub hsel: bool,
    pub sync: Sync,
}

// What a state is offered for. A level or a bit comes with its new value.
#[derive(Clone, Copy)]
pub enum Call {
    Hsynci(bool),
    Vsynci(bool),
    Clock,
    Enhsel(bool),
    Hsel(bool),
    ClearH,
    ClearV,
}

// Why a call, a fresh state or the latches are refused. The unit itself refuses an ENHSEL that the chip has not, an ill formed state
// and a chip that there is not; calls by number come with the others too.
#[derive(Clone, Copy, Debug, PartialEq, Eq)]
pub enum Refusal {
    NoSuchCall,
    NoEnhsel,
    OutOfRange,
    IllFormed,
    NoSuchChip,
}

impl Refusal {
    // The number that it is told with.
    #[tactic(auto, unfolding(crate::specs::Unit::refusal_number))]
    pub fn number(self) -> u8
        ensures { result ≡ refusal_number self }
    {
        match self {
            Refusal::NoSuchCall => 1,
            Refusal::NoEnhsel => 2,
            Refusal::OutOfRange => 3,
            Refusal::IllFormed => 8,
            Refusal::NoSuchChip => 23,
        }
    }
}

// Both latches and both overflow bits.
#[derive(Clone, Copy)]
pub struct LatchReport {
    pub lines: LatchedLines,
    pub lines_overflow: bool,
    pub periods: LatchedPeriods,
    pub periods_overflow: bool,
}

// The last value of VCNT: 12 bits, or 14.
#[tactic(auto, unfolding(crate::specs::Unit::periods_last))]
fn periods_last(part: Part) -> u16
    ensures { result ≡ periods_last part }
{
    match part {
        Part::Nt6861 => 4095,
        Part::Nt6862(_) => 16383,
    }
}

// The last value of the interval.
#[tactic(auto, unfolding(crate::specs::Unit::interval_last))]
fn interval_last(part: Part, hsel: bool) -> u16
    ensures { result ≡ interval_last part hsel }
{
    match part {
        Part::Nt6861 => 1023,
        Part::Nt6862(_) => { if hsel { 4095 } else { 2047 } }
    }
}

// HCNT is latched by VSYNCI, and not by the interval.
#[tactic(auto, unfolding(crate::specs::Unit::per_field))]
fn per_field(part: Part, hsel: bool) -> bool
    ensures { result ≡ per_field part hsel }
{
    match part {
        Part::Nt6861 => hsel,
        Part::Nt6862(enhsel) => enhsel,
    }
}

fn differs(old: bool, new: bool) -> bool
    ensures { result ≡ differs_of old new }
{
    old != new
}

// HSEL put from one value to another starts HCNT and the interval anew.
#[tactic(auto, unfolding(crate::specs::Unit::restarts))]
fn restarts(part: Part, old: bool, new: bool) -> bool
    ensures { result ≡ restarts_of part old new }
{
    match part {
        Part::Nt6861 => old & !new,
        Part::Nt6862(_) => differs(old, new),
    }
}

// VCNT steps.
#[tactic(auto, unfolding(crate::specs::Unit::step_periods_to))]
fn step_periods(last: u16, c: PeriodCounter) -> PeriodCounter
    ensures { result ≡ step_periods_to last c }
{
    PeriodCounter {
        count: Periods(counters::counted(last, c.overflow, c.count.0)),
        overflow: counters::overflowed(last, c.overflow, c.count.0),
        ..c
    }
}

// The interval after an 8 µs clock.
#[tactic(auto, unfolding(crate::specs::Unit::interval_next_to))]
fn interval_next(field: bool, last: u16, n: u16) -> u16
    ensures { result ≡ interval_next_to field last n }
{
    if field {
        n
    } else {
        counters::cycle_next(last, n)
    }
}

// HCNT at an 8 µs clock.
#[tactic(auto, unfolding(crate::specs::Unit::lines_on_period_to))]
fn lines_on_period(field: bool, last: u16, n: u16, c: LineCounter) -> LineCounter
    ensures { result ≡ lines_on_period_to field last n c }
{
    if field {
        return c;
    }
    if n < last { c } else { sync::latch_lines(c) }
}

// An 8 µs clock.
#[tactic(auto, unfolding(crate::specs::Unit::on_period_to))]
fn on_period(field: bool, periods: u16, interval: u16, s: Sync) -> Sync
    ensures { result ≡ on_period_to field periods interval s }
{
    Sync {
        lines: lines_on_period(field, interval, s.interval, s.lines),
        periods: step_periods(periods, s.periods),
        interval: interval_next(field, interval, s.interval),
    }
}

// Counts, latches and interval are within their last values.
#[tactic(auto, unfolding(crate::specs::Unit::well_to))]
fn well(periods: u16, interval: u16, s: Sync) -> bool
    ensures { result ≡ well_to periods interval s }
{
    (s.lines.count.0 < 4096)
        & (s.lines.latch.0 < 4096)
        & (s.periods.count.0 <= periods)
        & (s.periods.latch.0 <= periods)
        & (s.interval <= interval)
}

// The state's numbers are in their chip's ranges.
#[tactic(auto, unfolding(crate::specs::Unit::well_formed))]
pub fn well_formed(s: Counters) -> bool
    ensures { result ≡ well_formed s }
{
    well(periods_last(s.part), interval_last(s.part, s.hsel), s.sync)
}

// The NT6862's clearing of HCNTOV: the bit alone.
fn release_lines(c: LineCounter) -> LineCounter
    ensures { result ≡ release_lines c }
{
    LineCounter {
        overflow: false,
        ..c
    }
}

// HCNTOV is cleared.
#[tactic(auto, unfolding(crate::specs::Unit::clear_lines_of))]
fn clear_lines(part: Part, c: LineCounter) -> LineCounter
    ensures { result ≡ clear_lines_of part c }
{
    match part {
        Part::Nt6861 => sync::clear_lines(true, c),
        Part::Nt6862(_) => release_lines(c),
    }
}

// HCNT and the interval start anew where a bit that chooses has changed.
fn restarted(changed: bool, s: Sync) -> Sync
    ensures { result ≡ restarted_if changed s }
{
    if changed { sync::hsel_cleared(s) } else { s }
}

// HCNT steps where HSYNCI has risen.
fn on_hsync(rise: bool, s: Sync) -> Sync
    ensures { result ≡ on_hsync_if rise s }
{
    if rise { sync::on_hsync(s) } else { s }
}

// Latching where VSYNCI has risen.
fn on_vsync(rise: bool, field: bool, s: Sync) -> Sync
    ensures { result ≡ on_vsync_if rise field s }
{
    if rise { sync::on_vsync(field, s) } else { s }
}

fn with_sync(s: Counters, counts: Sync) -> Counters
    ensures { result ≡ with_sync s counts }
{
    Counters { sync: counts, ..s }
}

#[tactic(auto, unfolding(crate::specs::Unit::hsync_moved))]
fn hsync_moved(s: Counters, level: bool) -> Counters
    ensures { result ≡ hsync_moved s level }
{
    Counters {
        hsynci: level,
        sync: on_hsync(level & !s.hsynci, s.sync),
        ..s
    }
}

#[tactic(auto, unfolding(crate::specs::Unit::vsync_moved))]
fn vsync_moved(s: Counters, level: bool) -> Counters
    ensures { result ≡ vsync_moved s level }
{
    Counters {
        vsynci: level,
        sync: on_vsync(level & !s.vsynci, per_field(s.part, s.hsel), s.sync),
        ..s
    }
}

#[tactic(auto, unfolding(crate::specs::Unit::clocked))]
fn clocked(s: Counters) -> Counters
    ensures { result ≡ clocked_of s }
{
    let field = per_field(s.part, s.hsel);
    let periods = periods_last(s.part);
    let interval = interval_last(s.part, s.hsel);
    with_sync(s, on_period(field, periods, interval, s.sync))
}

#[tactic(auto, unfolding(crate::specs::Unit::hsel_set))]
fn hsel_set(s: Counters, new: bool) -> Counters
    ensures { result ≡ hsel_set s new }
{
    let changed = restarts(s.part, s.hsel, new);
    Counters {
        hsel: new,
        sync: restarted(changed, s.sync),
        ..s
    }
}

#[tactic(auto, unfolding(crate::specs::Unit::enhsel_set))]
fn enhsel_set(s: Counters, old: bool, new: bool) -> Counters
    ensures { result ≡ enhsel_set s old new }
{
    Counters {
        part: Part::Nt6862(new),
        sync: restarted(differs(old, new), s.sync),
        ..s
    }
}

#[tactic(auto, unfolding(crate::specs::Unit::cleared_h))]
fn cleared_h(s: Counters) -> Counters
    ensures { result ≡ cleared_h s }
{
    let counts = Sync {
        lines: clear_lines(s.part, s.sync.lines),
        ..s.sync
    };
    with_sync(s, counts)
}

#[tactic(auto, unfolding(crate::specs::Unit::cleared_v))]
fn cleared_v(s: Counters) -> Counters
    ensures { result ≡ cleared_v s }
{
    with_sync(s, sync::clear_overflow(false, true, s.sync))
}

// ENHSEL, which the NT6861 has not.
#[tactic(auto, unfolding(crate::specs::Unit::on_enhsel))]
fn on_enhsel(part: Part, s: Counters, new: bool) -> Result<Counters, Refusal>
    ensures { result ≡ on_enhsel part s new }
{
    match part {
        Part::Nt6861 => Err(Refusal::NoEnhsel),
        Part::Nt6862(old) => Ok(enhsel_set(s, old, new)),
    }
}

// A call on a well formed state.
#[tactic(auto, unfolding(crate::specs::Unit::answered))]
fn answered(s: Counters, call: Call) -> Result<Counters, Refusal>
    ensures { result ≡ answered_of s call }
{
    match call {
        Call::Hsynci(level) => Ok(hsync_moved(s, level)),
        Call::Vsynci(level) => Ok(vsync_moved(s, level)),
        Call::Clock => Ok(clocked(s)),
        Call::Enhsel(new) => on_enhsel(s.part, s, new),
        Call::Hsel(new) => Ok(hsel_set(s, new)),
        Call::ClearH => Ok(cleared_h(s)),
        Call::ClearV => Ok(cleared_v(s)),
    }
}

// A call, and the state after it. An ill formed state is refused before all else.
#[tactic(auto, unfolding(crate::specs::Unit::answer))]
pub fn answer(s: Counters, call: Call) -> Result<Counters, Refusal>
    ensures { result ≡ answer_of s call }
{
    if well_formed(s) {
        answered(s, call)
    } else {
        Err(Refusal::IllFormed)
    }
}

#[tactic(auto, unfolding(crate::specs::Unit::fresh_as))]
fn fresh_as(part: Part) -> Counters
    ensures { result ≡ fresh_as part }
{
    Counters {
        part,
        hsynci: true,
        vsynci: true,
        hsel: true,
        sync: sync::zero_sync(),
    }
}

// A fresh state for the chip of this number.
#[tactic(auto, unfolding(crate::specs::Unit::fresh))]
pub fn fresh(number: u32) -> Result<Counters, Refusal>
    ensures { result ≡ fresh_of number }
{
    match number {
        6861 => Ok(fresh_as(Part::Nt6861)),
        6862 => Ok(fresh_as(Part::Nt6862(true))),
        _ => Err(Refusal::NoSuchChip),
    }
}

// The latches with the overflow bits.
#[tactic(auto, unfolding(crate::specs::Unit::latches))]
pub fn latches(s: Counters) -> Result<LatchReport, Refusal>
    ensures { result ≡ latches_of s }
{
    if !well_formed(s) {
        return Err(Refusal::IllFormed);
    }
    Ok(LatchReport {
        lines: s.sync.lines.latch,
        lines_overflow: s.sync.lines.overflow,
        periods: s.sync.periods.latch,
        periods_overflow: s.sync.periods.overflow,
    })
}
