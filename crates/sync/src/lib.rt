// Sync counters HCNT and VCNT with their latches and overflow bits, and the interval.
#![tactic(auto)]

ghost use Rattle.std.specs.Prelude.{◌≡◌};
ghost use Rattle.sync.specs.Sync.{step_lines, latch_lines, clear_lines, zero_lines, step_periods, latch_periods, clear_periods, on_hsync, lines_on_vsync, on_vsync, interval_next, lines_on_period, on_period, hsel_cleared, clear_overflow, zero_sync, well_sync};

// Lines counted. Counts and latches are four types, so that one put for another is refused.
#[derive(Clone, Copy)]
pub struct Lines(pub u16);

// Periods of 8 µs counted.
#[derive(Clone, Copy)]
pub struct Periods(pub u16);

// The lines that HCNT's latch holds.
#[derive(Clone, Copy)]
pub struct LatchedLines(pub u16);

// The periods of 8 µs that VCNT's latch holds.
#[derive(Clone, Copy)]
pub struct LatchedPeriods(pub u16);

// HCNT, its latch, and HCNTOV, which stands between the two so that the compiler does not join them in one number of 32 bits, to be
// taken apart again at each event.
#[derive(Clone, Copy)]
pub struct LineCounter {
    pub count: Lines,
    pub overflow: bool,
    pub latch: LatchedLines,
}

// VCNT, its latch, and VCNTOV, in the same order.
#[derive(Clone, Copy)]
pub struct PeriodCounter {
    pub count: Periods,
    pub overflow: bool,
    pub latch: LatchedPeriods,
}

#[derive(Clone, Copy)]
pub struct Sync {
    pub lines: LineCounter,
    pub periods: PeriodCounter,
    pub interval: u16,
}

// The last value of a counter of 12 bits.
const COUNT_LAST: u16 = 4095;

// The last value of the interval of 1,024 periods.
const INTERVAL_LAST: u16 = 1023;

// HCNT steps.
#[tactic(auto, unfolding(crate::specs::Sync::step_lines))]
pub fn step_lines(c: LineCounter) -> LineCounter
    ensures { result ≡ step_lines c }
{
    LineCounter {
        count: Lines(counters::counted(COUNT_LAST, c.overflow, c.count.0)),
        overflow: counters::overflowed(COUNT_LAST, c.overflow, c.count.0),
        ..c
    }
}

// HCNT is latched and zeroed.
#[tactic(auto, unfolding(crate::specs::Sync::latch_lines))]
pub fn latch_lines(c: LineCounter) -> LineCounter
    ensures { result ≡ latch_lines c }
{
    LineCounter {
        count: Lines(counters::zeroed(c.overflow, c.count.0)),
        latch: LatchedLines(counters::latched(c.overflow, c.count.0, c.latch.0)),
        ..c
    }
}

// CLRFLG bit 7: a 1 clears HCNTOV and sets HCNT to 0.
#[tactic(auto, unfolding(crate::specs::Sync::clear_lines))]
pub fn clear_lines(bit: bool, c: LineCounter) -> LineCounter
    ensures { result ≡ clear_lines bit c }
{
    if bit {
        LineCounter {
            count: Lines(0),
            overflow: false,
            ..c
        }
    } else {
        c
    }
}

// HCNT where HSEL goes from 1 to 0: zeroed, in overflow too.
#[tactic(auto, unfolding(crate::specs::Sync::zero_lines))]
pub fn zero_lines(c: LineCounter) -> LineCounter
    ensures { result ≡ zero_lines c }
{
    LineCounter {
        count: Lines(0),
        ..c
    }
}

// VCNT steps.
#[tactic(auto, unfolding(crate::specs::Sync::step_periods))]
pub fn step_periods(c: PeriodCounter) -> PeriodCounter
    ensures { result ≡ step_periods c }
{
    PeriodCounter {
        count: Periods(counters::counted(COUNT_LAST, c.overflow, c.count.0)),
        overflow: counters::overflowed(COUNT_LAST, c.overflow, c.count.0),
        ..c
    }
}

// VCNT is latched and zeroed.
#[tactic(auto, unfolding(crate::specs::Sync::latch_periods))]
pub fn latch_periods(c: PeriodCounter) -> PeriodCounter
    ensures { result ≡ latch_periods c }
{
    PeriodCounter {
        count: Periods(counters::zeroed(c.overflow, c.count.0)),
        latch: LatchedPeriods(counters::latched(c.overflow, c.count.0, c.latch.0)),
        ..c
    }
}

// CLRFLG bit 6: a 1 clears VCNTOV and sets VCNT to 0.
#[tactic(auto, unfolding(crate::specs::Sync::clear_periods))]
pub fn clear_periods(bit: bool, c: PeriodCounter) -> PeriodCounter
    ensures { result ≡ clear_periods bit c }
{
    if bit {
        PeriodCounter {
            count: Periods(0),
            overflow: false,
            ..c
        }
    } else {
        c
    }
}

// A rise of HSYNCI.
#[tactic(auto, unfolding(crate::specs::Sync::on_hsync))]
pub fn on_hsync(s: Sync) -> Sync
    ensures { result ≡ on_hsync s }
{
    Sync {
        lines: step_lines(s.lines),
        ..s
    }
}

// HCNT at a rise of VSYNCI.
#[tactic(auto, unfolding(crate::specs::Sync::lines_on_vsync))]
pub fn lines_on_vsync(hsel: bool, c: LineCounter) -> LineCounter
    ensures { result ≡ lines_on_vsync hsel c }
{
    if hsel { latch_lines(c) } else { c }
}

// A rise of VSYNCI.
#[tactic(auto, unfolding(crate::specs::Sync::on_vsync))]
pub fn on_vsync(hsel: bool, s: Sync) -> Sync
    ensures { result ≡ on_vsync hsel s }
{
    Sync {
        lines: lines_on_vsync(hsel, s.lines),
        periods: latch_periods(s.periods),
        ..s
    }
}

// The interval after an 8 µs clock.
#[tactic(auto, unfolding(crate::specs::Sync::interval_next))]
pub fn interval_next(hsel: bool, n: u16) -> u16
    ensures { result ≡ interval_next hsel n }
{
    if hsel {
        n
    } else {
        counters::cycle_next(INTERVAL_LAST, n)
    }
}

// HCNT at an 8 µs clock: the 1,024th ends the interval.
#[tactic(auto, unfolding(crate::specs::Sync::lines_on_period))]
pub fn lines_on_period(hsel: bool, n: u16, c: LineCounter) -> LineCounter
    ensures { result ≡ lines_on_period hsel n c }
{
    if hsel || n < INTERVAL_LAST {
        c
    } else {
        latch_lines(c)
    }
}

// An 8 µs clock.
#[tactic(auto, unfolding(crate::specs::Sync::on_period))]
pub fn on_period(hsel: bool, s: Sync) -> Sync
    ensures { result ≡ on_period hsel s }
{
    Sync {
        lines: lines_on_period(hsel, s.interval, s.lines),
        periods: step_periods(s.periods),
        interval: interval_next(hsel, s.interval),
    }
}

// HSEL has changed from 1 to 0.
#[tactic(auto, unfolding(crate::specs::Sync::hsel_cleared))]
pub fn hsel_cleared(s: Sync) -> Sync
    ensures { result ≡ hsel_cleared s }
{
    Sync {
        lines: zero_lines(s.lines),
        interval: 0,
        ..s
    }
}

// CLRFLG written with these bits 7 and 6.
#[tactic(auto, unfolding(crate::specs::Sync::clear_overflow))]
pub fn clear_overflow(h: bool, v: bool, s: Sync) -> Sync
    ensures { result ≡ clear_overflow h v s }
{
    Sync {
        lines: clear_lines(h, s.lines),
        periods: clear_periods(v, s.periods),
        ..s
    }
}

// All zero, as after a reset.
#[tactic(auto, unfolding(crate::specs::Sync::zero_sync))]
pub fn zero_sync() -> Sync
    ensures { result ≡ zero_sync }
{
    Sync {
        lines: LineCounter {
            count: Lines(0),
            latch: LatchedLines(0),
            overflow: false,
        },
        periods: PeriodCounter {
            count: Periods(0),
            latch: LatchedPeriods(0),
            overflow: false,
        },
        interval: 0,
    }
}

// Counts, latches and interval are within their ranges.
#[tactic(auto, unfolding(crate::specs::Sync::well_sync))]
pub fn well_sync(s: Sync) -> bool
    ensures { result ≡ well_sync s }
{
    (s.lines.count.0 < 4096)
        & (s.lines.latch.0 < 4096)
        & (s.periods.count.0 < 4096)
        & (s.periods.latch.0 < 4096)
        & (s.interval < 1024)
}
