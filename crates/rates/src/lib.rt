// The field rate and the line rate in Hz, from the latches of the sync counters.
#![tactic(auto)]

ghost use Rattle.std.specs.Prelude.{◌≡◌, ◌≤◌, ◌<◌, ◌*◌};
ghost use Rattle.rates.specs.Hertz.{Exactly, field_hz, interval_hz, line_hz};
ghost use Rattle.rates.specs.Report.{in_hertz, told, rate_number, by_periods, by_interval, by_field, field_report, line_report, PeriodsCase, FieldCase, LineCase};

use sync::{LatchedLines, LatchedPeriods, LineCounter, PeriodCounter, Sync};

// Why no rate is told.
#[derive(Clone, Copy, Debug, PartialEq, Eq)]
pub enum NoRate {
    IllFormed,
    NothingLatched,
    Overflow,
}

// A rate in Hz, of fields or of lines.
#[derive(Clone, Copy)]
pub enum Rate {
    FieldRate(f64),
    LineRate(f64),
}

impl Rate {
    // In Hz, whichever it is.
    pub fn hertz(self) -> f64
        ensures { result ≡ in_hertz self }
    {
        match self {
            Rate::FieldRate(x) => x,
            Rate::LineRate(x) => x,
        }
    }
}

// The field rate of a VCNT latch: one division, so one rounding.
fn field_hz(v: LatchedPeriods) -> f64
    requires { 1 ≤ v.0 }
    ensures { result ≡ field_hz v }
{
    125000.0 / (v.0 as f64)
}

// The HCNT latch times 15625/128, exactly.
fn interval_hz(h: LatchedLines) -> f64
    requires { (1 ≤ h.0) × (h.0 < 4096) }
    ensures { result ≡ interval_hz h }
{
    (h.0 as f64) * 122.0703125
}

// The HCNT latch times 125,000, exactly.
fn lines_product(h: LatchedLines) -> f64
    requires { (1 ≤ h.0) × (h.0 < 4096) }
    ensures { Exactly result (h.0 * 125000) 1 }
{
    (h.0 as f64) * 125000.0
}

// That product divided once by the VCNT latch.
fn line_hz(h: LatchedLines, v: LatchedPeriods) -> f64
    requires { (1 ≤ h.0) × (h.0 < 4096) × (1 ≤ v.0) × (v.0 < 4096) }
    ensures { result ≡ line_hz h v }
{
    lines_product(h) / (v.0 as f64)
}

// Whether a rate can be told. An overflow is told before a latch of 0.
fn latched(overflow: bool, unlatched: bool) -> Result<(), NoRate>
    ensures { result ≡ told overflow unlatched tt }
{
    if overflow {
        return Err(NoRate::Overflow);
    }
    if unlatched {
        return Err(NoRate::NothingLatched);
    }
    Ok(())
}

// The field rate from VCNT of any width, or why there is none.
pub fn by_periods(v: PeriodCounter) -> Result<Rate, NoRate>
    ensures { (result ≡ by_periods v) × PeriodsCase v result }
{
    latched(v.overflow, v.latch.0 == 0)?;
    let latch = v.latch;
    Ok(Rate::FieldRate(field_hz(latch)))
}

// The line rate from HCNT over the interval, or why there is none.
fn by_interval(h: LineCounter) -> Result<Rate, NoRate>
    requires { h.latch.0 < 4096 }
    ensures { (result ≡ by_interval h) × (rate_number result ≡ 0) }
{
    latched(h.overflow, h.latch.0 == 0)?;
    let latch = h.latch;
    Ok(Rate::LineRate(interval_hz(latch)))
}

// The line rate from both counters over a field, or why there is none.
fn by_field(h: LineCounter, v: PeriodCounter) -> Result<Rate, NoRate>
    requires { (h.latch.0 < 4096) × (v.latch.0 < 4096) }
    ensures { (result ≡ by_field h v) × (rate_number result ≡ 0) }
{
    latched(h.overflow | v.overflow, (h.latch.0 == 0) | (v.latch.0 == 0))?;
    let lines = h.latch;
    let periods = v.latch;
    Ok(Rate::LineRate(line_hz(lines, periods)))
}

// The report on the field rate.
pub fn field_rate(s: Sync) -> Result<Rate, NoRate>
    ensures { (result ≡ field_report s) × FieldCase s result }
{
    if sync::well_sync(s) {
        let v = s.periods;
        by_periods(v)
    } else {
        Err(NoRate::IllFormed)
    }
}

// The report on the line rate, HSEL being this.
pub fn line_rate(s: Sync, hsel: bool) -> Result<Rate, NoRate>
    ensures { (result ≡ line_report s hsel) × LineCase s hsel result }
{
    if sync::well_sync(s) {
        let h = s.lines;
        let v = s.periods;
        if hsel { by_field(h, v) } else { by_interval(h) }
    } else {
        Err(NoRate::IllFormed)
    }
}
