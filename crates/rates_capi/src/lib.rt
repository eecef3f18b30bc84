// The rates for programs in C or Rust, from the latches of counters that are not in overflow.
#![tactic(auto)]

ghost use Rattle.std.specs.Prelude.{◌≡◌, true, false};
ghost use Rattle.rates.specs.Report.{field_report, line_report};
ghost use Rattle.rates_capi.specs.Latches.{latches as latches_of, hertz as hertz_of};

use rates::{NoRate, Rate};
use sync::{LatchedLines, LatchedPeriods, LineCounter, Lines, PeriodCounter, Periods, Sync};

// Counters with these latches.
fn latches(h: u16, v: u16) -> Sync
    ensures { result ≡ latches_of h v }
{
    Sync {
        lines: LineCounter {
            count: Lines(0),
            latch: LatchedLines(h),
            overflow: false,
        },
        periods: PeriodCounter {
            count: Periods(0),
            latch: LatchedPeriods(v),
            overflow: false,
        },
        interval: 0,
    }
}

// The rate of a report, or 0 where it tells none.
fn hertz(rate: Result<Rate, NoRate>) -> f64
    ensures { result ≡ hertz_of rate }
{
    match rate {
        Ok(told) => told.hertz(),
        Err(_) => 0.0,
    }
}

// The field rate, v being the VCNT latch; 0 where there is none.
#[unsafe(no_mangle)]
pub extern "C" fn nt6861_field_rate(v: u16) -> f64
    ensures { result ≡ hertz_of (field_report (latches_of 0 v)) }
{
    let s = latches(0, v);
    let rate = rates::field_rate(s);
    hertz(rate)
}

// The line rate at HSEL 0, h being the HCNT latch; 0 where there is none.
#[unsafe(no_mangle)]
pub extern "C" fn nt6861_interval_rate(h: u16) -> f64
    ensures { result ≡ hertz_of (line_report (latches_of h 0) false) }
{
    let s = latches(h, 0);
    let rate = rates::line_rate(s, false);
    hertz(rate)
}

// The line rate at HSEL 1, h and v being the latches of HCNT and VCNT; 0 where there is none.
#[unsafe(no_mangle)]
pub extern "C" fn nt6861_line_rate(h: u16, v: u16) -> f64
    ensures { result ≡ hertz_of (line_report (latches_of h v) true) }
{
    let s = latches(h, v);
    let rate = rates::line_rate(s, true);
    hertz(rate)
}
