// The rate report of a chip: the field rate or the line rate in Hz, or why there is none.
#![tactic(auto)]

ghost use Rattle.std.specs.Prelude.{◌≡◌};
ghost use Rattle.chip_rate_report.specs.Report.{rate_report, RateCase};

use chip::Chip;
use rates::{NoRate, Rate};

// Which rate is asked for: fields in a second, or lines.
#[derive(Clone, Copy, Debug, PartialEq, Eq)]
pub enum Scan {
    Field,
    Line,
}

// The report. An ill formed state is told before all else.
pub fn rate(c: Chip, scan: Scan) -> Result<Rate, NoRate>
    ensures { (result ≡ rate_report c scan) × RateCase c scan result }
{
    if chip_well_formed::well_formed(c) {
        let core = c.core;
        let s = core.sync;
        match scan {
            Scan::Field => rates::field_rate(s),
            Scan::Line => {
                let hsel = chip::hsel(core);
                rates::line_rate(s, hsel)
            }
        }
    } else {
        Err(NoRate::IllFormed)
    }
}
