// The rate report on a state in a lent area of 128 bytes.
#![tactic(auto)]

ghost use Rattle.std.specs.Prelude.{◌≡◌, Err};
ghost use Rattle.chip_rate_report.specs.Report.{rate_report};
ghost use Rattle.state_rate.specs.Rate.{report_word, report_hertz, rate_word, rate_hertz, rate_in, hertz_in};

use chip::Chip;
use chip_rate_report::Scan;
use rates::NoRate;

// The word of a report that tells no rate.
#[tactic(auto, unfolding(crate::specs::Rate::report_word))]
fn no_rate_word(why: NoRate) -> u32
    ensures { result ≡ report_word (Err why) }
{
    match why {
        NoRate::NothingLatched => 1,
        NoRate::Overflow => 2,
        NoRate::IllFormed => 0x0800_0000,
    }
}

// The report as a word, and its rate to `hertz`, which stays where there is none.
fn reported(c: Chip, scan: Scan, hertz: &mut f64) -> u32
    ensures { (result ≡ report_word (rate_report c scan)) × (hertz.new ≡ report_hertz (rate_report c scan) hertz.old) }
{
    let rate = chip_rate_report::rate(c, scan);
    match rate {
        Ok(told) => {
            *hertz = told.hertz();
            0
        }
        Err(why) => no_rate_word(why),
    }
}

#[tactic(auto, unfolding(crate::specs::Rate::rate_word, crate::specs::Rate::rate_hertz))]
fn asked(c: Chip, which: u32, hertz: &mut f64) -> u32
    ensures { (result ≡ rate_word c which) × (hertz.new ≡ rate_hertz c which hertz.old) }
{
    match which {
        0 => reported(c, Scan::Field, hertz),
        1 => reported(c, Scan::Line, hertz),
        _ => 0x0200_0000,
    }
}

// The field rate (0) or the line rate (1) of the state in the area, to `hertz`: 0; or 1 nothing latched, 2 overflow, and 15, 8, or 2
// for another `which` in bits 31 to 24, and `hertz` as it was.
pub fn rate(area: &[u8], which: u32, hertz: &mut f64) -> u32
    ensures { (result ≡ rate_in area.now which) × (hertz.new ≡ hertz_in area.now which hertz.old) }
{
    match state_area::load(area) {
        Ok(c) => asked(c, which, hertz),
        Err(fault) => u32::from(u8::from(fault)) * 16777216,
    }
}
