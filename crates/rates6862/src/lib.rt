// The field rate of the counters of either chip.
#![tactic(auto)]

ghost use Rattle.std.specs.Prelude.{◌≡◌};
ghost use Rattle.rates6862.specs.Report.{field_report, FieldCase};

use rates::{NoRate, Rate};
use sync6862::Counters;

// The report on the field rate. An ill formed state is told before all else.
pub fn field_rate(s: Counters) -> Result<Rate, NoRate>
    ensures { (result ≡ field_report s) × FieldCase s result }
{
    if sync6862::well_formed(s) {
        let v = s.sync.periods;
        rates::by_periods(v)
    } else {
        Err(NoRate::IllFormed)
    }
}
