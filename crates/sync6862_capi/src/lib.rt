// The counters of either chip for programs in C or Rust, in twelve numbers that the caller lends.
#![tactic(auto)]

ghost use Rattle.std.specs.Prelude.{◌≡◌, Err};
ghost use Rattle.sync6862_capi.specs.Lent.{lent, hertz as hertz_of, field_lent};

use rates::{NoRate, Rate};

// The number for another length than twelve.
const NOT_TWELVE: u8 = 15;

// A call on twelve numbers, and what it leaves. Another length than twelve answers 15.
#[unsafe(no_mangle)]
pub extern "C" fn nt6862_counters(state: &mut [u16], call: u32, value: u32) -> u8
    ensures { (result ≡ (lent state.old call value).0) × (state.new ≡ (lent state.old call value).1) }
{
    match state.as_array() {
        Some(n) => match numbers6862::call(*n, call, value) {
            Ok(after) => {
                state.copy_from_slice(&after);
                0
            }
            Err(why) => why.number(),
        },
        None => NOT_TWELVE,
    }
}

// Why there is no rate, as a double that no rate is: 0 nothing latched, -1 overflow, -8 ill formed.
fn no_rate(why: NoRate) -> f64
    ensures { result ≡ hertz_of (Err why) }
{
    match why {
        NoRate::NothingLatched => 0.0,
        NoRate::Overflow => -1.0,
        NoRate::IllFormed => -8.0,
    }
}

// The field rate in Hz, or why there is none.
#[tactic(auto, unfolding(crate::specs::Lent::hertz))]
fn hertz(rate: Result<Rate, NoRate>) -> f64
    ensures { result ≡ hertz_of rate }
{
    match rate {
        Ok(told) => told.hertz(),
        Err(why) => no_rate(why),
    }
}

// The report on the field rate of twelve numbers, as `hertz` has it. Another length than twelve answers -15.
#[unsafe(no_mangle)]
pub extern "C" fn nt6862_field_rate(state: &[u16]) -> f64
    ensures { result ≡ field_lent state.now }
{
    match state.as_array() {
        Some(n) => hertz(numbers6862::field(*n)),
        None => -15.0,
    }
}
