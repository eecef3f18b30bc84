// Counters by plain numbers, over their last value: counting, overflow and latching; the base timer and the watchdog.
#![tactic(auto)]

ghost use Rattle.std.specs.Prelude.{◌≡◌};
ghost use Rattle.counters.specs.Count.{counted as counted_of, overflowed as overflowed_of, latched as latched_of, zeroed as zeroed_of, cycle_next, timer_next, timer_overflows, watchdog_next, watchdog_fires};

// The count after a step that is due.
#[tactic(auto, unfolding(crate::specs::Count::counted))]
pub fn counted(last: u16, overflow: bool, count: u16) -> u16
    ensures { result ≡ counted_of last overflow count }
{
    if overflow {
        return count;
    }
    if count < last { count + 1 } else { count }
}

// The overflow bit after a step that is due.
#[tactic(auto, unfolding(crate::specs::Count::overflowed))]
pub fn overflowed(last: u16, overflow: bool, count: u16) -> bool
    ensures { result ≡ overflowed_of last overflow count }
{
    overflow | (count >= last)
}

// The latch after latching.
#[tactic(auto, unfolding(crate::specs::Count::latched))]
pub fn latched(overflow: bool, count: u16, latch: u16) -> u16
    ensures { result ≡ latched_of overflow count latch }
{
    if overflow { latch } else { count }
}

// The count after latching.
#[tactic(auto, unfolding(crate::specs::Count::zeroed))]
pub fn zeroed(overflow: bool, count: u16) -> u16
    ensures { result ≡ zeroed_of overflow count }
{
    if overflow { count } else { 0 }
}

// The next value of a count that runs on from 0.
#[tactic(auto, unfolding(crate::specs::Count::cycle_next))]
pub fn cycle_next(last: u16, n: u16) -> u16
    ensures { result ≡ cycle_next last n }
{
    if n < last { n + 1 } else { 0 }
}

// The base timer after its clock. An `if`, as for the watchdog: `wrapping_add` would say it of this width alone.
#[tactic(auto, unfolding(crate::specs::Count::cycle_next, crate::specs::Count::timer_next))]
pub fn timer_next(n: u8) -> u8
    ensures { result ≡ timer_next n }
{
    if n < 255 { n + 1 } else { 0 }
}

// The base timer's clock sets flag R.
#[tactic(auto, unfolding(crate::specs::Count::timer_overflows))]
pub fn timer_overflows(n: u8) -> bool
    ensures { result ≡ timer_overflows n }
{
    n >= 255
}

// The watchdog after its clock.
#[tactic(auto, unfolding(crate::specs::Count::cycle_next, crate::specs::Count::watchdog_next))]
pub fn watchdog_next(n: u8) -> u8
    ensures { result ≡ watchdog_next n }
{
    if n < 63 { n + 1 } else { 0 }
}

// The watchdog's clock resets the chip.
#[tactic(auto, unfolding(crate::specs::Count::watchdog_fires))]
pub fn watchdog_fires(n: u8) -> bool
    ensures { result ≡ watchdog_fires n }
{
    n >= 63
}
