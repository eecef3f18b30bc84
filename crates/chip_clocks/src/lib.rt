// Clocks, and a polarity that is found.
#![tactic(auto)]

ghost use Rattle.std.specs.Prelude.{◌≡◌};
ghost use Rattle.bits.specs.Byte.{pick};
ghost use Rattle.registers.specs.Names.{HPOLI, VPOLI};
ghost use Rattle.chip_clocks.specs.Clocks.{period_clock, timer_runs, timer_step, timer_clock, watchdog_clock, clocked_as, clocked as clocked_of, polarity_found};

use chip::Core;
use events::{BASE0, BASE1, PERIOD, WATCHDOG};
use registers::{ENBT, HPOLI, INTR, TBS, VPOLI};

// A clock of 8 µs: VCNT steps, with HSEL 0 the interval runs, and a hold of SCL has lasted one clock more.
#[tactic(auto, unfolding(crate::specs::Clocks::period_clock))]
pub fn period_clock(c: Core) -> Core
    ensures { result ≡ period_clock c }
{
    let n = chip::with_sync(c, sync::on_period(chip::hsel(c), c.sync));
    chip::with_bus(
        n,
        chip_edges::with_phase(c.bus, bus_ddc2b::phase_at_period(c.bus.phase)),
    )
}

#[tactic(auto, unfolding(crate::specs::Clocks::timer_runs))]
fn timer_runs(btcon: u8, k: u8) -> bool
    ensures { result ≡ timer_runs btcon k }
{
    let clock = if bits::bit(TBS, btcon) { BASE1 } else { BASE0 };
    !bits::bit(ENBT, btcon) && k == clock
}

#[tactic(auto, unfolding(crate::specs::Clocks::timer_step))]
fn timer_step(c: Core) -> Core
    ensures { result ≡ timer_step c }
{
    let flags = bits::weight_if(counters::timer_overflows(c.bt), INTR);
    chip::with_bt(chip::raised(c, flags), counters::timer_next(c.bt))
}

#[tactic(auto, unfolding(crate::specs::Clocks::timer_clock))]
fn timer_clock(btcon: u8, c: Core, k: u8) -> Core
    ensures { result ≡ timer_clock btcon c k }
{
    if timer_runs(btcon, k) {
        timer_step(c)
    } else {
        c
    }
}

#[tactic(auto, unfolding(crate::specs::Clocks::watchdog_clock))]
fn watchdog_clock(c: Core) -> Core
    ensures { result ≡ watchdog_clock c }
{
    if counters::watchdog_fires(c.watchdog) {
        chip::reset_core(c)
    } else {
        chip::with_watchdog(c, counters::watchdog_next(c.watchdog))
    }
}

#[tactic(auto, unfolding(crate::specs::Clocks::clocked_as))]
fn clocked_as(btcon: u8, c: Core, k: u8) -> Core
    ensures { result ≡ clocked_as btcon c k }
{
    match k {
        PERIOD => period_clock(c),
        WATCHDOG => watchdog_clock(c),
        _ => timer_clock(btcon, c, k),
    }
}

// The core after clock k: 0 of 8 µs, 3 of the watchdog, the others of the base timer, which BTCON steers; none runs while
// RESET is low.
#[tactic(auto, unfolding(crate::specs::Clocks::clocked))]
pub fn clocked(btcon: u8, c: Core, k: u8) -> Core
    ensures { result ≡ clocked_of btcon c k }
{
    if c.reset { clocked_as(btcon, c, k) } else { c }
}

// The bit of HVCON that a polarity goes to.
fn polarity_bit(vertical: bool) -> u8
    ensures { result ≡ pick vertical VPOLI HPOLI }
{
    if vertical { VPOLI } else { HPOLI }
}

// A polarity is found: VPOLI or HPOLI takes it, except while RESET is low.
#[tactic(auto, unfolding(crate::specs::Clocks::polarity_found))]
pub fn polarity_found(c: Core, vertical: bool, level: bool) -> Core
    ensures { result ≡ polarity_found c vertical level }
{
    if c.reset {
        chip::with_polarity(c, bits::with_bit(c.polarity, polarity_bit(vertical), level))
    } else {
        c
    }
}
