// What an event does at a chip: reads, writes, pins, clocks and polarity, and words that are refused.
#![tactic(auto)]

ghost use Rattle.std.specs.Prelude.{◌≡◌, false, Ok, Err};
ghost use Rattle.chip.specs.declared.Kept.{Kept};
ghost use Rattle.events.specs.declared.Event.{Event};
ghost use Rattle.chip.specs.State.{chip_of};
ghost use Rattle.chip_events.specs.Outcome.{outcome as outcome_of, reset_if};

use chip::{Core, Kept};
use events::{Event, RESET, Refusal, WATCHDOG};
use registers::BTCON;

// What an event did: the core after it, what it left in the array of stored registers, the number given back, whether the
// watchdog reset the chip, and the byte read.
#[derive(Clone, Copy)]
pub struct Outcome {
    pub core: Core,
    pub kept: Kept,
    pub number: u8,
    pub watchdog: bool,
    pub byte: u8,
}

fn reset_if(reset: bool) -> Kept
    ensures { result ≡ reset_if reset }
{
    if reset { Kept::Reset } else { Kept::Same }
}

// An event that moves at most the core, with no number, reset or byte to tell.
fn moved(core: Core) -> Outcome
    ensures { result ≡ record { core = core; kept = Kept.Same; number = 0; watchdog = false; byte = 0 } }
{
    Outcome {
        core,
        kept: Kept::Same,
        number: 0,
        watchdog: false,
        byte: 0,
    }
}

#[tactic(auto, unfolding(crate::specs::Outcome::outcome, crate::specs::Outcome::core_after, crate::specs::Outcome::kept_after, crate::specs::Outcome::number_given, crate::specs::Outcome::watchdog_reset, crate::specs::Outcome::byte_given))]
fn read_outcome(registers: &[u8; 38], c: Core, a: u8) -> Outcome
    ensures { result ≡ outcome_of (chip_of registers.now c) (Ok (Event.Read a)) }
{
    let read = chip_reads::read_register(registers, c, a);
    Outcome {
        number: read.number,
        byte: read.byte,
        ..moved(c)
    }
}

#[tactic(auto, unfolding(crate::specs::Outcome::outcome, crate::specs::Outcome::core_after, crate::specs::Outcome::kept_after, crate::specs::Outcome::number_given, crate::specs::Outcome::watchdog_reset, crate::specs::Outcome::byte_given))]
fn write_outcome(registers: &[u8; 38], c: Core, a: u8, b: u8) -> Outcome
    ensures { result ≡ outcome_of (chip_of registers.now c) (Ok (Event.Write a b)) }
{
    let number = chip_writes::write_number(c.reset, a);
    if number == 0 {
        Outcome {
            kept: chip_writes::stored(registers, a, b),
            ..moved(chip_writes::written(c, a, b))
        }
    } else {
        Outcome { number, ..moved(c) }
    }
}

#[tactic(auto, unfolding(crate::specs::Outcome::outcome, crate::specs::Outcome::core_after, crate::specs::Outcome::kept_after, crate::specs::Outcome::was_reset, crate::specs::Outcome::number_given, crate::specs::Outcome::watchdog_reset, crate::specs::Outcome::byte_given))]
fn pin_outcome(registers: &[u8; 38], c: Core, p: u8, level: bool) -> Outcome
    ensures { result ≡ outcome_of (chip_of registers.now c) (Ok (Event.Pin p level)) }
{
    Outcome {
        kept: reset_if(p == RESET && c.reset && !level),
        ..moved(chip_pins::pin_moved(c, p, level))
    }
}

#[tactic(auto, unfolding(crate::specs::Outcome::outcome, crate::specs::Outcome::core_after, crate::specs::Outcome::kept_after, crate::specs::Outcome::was_reset, crate::specs::Outcome::number_given, crate::specs::Outcome::watchdog_reset, crate::specs::Outcome::byte_given))]
fn clock_outcome(registers: &[u8; 38], c: Core, k: u8) -> Outcome
    ensures { result ≡ outcome_of (chip_of registers.now c) (Ok (Event.Clock k)) }
{
    let fired = c.reset && k == WATCHDOG && counters::watchdog_fires(c.watchdog);
    let btcon = chip::register_at(registers, BTCON);
    Outcome {
        kept: reset_if(fired),
        watchdog: fired,
        ..moved(chip_clocks::clocked(btcon, c, k))
    }
}

#[tactic(auto, unfolding(crate::specs::Outcome::outcome, crate::specs::Outcome::core_after, crate::specs::Outcome::kept_after, crate::specs::Outcome::number_given, crate::specs::Outcome::watchdog_reset, crate::specs::Outcome::byte_given))]
fn polarity_outcome(registers: &[u8; 38], c: Core, vertical: bool, level: bool) -> Outcome
    ensures { result ≡ outcome_of (chip_of registers.now c) (Ok (Event.Polarity vertical level)) }
{
    moved(chip_clocks::polarity_found(c, vertical, level))
}

#[tactic(auto, unfolding(crate::specs::Outcome::outcome, crate::specs::Outcome::core_after, crate::specs::Outcome::kept_after, crate::specs::Outcome::number_given, crate::specs::Outcome::watchdog_reset, crate::specs::Outcome::byte_given))]
fn refused_outcome(registers: &[u8; 38], c: Core, refusal: Refusal) -> Outcome
    ensures { result ≡ outcome_of (chip_of registers.now c) (Err refusal) }
{
    Outcome {
        number: refusal.number(),
        ..moved(c)
    }
}

// What an event does at a chip, a refused word included: it moves nothing and gives its number.
#[tactic(auto, unfolding(crate::specs::Outcome::outcome))]
pub fn carry_out(registers: &[u8; 38], c: Core, event: Result<Event, Refusal>) -> Outcome
    ensures { result ≡ outcome_of (chip_of registers.now c) event }
{
    match event {
        Ok(Event::Read(a)) => read_outcome(registers, c, a),
        Ok(Event::Write(a, b)) => write_outcome(registers, c, a, b),
        Ok(Event::Pin(p, level)) => pin_outcome(registers, c, p, level),
        Ok(Event::Clock(k)) => clock_outcome(registers, c, k),
        Ok(Event::Polarity(vertical, level)) => polarity_outcome(registers, c, vertical, level),
        Err(refusal) => refused_outcome(registers, c, refusal),
    }
}
