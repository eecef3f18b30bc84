// The step: the next chip and the answer to an event word.
#![tactic(auto)]

ghost use Rattle.std.specs.Prelude.{◌≡◌};
ghost use Rattle.registers.specs.Names.{IEX};
ghost use Rattle.events.specs.Word.{decode as decode_of};
ghost use Rattle.chip.specs.State.{chip_of, register_at};
ghost use Rattle.step.specs.Step.{advance as advance_of, core_of, core_moved, common_event, step as step_of};

use chip::{Chip, Core};
use events::{Event, HSYNCI, PERIOD, Refusal};
use registers::{BTCON, IEX};

// The chip after a word, and the answer word.
#[derive(Clone, Copy)]
pub struct Stepped {
    pub chip: Chip,
    pub answer: u32,
}

// The same without the array of stored registers.
#[derive(Clone, Copy)]
pub struct CoreStepped {
    pub core: Core,
    pub answer: u32,
}

// The byte of IEX.
fn enables(registers: &[u8; 38]) -> u8
    ensures { result ≡ register_at registers.now IEX }
{
    chip::register_at(registers, IEX)
}

// The step over a decoded event, without the test of the state: the list call makes that once. The array of stored registers is
// lent and changed in place, so that it is never copied.
#[tactic(auto, unfolding(crate::specs::Step::advance, crate::specs::Step::answered, chip_events::specs::Outcome::outcome, chip_events::specs::Outcome::next))]
pub fn advance_core(registers: &mut [u8; 38], c: Core, event: Result<Event, Refusal>) -> CoreStepped
    ensures { (result ≡ core_of (advance_of (chip_of registers.old c) event)) × (registers.new ≡ (advance_of (chip_of registers.old c) event).chip.registers) }
{
    let done = chip_events::carry_out(registers, c, event);
    chip::keep(registers, done.kept);
    CoreStepped {
        core: done.core,
        answer: answers::answer(
            done.number,
            done.watchdog,
            chip::requested(done.core.irqx, enables(registers)),
            done.byte,
        ),
    }
}

// The commonest events, which move the core alone: the levels of HSYNCI, and the clock of 8 µs.
#[derive(Clone, Copy)]
enum Common {
    Hsynci(bool),
    Period,
    Other,
}

fn common_of(event: Result<Event, Refusal>) -> Common
    ensures { common_event result event ≡ event }
{
    match event {
        Ok(Event::Pin(HSYNCI, level)) => Common::Hsynci(level),
        Ok(Event::Clock(PERIOD)) => Common::Period,
        _ => Common::Other,
    }
}

// What a word leaves that moves the core alone.
fn core_moved(registers: &[u8; 38], c: Core) -> CoreStepped
    ensures { result ≡ core_moved registers.now c }
{
    CoreStepped {
        core: c,
        answer: answers::answer(0, false, chip::requested(c.irqx, enables(registers)), 0),
    }
}

// The step over an event word, without the test of the state. Of what the word decodes to, the commonest events go straight to what
// they move; the step over a decoded event gives the same.
pub fn advance_word(registers: &mut [u8; 38], c: Core, word: u32) -> CoreStepped
    ensures { (result ≡ core_of (advance_of (chip_of registers.old c) (decode_of word))) × (registers.new ≡ (advance_of (chip_of registers.old c) (decode_of word)).chip.registers) }
{
    let event = events::decode(word);
    match common_of(event) {
        Common::Hsynci(level) => core_moved(registers, chip_pins::pin_moved(c, HSYNCI, level)),
        Common::Period => {
            let btcon = chip::register_at(registers, BTCON);
            core_moved(registers, chip_clocks::clocked(btcon, c, PERIOD))
        }
        Common::Other => advance_core(registers, c, event),
    }
}

// The step over a decoded event, over a chip by value.
pub fn advance(c: Chip, event: Result<Event, Refusal>) -> Stepped
    ensures { result ≡ advance_of c event }
{
    let mut registers = c.registers;
    let done = advance_core(&mut registers, c.core, event);
    Stepped {
        chip: Chip {
            registers,
            core: done.core,
        },
        answer: done.answer,
    }
}

// The step: the next chip and the answer word, for every state and word.
#[tactic(auto, unfolding(crate::specs::Step::step))]
pub fn step(c: Chip, word: u32) -> Stepped
    ensures { result ≡ step_of c word }
{
    if chip_well_formed::well_formed(c) {
        advance(c, events::decode(word))
    } else {
        Stepped {
            chip: c,
            answer: 0x0800_0000,
        }
    }
}
