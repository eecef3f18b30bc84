// The reads of the chip's registers, kept while they hold: an instruction looks them up here and needs no chip (document 02, Wish 5).
#![tactic(auto)]

ghost use Rattle.std.specs.Prelude.{◌≡◌, set};
ghost use Rattle.std.specs.Int.Bits.{bit_and};
ghost use Rattle.registers.specs.Table.{updated as updated_of};
ghost use Rattle.sync.specs.Sync.{on_period};
ghost use Rattle.chip.specs.State.{keep as keep_of, register_at};
ghost use Rattle.chip_writes.specs.Writes.{written as written_of, stored_by};
ghost use Rattle.firmware_machine.specs.Seen.{known_reading};
ghost use Rattle.cpu_register_cache.specs.Cache.{none_seen, ports_forgotten, bus_forgotten, is_bus, seen_after_event, is_stored, seen_after_write, same_bool, same_counts, seen_after_clock, is_dac, seen_after_dac};

use chip::{Core, Kept};
use chip_reads::Reading;
use chip_writes::Target;
use events::{Event, Refusal, SCL, SDA};
use registers::{DACH0, IIDAT, IISTS, IRQX, MDCON, PT0, PT1, PT2, PT3};
use sync::Sync;

// Of no register anything is known: 320 and its own number.
pub const NONE_SEEN: [u16; 38] = [
    320, 321, 322, 323, 324, 325, 326, 327, 328, 329, 330, 331, 332, 333, 334, 335, 336, 337, 338,
    339, 340, 341, 342, 343, 344, 345, 346, 347, 348, 349, 350, 351, 352, 353, 354, 355, 356, 357,
];

// Of no register anything is known.
pub fn forget(seen: &mut [u16; 38])
    ensures { seen.new ≡ none_seen }
{
    *seen = NONE_SEEN;
}

// A read as the array keeps it: its byte, or 256 and the number of its refusal.
pub fn known_reading(r: Reading) -> u16
    ensures { result ≡ known_reading r }
{
    if r.number == 0 {
        r.byte as u16
    } else {
        256 + (r.number as u16)
    }
}

// What a register reads put in its place; past the registers nothing is written.
pub fn note(seen: &mut [u16], r: u8, v: u16)
    ensures { seen.new ≡ set seen.old r v }
{
    let i = r as usize;
    if i < seen.len() {
        seen[i] = v;
    }
}

// Ports show other registers too.
fn forget_ports(seen: &mut [u16; 38])
    ensures { seen.new ≡ ports_forgotten seen.old }
{
    note(seen, PT0, 320);
    note(seen, PT1, 321);
    note(seen, PT2, 323);
    note(seen, PT3, 324);
}

// Edges of SCL and SDA move what these registers show.
fn forget_bus(seen: &mut [u16; 38])
    ensures { seen.new ≡ bus_forgotten seen.old }
{
    note(seen, PT3, 324);
    note(seen, MDCON, 325);
    note(seen, IRQX, 336);
    note(seen, IIDAT, 340);
    note(seen, IISTS, 341);
}

// An edge of the bus.
#[tactic(auto, unfolding(crate::specs::Cache::is_bus))]
fn is_bus(event: Result<Event, Refusal>) -> bool
    ensures { result ≡ is_bus event }
{
    match event {
        Ok(Event::Pin(p, _)) => (p == SCL) | (p == SDA),
        _ => false,
    }
}

// After an event: an edge of the bus leaves the other registers known.
pub fn forget_by(seen: &mut [u16; 38], event: Result<Event, Refusal>)
    ensures { seen.new ≡ seen_after_event seen.old event }
{
    if is_bus(event) {
        forget_bus(seen);
    } else {
        forget(seen);
    }
}

fn forget_written(seen: &mut [u16; 38], a: u8)
    ensures { seen.new ≡ seen_after_write seen.old a }
{
    if is_stored(chip_writes::target_of(a)) {
        forget_ports(seen);
        note(seen, a, 320 + (a as u16));
    } else {
        forget(seen);
    }
}

fn is_stored(t: Target) -> bool
    ensures { result ≡ is_stored t }
{
    match t {
        Target::Stored => true,
        Target::Mdcon => false,
        Target::Hvcon => false,
        Target::Clrflg => false,
        Target::Clrwdt => false,
        Target::Iiadr => false,
        Target::Iidat => false,
        Target::Iists => false,
        Target::Bt => false,
    }
}

fn same_bool(a: bool, b: bool) -> bool
    ensures { result ≡ same_bool a b }
{
    if a { b } else { !b }
}

// The registers show the same of both counters.
fn same_counts(s: Sync, t: Sync) -> bool
    ensures { result ≡ same_counts s t }
{
    if same_bool(s.lines.overflow, t.lines.overflow) {
        if same_bool(s.periods.overflow, t.periods.overflow) {
            if s.lines.latch.0 == t.lines.latch.0 {
                s.periods.latch.0 == t.periods.latch.0
            } else {
                false
            }
        } else {
            false
        }
    } else {
        false
    }
}

// ---- changes of the chip

// The counters after a clock of 8 µs; where the registers then show something else of them, nothing stays known.
pub fn count_period(seen: &mut [u16; 38], hsel: bool, s: Sync) -> Sync
    ensures { (result ≡ on_period hsel s) × (seen.new ≡ seen_after_clock seen.old hsel s) }
{
    let after = sync::on_period(hsel, s);
    if same_counts(s, after) {
        after
    } else {
        forget(seen);
        after
    }
}

fn shown(registers: &[u8; 38], a: u8) -> u8
    ensures { result ≡ bit_and (register_at registers.now a) 255 }
{
    chip::register_at(registers, a) & 255
}

// DACH0 to DACH13.
pub fn is_dac(a: u8) -> bool
    ensures { result ≡ is_dac a }
{
    if a < DACH0 { false } else { a < 38 }
}

// A DAC is written: it reads as it is stored.
pub fn write_dac(seen: &mut [u16; 38], registers: &mut [u8; 38], a: u8, b: u8)
    ensures { (registers.new ≡ set registers.old a (updated_of a (register_at registers.old a) b))
        × (seen.new ≡ seen_after_dac seen.old registers.new a) }
{
    let v = registers::updated(a, chip::register_at(registers, a), b);
    chip::keep(registers, Kept::Stored(a, v));
    forget_ports(seen);
    note(seen, a, shown(registers, a) as u16);
}

// A write that is taken: core, stored registers and what stays known.
pub fn write_register(
    seen: &mut [u16; 38],
    registers: &mut [u8; 38],
    core: Core,
    a: u8,
    b: u8,
) -> Core
    ensures { (result ≡ written_of core a b) × (registers.new ≡ keep_of (stored_by registers.old a b) registers.old) × (seen.new ≡ seen_after_write seen.old a) }
{
    let kept = chip_writes::stored(registers, a, b);
    chip::keep(registers, kept);
    forget_written(seen, a);
    chip_writes::written(core, a, b)
}
