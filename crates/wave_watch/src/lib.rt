// What a dump shows of a chip: ten lines and six vectors, and the outside levels of the four pins.
#![tactic(auto)]

ghost use Rattle.std.specs.Prelude.{◌≡◌, ◌%◌, ◌≤◌, ◌<◌};
ghost use Rattle.bits.specs.Byte.{num};
ghost use Rattle.chip.specs.State.{chip_of};
ghost use Rattle.wave_watch.specs.Watched.{scl_line, sda_line, line_levels, levels_of, phase_number, vectors_of, watch_of, pins_of};

use bus::Phase;
use chip::{Chip, Core};
use registers::IEX;
use wave_write::Watch;

// The SCL line: its outside level, low while the chip pulls it.
fn scl_line(c: Core) -> bool
    ensures { result ≡ scl_line c }
{
    let b = c.bus;
    let phase = b.phase;
    bus::line_level(bus::scl_pulled(chip::mode_of(c), phase), c.scl)
}

fn sda_line(c: Core) -> bool
    ensures { result ≡ sda_line c }
{
    let b = c.bus;
    let phase = b.phase;
    let shifter = b.shifter;
    bus::line_level(bus::sda_pulled(chip::mode_of(c), phase, shifter), c.sda)
}

// RESET, P16, the SCL line and the SDA line, a bit each from the lowest.
#[tactic(auto, unfolding(crate::specs::Watched::line_levels))]
fn line_levels(c: Core) -> u8
    ensures { (result ≡ line_levels c) × (result ≤ 15) }
{
    let reset = u8::from(c.reset);
    let p16 = u8::from(bits::bit(6, c.pins.port1));
    let scl = u8::from(scl_line(c));
    let sda = u8::from(sda_line(c));
    reset + p16 * 2 + scl * 4 + sda * 8
}

// The four lines, and the six requests past them.
#[tactic(auto, unfolding(crate::specs::Watched::levels_of))]
fn levels_of(registers: &[u8; 38], c: Core) -> u16
    ensures { result ≡ levels_of (chip_of registers.now c) }
{
    let lines = line_levels(c);
    let requests = chip::requested(c.irqx, chip::register_at(registers, IEX));
    u16::from(lines) + u16::from(requests % 64) * 16
}

// The number of a phase, as the stored state has it.
#[tactic(auto, unfolding(crate::specs::Watched::phase_number))]
fn phase_number(phase: Phase) -> u8
    ensures { (result ≡ phase_number phase) × (result ≤ 6) }
{
    match phase {
        Phase::Idle => 0,
        Phase::Address { .. } => 1,
        Phase::Addressed { .. } => 2,
        Phase::Ignoring => 3,
        Phase::Receive { .. } => 4,
        Phase::Transmit { .. } => 5,
        Phase::Held { .. } => 6,
    }
}

// The twelve bits of a latch.
fn latched(v: u16) -> u64
    ensures { (result ≡ v % 4096) × (result < 4096) }
{
    u64::from(v % 4096)
}

// IRQX, II STS, II DAT, HCNT and VCNT as latched, and the phase of the bus, twelve bits each from the lowest.
#[tactic(auto, unfolding(crate::specs::Watched::vectors_of))]
fn vectors_of(c: Core) -> u64
    ensures { result ≡ vectors_of c }
{
    let irqx = u64::from(c.irqx);
    let status = u64::from(c.bus.iists);
    let data = u64::from(c.bus.iidat);
    let lines = latched(c.sync.lines.latch.0);
    let periods = latched(c.sync.periods.latch.0);
    let b = c.bus;
    let phase = b.phase;
    let number = u64::from(phase_number(phase));
    irqx + status * 4096
        + data * 16777216
        + lines * 68719476736
        + periods * 281474976710656
        + number * 1152921504606846976
}

// What is watched of a chip, of which the array of stored registers is lent.
#[tactic(auto, unfolding(crate::specs::Watched::watch_of))]
pub fn watch_core(registers: &[u8; 38], c: Core) -> Watch
    ensures { result ≡ watch_of (chip_of registers.now c) }
{
    Watch {
        levels: levels_of(registers, c),
        vectors: vectors_of(c),
    }
}

// What is watched of a chip.
pub fn watch(c: Chip) -> Watch
    ensures { result ≡ watch_of c }
{
    let registers = c.registers;
    let core = c.core;
    watch_core(&registers, core)
}

// The outside levels of SDA, SCL, HSYNCI and VSYNCI, a bit each from the lowest.
#[tactic(auto, unfolding(crate::specs::Watched::pins_of))]
pub fn pins(c: Core) -> u8
    ensures { result ≡ pins_of c }
{
    let sda = u8::from(c.sda);
    let scl = u8::from(c.scl);
    let hsynci = u8::from(c.pins.hsynci);
    let vsynci = u8::from(c.pins.vsynci);
    sda + scl * 2 + hsynci * 4 + vsynci * 8
}
