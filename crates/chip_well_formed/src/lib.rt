// Well formed states: ranges, reserved bits at reset value, and a bus that fits its mode.
#![tactic(auto)]

ghost use Rattle.std.specs.Prelude.{◌≡◌};
ghost use Rattle.bits.specs.Finite.{all_below};
ghost use Rattle.chip_well_formed.specs.WellFormed.{reserved_at, reserved_apart, gathered_fits, phase_fits, is_idle, is_unused, bus_fits, well_formed};

use bus::{Mode, Phase, Shifter};
use chip::{Chip, Core};

// The reserved bits of each place of the array, all of one that is not used, and what they are at reset: columns computed from the
// register table, so that the test of a state looks up no row.
const MASKS: [u8; 38] = [
    0x00, 0xc0, 0x00, 0x00, 0xfc, 0xff, 0xff, 0xff, 0xff, 0xff, 0xff, 0x20, 0x00, 0xff, 0xff, 0xc0,
    0xff, 0xff, 0xff, 0xff, 0xff, 0xff, 0xff, 0xfc, 0x00, 0x00, 0x00, 0x00, 0x00, 0x00, 0x00, 0x00,
    0x00, 0x00, 0x00, 0x00, 0x00, 0x00,
];

const VALUES: [u8; 38] = [
    0x00, 0x40, 0x00, 0x00, 0x00, 0x07, 0x2f, 0x00, 0x00, 0x00, 0x00, 0x20, 0x00, 0xc0, 0x00, 0x00,
    0x00, 0x00, 0x00, 0xff, 0x00, 0x08, 0x00, 0x00, 0x00, 0x00, 0x00, 0x00, 0x00, 0x00, 0x00, 0x00,
    0x00, 0x00, 0x00, 0x00, 0x00, 0x00,
];

// Reserved bits of the array's places are at reset value.
fn reserved(registers: [u8; 38]) -> bool
    ensures { result ≡ all_below (reserved_at registers) 38 }
{
    let masks = MASKS;
    let values = VALUES;
    for i in 0..38 {
        if registers[i] & masks[i] != values[i] {
            return false;
        }
    }
    true
}

#[tactic(auto, unfolding(crate::specs::WellFormed::reserved_apart))]
fn reserved_apart(c: Core) -> bool
    ensures { result ≡ reserved_apart c }
{
    c.irqx < 64
        && c.bus.iists < 64
        && c.mdcon < 16
        && c.polarity < 16
        && bits::bit(0, c.bus.iiadr)
        && c.pins.port1 < 128
}

#[tactic(auto, unfolding(crate::specs::WellFormed::gathered_fits))]
fn gathered_fits(count: u8, bits: u8) -> bool
    ensures { result ≡ gathered_fits count bits }
{
    let limit: u16 = if count < 9 { 1 << count } else { 256 };
    u16::from(bits) < limit
}

#[tactic(auto, unfolding(crate::specs::WellFormed::phase_fits))]
fn phase_fits(phase: Phase) -> bool
    ensures { result ≡ phase_fits phase }
{
    match phase {
        Phase::Idle | Phase::Ignoring | Phase::Held { .. } => true,
        Phase::Address { count, bits } => count < 8 && gathered_fits(count, bits),
        Phase::Addressed { bits, .. } => gathered_fits(8, bits),
        Phase::Receive { count, bits, .. } => count < 11 && gathered_fits(count, bits),
        Phase::Transmit { count, .. } => 0 < count && count < 11,
    }
}

#[tactic(auto, unfolding(crate::specs::WellFormed::is_idle))]
fn is_idle(phase: Phase) -> bool
    ensures { result ≡ is_idle phase }
{
    matches!(phase, Phase::Idle)
}

#[tactic(auto, unfolding(crate::specs::WellFormed::is_unused))]
fn is_unused(s: Shifter) -> bool
    ensures { result ≡ is_unused s }
{
    s.edges == 9 && s.register == 255
}

#[tactic(auto, unfolding(crate::specs::WellFormed::bus_fits))]
fn bus_fits(mode: Mode, phase: Phase, s: Shifter) -> bool
    ensures { result ≡ bus_fits mode phase s }
{
    match mode {
        Mode::Off => is_idle(phase) && is_unused(s),
        Mode::Ddc1 => is_idle(phase) && (s.edges < 9 || is_unused(s)),
        Mode::Ddc2b => phase_fits(phase) && is_unused(s),
    }
}

// The state is well formed: ranges, reserved bits at reset value, and a bus that fits its mode.
#[tactic(auto, unfolding(crate::specs::WellFormed::well_formed))]
pub fn well_formed(c: Chip) -> bool
    ensures { result ≡ well_formed c }
{
    let core = c.core;
    sync::well_sync(core.sync)
        && core.watchdog < 64
        && reserved_apart(core)
        && reserved(c.registers)
        && bus_fits(chip::mode_of(core), core.bus.phase, core.bus.shifter)
}

// Why a report is refused on a state that is not well formed.
#[derive(Clone, Copy, PartialEq, Eq, Debug)]
pub struct IllFormed;
