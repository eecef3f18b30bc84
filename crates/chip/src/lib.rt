// The chip: its state, a fresh one and a reset one, and what other parts ask of a state.
#![tactic(auto)]

ghost use Rattle.std.specs.Prelude.{◌≡◌, set};
ghost use Rattle.chip.specs.State.{idle_bus, released as released_of, requested as requested_of, requests as requests_of, reset_at, reset_core, fresh as fresh_of, mode_of, hsel_of, register_at, keep as keep_of, raised as raised_of, with_irqx, with_mdcon, with_polarity, with_bt, with_watchdog, with_sync, with_bus, with_pins, with_sda, with_scl, with_reset};

use bus::{Mode, Phase, Shifter};
use registers::{BT, HSEL, HVCON, IEX, IIADR, IIDAT, IISTS, IRQX, MDCON};
use sync::Sync;

// The registers of the bus, the phase of a transfer, and the shift register of DDC1. II ADR, which no edge moves, stands first, and
// what edges move stands together behind it.
#[derive(Clone, Copy)]
pub struct Bus {
    pub iiadr: u8,
    pub iists: u8,
    pub iidat: u8,
    pub phase: Phase,
    pub shifter: Shifter,
}

// Outside levels of the ports, a bit a pin, and of the sync inputs. The order is for the compiler: with
// port 0 first a word of the list call takes 7 machine instructions more.
#[derive(Clone, Copy)]
pub struct Pins {
    pub port1: u8,
    pub port2: u8,
    pub port0: u8,
    pub hsynci: bool,
    pub vsynci: bool,
}

// What edges, clocks, pins and the bus move, and what steers them: numbers and small enums, no array. IRQX, MDCON, the polarity
// bits of HVCON and BT stand here, since the chip itself moves them. `sda`, `scl` and `reset` are outside levels; they stand
// apart from `chip_pins` since the bus looks at SDA and SCL and everything at RESET, and since of two states that differ in SDA
// alone all of `chip_pins` is then the same.
#[derive(Clone, Copy)]
pub struct Core {
    pub irqx: u8,
    pub mdcon: u8,
    pub polarity: u8,
    pub bt: u8,
    pub watchdog: u8,
    pub sync: Sync,
    pub bus: Bus,
    pub pins: Pins,
    pub sda: bool,
    pub scl: bool,
    pub reset: bool,
}

// The whole state. `registers` holds what writes store and only reads, writes and resets look at; its places for registers that
// stand in the core are not used.
#[derive(Clone, Copy)]
pub struct Chip {
    pub registers: [u8; 38],
    pub core: Core,
}

// What an event leaves in the array of stored registers: all as it was, one register stored, or every one at its reset value.
#[derive(Clone, Copy)]
pub enum Kept {
    Same,
    Stored(u8, u8),
    Reset,
}

// A bus with no transfer, ones in the shift register and nine edges left.
fn idle_bus(iists: u8, iiadr: u8, iidat: u8) -> Bus
    ensures { result ≡ idle_bus iists iiadr iidat }
{
    Bus {
        iists,
        iiadr,
        iidat,
        phase: Phase::Idle,
        shifter: Shifter {
            register: 255,
            edges: 9,
        },
    }
}

// The bus after a change of mode: lines released, no transfer, ones in the shift register, nine edges left.
#[tactic(auto, unfolding(crate::specs::State::released))]
pub fn released(b: Bus) -> Bus
    ensures { result ≡ released_of b }
{
    idle_bus(b.iists, b.iiadr, b.iidat)
}

// ---- one part of the core put anew, the others kept

pub fn with_irqx(c: Core, irqx: u8) -> Core
    ensures { result ≡ with_irqx c irqx }
{
    Core { irqx, ..c }
}

pub fn with_mdcon(c: Core, mdcon: u8) -> Core
    ensures { result ≡ with_mdcon c mdcon }
{
    Core { mdcon, ..c }
}

pub fn with_polarity(c: Core, polarity: u8) -> Core
    ensures { result ≡ with_polarity c polarity }
{
    Core { polarity, ..c }
}

pub fn with_bt(c: Core, bt: u8) -> Core
    ensures { result ≡ with_bt c bt }
{
    Core { bt, ..c }
}

pub fn with_watchdog(c: Core, watchdog: u8) -> Core
    ensures { result ≡ with_watchdog c watchdog }
{
    Core { watchdog, ..c }
}

pub fn with_sync(c: Core, sync: Sync) -> Core
    ensures { result ≡ with_sync c sync }
{
    Core { sync, ..c }
}

pub fn with_bus(c: Core, bus: Bus) -> Core
    ensures { result ≡ with_bus c bus }
{
    Core { bus, ..c }
}

pub fn with_pins(c: Core, pins: Pins) -> Core
    ensures { result ≡ with_pins c pins }
{
    Core { pins, ..c }
}

pub fn with_sda(c: Core, sda: bool) -> Core
    ensures { result ≡ with_sda c sda }
{
    Core { sda, ..c }
}

pub fn with_scl(c: Core, scl: bool) -> Core
    ensures { result ≡ with_scl c scl }
{
    Core { scl, ..c }
}

pub fn with_reset(c: Core, reset: bool) -> Core
    ensures { result ≡ with_reset c reset }
{
    Core { reset, ..c }
}

// The core with these flags of IRQX set, whether enabled or not; the others stay.
pub fn raised(c: Core, flags: u8) -> Core
    ensures { result ≡ raised_of c flags }
{
    with_irqx(c, c.irqx | flags)
}

// ---- what other parts ask of a state

// The mode of DDC.
pub fn mode_of(c: Core) -> Mode
    ensures { result ≡ mode_of c }
{
    bus::mode_of(c.bus.iists, c.mdcon)
}

// HSEL, in MDCON.
pub fn hsel(c: Core) -> bool
    ensures { result ≡ hsel_of c }
{
    bits::bit(HSEL, c.mdcon)
}

// The request lines: the flags of IRQX that IEX enables.
#[tactic(auto, unfolding(crate::specs::State::requested))]
pub fn requested(irqx: u8, iex: u8) -> u8
    ensures { result ≡ requested_of irqx iex }
{
    irqx & iex
}

// The request lines of a chip.
pub fn requests(c: Chip) -> u8
    ensures { result ≡ requests_of c }
{
    requested(c.core.irqx, register_at(&c.registers, IEX))
}

// ---- reset

// Every part of the core at its reset value, at these outside levels.
#[tactic(auto, unfolding(crate::specs::State::reset_at))]
pub fn reset_at(pins: Pins, sda: bool, scl: bool, reset: bool) -> Core
    ensures { result ≡ reset_at pins sda scl reset }
{
    Core {
        irqx: registers::reset_value(IRQX),
        mdcon: registers::reset_value(MDCON),
        polarity: registers::reset_value(HVCON) & 0x0f,
        bt: registers::reset_value(BT),
        watchdog: 0,
        sync: sync::zero_sync(),
        bus: idle_bus(
            registers::reset_value(IISTS),
            registers::reset_value(IIADR),
            registers::reset_value(IIDAT),
        ),
        pins,
        sda,
        scl,
        reset,
    }
}

// A reset keeps the outside levels.
#[tactic(auto, unfolding(crate::specs::State::reset_core))]
pub fn reset_core(c: Core) -> Core
    ensures { result ≡ reset_core c }
{
    reset_at(c.pins, c.sda, c.scl, c.reset)
}

// A fresh chip: reset values, and all outside levels 1.
#[tactic(auto, unfolding(crate::specs::State::fresh))]
pub fn fresh() -> Chip
    ensures { result ≡ fresh_of }
{
    let pins = Pins {
        port0: 0xff,
        port1: 0x7f,
        port2: 0xff,
        hsynci: true,
        vsynci: true,
    };
    Chip {
        registers: registers::resets(),
        core: reset_at(pins, true, true, true),
    }
}

// ---- the array of stored registers

// The byte in a place of the array, 0 past it.
pub fn register_at(registers: &[u8], a: u8) -> u8
    ensures { result ≡ register_at registers.now a }
{
    registers.get(usize::from(a)).copied().unwrap_or(0)
}

// A byte put in a place of the array; past it nothing is written.
fn store(registers: &mut [u8], a: u8, b: u8)
    ensures { registers.new ≡ set registers.old a b }
{
    // By index: over `get_mut` the search does not find that the slice ends with the byte put.
    let i = a as usize;
    if i < registers.len() {
        registers[i] = b;
    }
}

// The array after an event.
pub fn keep(registers: &mut [u8; 38], kept: Kept)
    ensures { registers.new ≡ keep_of kept registers.old }
{
    match kept {
        Kept::Same => {}
        Kept::Stored(a, b) => store(registers, a, b),
        Kept::Reset => *registers = registers::resets(),
    }
}
