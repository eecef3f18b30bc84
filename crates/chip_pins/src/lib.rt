// What a pin's new outside level does to the chip.
#![tactic(auto)]

ghost use Rattle.std.specs.Prelude.{◌≡◌};
ghost use Rattle.chip_pins.specs.Pins.{port_kind, pin_kind, rises as rises_of, port0_moved, port1_moved, port2_moved, p16_moved, hsync_level, vsync_level, hsync_moved, vsync_rise, vsync_moved, on_reset, reset_moved, pin_moved_as, pin_moved};

use bus::Edge;
use chip::{Core, Pins};
use events::{HSYNCI, P16, RESET, SCL, SDA, VSYNCI};
use registers::{INTD, INTE, INTV};

// What a pin is.
#[derive(Clone, Copy)]
pub enum PinKind {
    Port0,
    Port1,
    P16,
    Port2,
    Sda,
    Scl,
    Hsynci,
    Vsynci,
    Reset,
    Absent,
}

// The port of a number that `pin_kind` does not name; 15 and numbers from 24 on are no pin of a port.
#[tactic(auto, unfolding(crate::specs::Pins::port_kind))]
fn port_kind(p: u8) -> PinKind
    ensures { result ≡ port_kind p }
{
    match p {
        0..=7 => PinKind::Port0,
        8..=14 => PinKind::Port1,
        16..=23 => PinKind::Port2,
        _ => PinKind::Absent,
    }
}

// What the pin of this number is.
#[tactic(auto, unfolding(crate::specs::Pins::pin_kind))]
pub fn pin_kind(p: u8) -> PinKind
    ensures { result ≡ pin_kind p }
{
    match p {
        P16 => PinKind::P16,
        SDA => PinKind::Sda,
        SCL => PinKind::Scl,
        HSYNCI => PinKind::Hsynci,
        VSYNCI => PinKind::Vsynci,
        RESET => PinKind::Reset,
        _ => port_kind(p),
    }
}

// A rise that the chip acts on.
fn rises(reset: bool, old: bool, new: bool) -> bool
    ensures { result ≡ rises_of reset old new }
{
    reset && !old && new
}

#[tactic(auto, unfolding(crate::specs::Pins::port0_moved))]
fn port0_moved(c: Core, p: u8, level: bool) -> Core
    ensures { result ≡ port0_moved c p level }
{
    let after = Pins {
        port0: bits::with_bit(c.pins.port0, p, level),
        ..c.pins
    };
    chip::with_pins(c, after)
}

#[tactic(auto, unfolding(crate::specs::Pins::port1_moved))]
fn port1_moved(c: Core, p: u8, level: bool) -> Core
    ensures { result ≡ port1_moved c p level }
{
    let after = Pins {
        port1: bits::with_bit(c.pins.port1, p, level),
        ..c.pins
    };
    chip::with_pins(c, after)
}

#[tactic(auto, unfolding(crate::specs::Pins::port2_moved))]
fn port2_moved(c: Core, p: u8, level: bool) -> Core
    ensures { result ≡ port2_moved c p level }
{
    let after = Pins {
        port2: bits::with_bit(c.pins.port2, p, level),
        ..c.pins
    };
    chip::with_pins(c, after)
}

#[tactic(auto, unfolding(crate::specs::Pins::p16_moved))]
fn p16_moved(c: Core, level: bool) -> Core
    ensures { result ≡ p16_moved c level }
{
    let rise = rises(c.reset, bits::bit(P16, c.pins.port1), level);
    let flags = bits::weight_if(rise, INTE);
    port1_moved(chip::raised(c, flags), P16, level)
}

fn hsync_level(c: Core, level: bool) -> Core
    ensures { result ≡ hsync_level c level }
{
    let after = Pins {
        hsynci: level,
        ..c.pins
    };
    chip::with_pins(c, after)
}

fn vsync_level(c: Core, level: bool) -> Core
    ensures { result ≡ vsync_level c level }
{
    let after = Pins {
        vsynci: level,
        ..c.pins
    };
    chip::with_pins(c, after)
}

#[tactic(auto, unfolding(crate::specs::Pins::hsync_moved))]
fn hsync_moved(c: Core, level: bool) -> Core
    ensures { result ≡ hsync_moved c level }
{
    let n = hsync_level(c, level);
    if rises(c.reset, c.pins.hsynci, level) {
        chip::with_sync(n, sync::on_hsync(c.sync))
    } else {
        n
    }
}

#[tactic(auto, unfolding(crate::specs::Pins::vsync_rise))]
fn vsync_rise(c: Core) -> Core
    ensures { result ≡ vsync_rise c }
{
    let mode = chip::mode_of(c);
    let flags = bits::weight_if(chip_edges::loads_at_vsync(mode, c.bus.shifter), INTD);
    let n = chip::with_sync(
        chip::raised(c, (1 << INTV) | flags),
        sync::on_vsync(chip::hsel(c), c.sync),
    );
    chip::with_bus(n, chip_edges::bus_at_vsync(mode, c.bus))
}

#[tactic(auto, unfolding(crate::specs::Pins::vsync_moved))]
fn vsync_moved(c: Core, level: bool) -> Core
    ensures { result ≡ vsync_moved c level }
{
    let n = vsync_level(c, level);
    if rises(c.reset, c.pins.vsynci, level) {
        vsync_rise(n)
    } else {
        n
    }
}

#[tactic(auto, unfolding(crate::specs::Pins::on_reset))]
fn on_reset(e: Edge, c: Core) -> Core
    ensures { result ≡ on_reset e c }
{
    match e {
        Edge::Flat | Edge::Rise => c,
        Edge::Fall => chip::reset_core(c),
    }
}

#[tactic(auto, unfolding(crate::specs::Pins::reset_moved))]
fn reset_moved(c: Core, level: bool) -> Core
    ensures { result ≡ reset_moved c level }
{
    let e = bus::edge_between(c.reset, level);
    on_reset(e, chip::with_reset(c, level))
}

#[tactic(auto, unfolding(crate::specs::Pins::pin_moved_as))]
fn pin_moved_as(kind: PinKind, c: Core, p: u8, level: bool) -> Core
    ensures { result ≡ pin_moved_as kind c p level }
{
    match kind {
        PinKind::Port0 => port0_moved(c, p, level),
        PinKind::Port1 => port1_moved(c, p, level),
        PinKind::P16 => p16_moved(c, level),
        PinKind::Port2 => port2_moved(c, p, level),
        PinKind::Sda => chip_edges::sda_moved(c, level),
        PinKind::Scl => chip_edges::scl_moved(c, level),
        PinKind::Hsynci => hsync_moved(c, level),
        PinKind::Vsynci => vsync_moved(c, level),
        PinKind::Reset => reset_moved(c, level),
        PinKind::Absent => c,
    }
}

// The chip after a pin's outside level is put. While RESET is low only the level moves.
#[tactic(auto, unfolding(crate::specs::Pins::pin_moved))]
pub fn pin_moved(c: Core, p: u8, level: bool) -> Core
    ensures { result ≡ pin_moved c p level }
{
    pin_moved_as(pin_kind(p), c, p, level)
}
