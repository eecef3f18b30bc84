// Reads: what each register shows of a chip, and which reads are refused.
#![tactic(auto)]

ghost use Rattle.std.specs.Prelude.{◌≡◌};
ghost use Rattle.chip.specs.State.{chip_of};
ghost use Rattle.chip_reads.specs.Reads.{port_read, given0 as given_of0, given1 as given_of1, port0 as port_of0, port1 as port_of1, port2 as port_of2, port3 as port_of3, hvcon as hvcon_of, shown as shown_of, reading_of, reading};

use chip::Core;
use registers::{
    ENDAC, ENDDC, HCNTH, HCNTL, HCNTOV, HSYNCI, HVCON, IIDAT, IISTS, IRQX, MDCON, PT0, PT1, PT2,
    PT2DIR, PT3, SYNCON, VCNTH, VCNTL, VCNTOV, VSYNCI,
};

// What a read gives: its number, and the byte where that is 0.
#[derive(Clone, Copy)]
pub struct Reading {
    pub number: u8,
    pub byte: u8,
}

fn port_read(latch: u8, level: u8, given: u8) -> u8
    ensures { result ≡ port_read latch level given }
{
    latch & (level | given)
}

fn given0(endac: u8, syncon: u8) -> u8
    ensures { result ≡ given_of0 endac syncon }
{
    (255 - endac) % 64 + (255 - syncon) % 4 * 64
}

fn given1(endac: u8, syncon: u8) -> u8
    ensures { result ≡ given_of1 endac syncon }
{
    (255 - endac) / 64 + (255 - syncon) / 64 % 2 * 12
}

#[tactic(auto, unfolding(crate::specs::Reads::port0))]
fn port0(registers: &[u8; 38], c: Core) -> u8
    ensures { result ≡ port_of0 (chip_of registers.now c) }
{
    port_read(
        chip::register_at(registers, PT0),
        c.pins.port0,
        given0(
            chip::register_at(registers, ENDAC),
            chip::register_at(registers, SYNCON),
        ),
    )
}

#[tactic(auto, unfolding(crate::specs::Reads::port1))]
fn port1(registers: &[u8; 38], c: Core) -> u8
    ensures { result ≡ port_of1 (chip_of registers.now c) }
{
    port_read(
        chip::register_at(registers, PT1),
        c.pins.port1,
        given1(
            chip::register_at(registers, ENDAC),
            chip::register_at(registers, SYNCON),
        ),
    )
}

#[tactic(auto, unfolding(crate::specs::Reads::port2))]
fn port2(registers: &[u8; 38], c: Core) -> u8
    ensures { result ≡ port_of2 (chip_of registers.now c) }
{
    bits::merge(
        chip::register_at(registers, PT2DIR),
        c.pins.port2,
        chip::register_at(registers, PT2),
    )
}

#[tactic(auto, unfolding(crate::specs::Reads::port3))]
fn port3(registers: &[u8; 38], c: Core) -> u8
    ensures { result ≡ port_of3 (chip_of registers.now c) }
{
    let latch = chip::register_at(registers, PT3);
    if bits::bit(ENDDC, c.bus.iists) {
        latch & (bits::weight_if(c.scl, 1) | bits::weight_if(c.sda, 0))
    } else {
        latch
    }
}

#[tactic(auto, unfolding(crate::specs::Reads::hvcon))]
fn hvcon(c: Core) -> u8
    ensures { result ≡ hvcon_of c }
{
    (bits::weight_if(c.sync.lines.overflow, HCNTOV)
        | bits::weight_if(c.sync.periods.overflow, VCNTOV))
        | ((bits::weight_if(c.pins.hsynci, HSYNCI) | bits::weight_if(c.pins.vsynci, VSYNCI))
            | c.polarity)
}

// What a register shows before its read mask.
#[tactic(auto, unfolding(crate::specs::Reads::shown))]
fn shown(registers: &[u8; 38], c: Core, a: u8) -> u8
    ensures { result ≡ shown_of (chip_of registers.now c) a }
{
    match a {
        PT0 => port0(registers, c),
        PT1 => port1(registers, c),
        PT2 => port2(registers, c),
        PT3 => port3(registers, c),
        MDCON => c.mdcon,
        HVCON => hvcon(c),
        HCNTL => (c.sync.lines.latch.0 % 256) as u8,
        HCNTH => (c.sync.lines.latch.0 / 256) as u8,
        VCNTL => (c.sync.periods.latch.0 % 256) as u8,
        VCNTH => (c.sync.periods.latch.0 / 256) as u8,
        IRQX => c.irqx,
        IIDAT => c.bus.iidat,
        IISTS => c.bus.iists,
        _ => chip::register_at(registers, a),
    }
}

fn reading_of(number: u8, byte: u8) -> Reading
    ensures { result ≡ reading_of number byte }
{
    Reading { number, byte }
}

// A read: its number and byte. It never moves the chip.
#[tactic(auto, unfolding(crate::specs::Reads::reading))]
pub fn read_register(registers: &[u8; 38], c: Core, a: u8) -> Reading
    ensures { result ≡ reading (chip_of registers.now c) a }
{
    if c.reset {
        let row = registers::row_of(a);
        if row.readable {
            reading_of(0, shown(registers, c, a) & row.read)
        } else {
            reading_of(5, 0)
        }
    } else {
        reading_of(4, 0)
    }
}
