// Writes to the registers of DDC: II ADR, II DAT, II STS, and MDCON, whose HSEL is in it too.
#![tactic(auto)]

ghost use Rattle.std.specs.Prelude.{◌≡◌};
ghost use Rattle.chip_ddc_writes.specs.DdcWrites.{sync_at_hsel, mdcon_written, iiadr_written, status_written, iists_written, with_iidat, bus_let_go, bus_risen, bus_at_iidat, iidat_written};

use chip::{Bus, Core};
use registers::{HSEL, IIADR, IIDAT, IISTS, MDCON, TRX};
use sync::Sync;

#[tactic(auto, unfolding(crate::specs::DdcWrites::sync_at_hsel))]
fn sync_at_hsel(old: bool, new: bool, s: Sync) -> Sync
    ensures { result ≡ sync_at_hsel old new s }
{
    if old && !new {
        sync::hsel_cleared(s)
    } else {
        s
    }
}

// MDCON: HSEL cleared starts the count of lines anew, MD1/2 changed while DDC is on releases the bus.
#[tactic(auto, unfolding(crate::specs::DdcWrites::mdcon_written))]
pub fn mdcon_written(c: Core, b: u8) -> Core
    ensures { result ≡ mdcon_written c b }
{
    let old = c.mdcon;
    let new = registers::updated(MDCON, old, b);
    let after = sync_at_hsel(bits::bit(HSEL, old), bits::bit(HSEL, new), c.sync);
    let moved = chip_edges::bus_at_mode(
        bus::mode_of(c.bus.iists, old),
        bus::mode_of(c.bus.iists, new),
        c.bus,
    );
    chip::with_bus(chip::with_sync(chip::with_mdcon(c, new), after), moved)
}

// II ADR: bits 7 to 1 are stored.
#[tactic(auto, unfolding(crate::specs::DdcWrites::iiadr_written))]
pub fn iiadr_written(c: Core, b: u8) -> Core
    ensures { result ≡ iiadr_written c b }
{
    let after = Bus {
        iiadr: registers::updated(IIADR, c.bus.iiadr, b),
        ..c.bus
    };
    chip::with_bus(c, after)
}

#[tactic(auto, unfolding(crate::specs::DdcWrites::status_written))]
fn status_written(old: u8, b: u8) -> u8
    ensures { result ≡ status_written old b }
{
    registers::updated(IISTS, old, b) & (b | 0xcf)
}

// II STS: ENDDC, TRX and TXAK are stored, START and STOP cleared by a 0; ENDDC changed releases the bus.
#[tactic(auto, unfolding(crate::specs::DdcWrites::iists_written))]
pub fn iists_written(c: Core, b: u8) -> Core
    ensures { result ≡ iists_written c b }
{
    let old = c.bus.iists;
    let new = status_written(old, b);
    let after = chip_edges::bus_at_mode(
        bus::mode_of(old, c.mdcon),
        bus::mode_of(new, c.mdcon),
        Bus {
            iists: new,
            ..c.bus
        },
    );
    chip::with_bus(c, after)
}

fn with_iidat(b: u8, wires: Bus) -> Bus
    ensures { result ≡ with_iidat b wires }
{
    Bus {
        iidat: registers::updated(IIDAT, wires.iidat, b),
        ..wires
    }
}

fn bus_let_go(b: u8, wires: Bus) -> Bus
    ensures { result ≡ bus_let_go b wires }
{
    let trx = bits::bit(TRX, wires.iists);
    Bus {
        phase: bus_ddc2b::phase_let_go(bus::compared_in(wires.phase), trx, b),
        ..with_iidat(b, wires)
    }
}

// SDA's outside level is handed on: where a rise looks at SDA, the chip does not pull it.
#[tactic(auto, unfolding(crate::specs::DdcWrites::bus_risen))]
fn bus_risen(scl: bool, sda: bool, wires: Bus) -> Bus
    ensures { result ≡ bus_risen scl sda wires }
{
    if scl {
        chip_edges::bus_at_rise(sda, wires)
    } else {
        wires
    }
}

#[tactic(auto, unfolding(crate::specs::DdcWrites::bus_at_iidat))]
fn bus_at_iidat(scl: bool, sda: bool, b: u8, wires: Bus) -> Bus
    ensures { result ≡ bus_at_iidat scl sda b wires }
{
    if bus::pulls_scl(wires.phase) {
        bus_risen(scl, sda, bus_let_go(b, wires))
    } else {
        with_iidat(b, wires)
    }
}

// II DAT: stored; while SCL is held, it is let go too.
#[tactic(auto, unfolding(crate::specs::DdcWrites::iidat_written))]
pub fn iidat_written(c: Core, b: u8) -> Core
    ensures { result ≡ iidat_written c b }
{
    chip::with_bus(c, bus_at_iidat(c.scl, c.sda, b, c.bus))
}
