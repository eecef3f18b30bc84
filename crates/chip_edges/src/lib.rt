// Edges of SCL and SDA, and rises of VSYNCI in DDC1.
#![tactic(auto)]

ghost use Rattle.std.specs.Prelude.{◌≡◌};
ghost use Rattle.bus.specs.Bus.{edge, line, pulls_sda, pulls_scl};
ghost use Rattle.chip.specs.State.{bus_of, with_sda, with_scl};
ghost use Rattle.chip_edges.specs.Edges.{with_phase, active_mode, bus_at_mode, bus_at_rise, scl_rise, scl_fall, leave_ddc1, on_scl_ddc1, on_scl_ddc2b, scl_moved, started as started_of, stopped as stopped_of, on_sda_ddc2b, sda_moved, bus_at_vsync, loads_at_vsync};

use bus::{Edge, Mode, Phase, Shifter};
use bus_ddc2b::Risen;
use chip::{Bus, Core};
use registers::{INTS, MD12, START, STOP};

// The bus with its phase put anew.
pub fn with_phase(b: Bus, phase: Phase) -> Bus
    ensures { result ≡ with_phase b phase }
{
    Bus { phase, ..b }
}

// The mode that edges meet: off while RESET is low, whatever ENDDC says.
pub fn active_mode(c: Core) -> Mode
    ensures { result ≡ active_mode c }
{
    if c.reset { chip::mode_of(c) } else { Mode::Off }
}

// The bus after the mode goes from one to another: released where the two differ, else as it was.
#[tactic(auto, unfolding(crate::specs::Edges::bus_at_mode))]
pub fn bus_at_mode(old: Mode, new: Mode, b: Bus) -> Bus
    ensures { result ≡ bus_at_mode old new b }
{
    if bus::changes_mode(old, new) {
        chip::released(b)
    } else {
        b
    }
}

fn bus_risen(b: Bus, r: Risen) -> Bus
    ensures { result ≡ bus_of r.iists b.iiadr r.iidat r.phase b.shifter }
{
    Bus {
        iists: r.iists,
        iidat: r.iidat,
        phase: r.phase,
        ..b
    }
}

// The bus after a rise of the SCL line in DDC2B, at the SDA line's level: status, II DAT and phase.
#[tactic(auto, unfolding(crate::specs::Edges::bus_at_rise, bus_ddc2b::specs::Ddc2b::at_rise))]
pub fn bus_at_rise(sda: bool, b: Bus) -> Bus
    ensures { result ≡ bus_at_rise sda b }
{
    bus_risen(
        b,
        bus_ddc2b::at_rise(b.iiadr, sda, b.iists, b.iidat, b.phase),
    )
}

// SDA's outside level is handed on: where a rise looks at SDA, the chip does not pull it.
fn scl_rise(c: Core) -> Core
    ensures { result ≡ scl_rise c }
{
    let b = c.bus;
    let r = bus_ddc2b::at_rise(b.iiadr, c.sda, b.iists, b.iidat, b.phase);
    chip::with_bus(chip::raised(c, r.flags), bus_risen(b, r))
}

#[tactic(auto, unfolding(crate::specs::Edges::scl_fall, bus_ddc2b::specs::Ddc2b::at_fall))]
fn scl_fall(c: Core) -> Core
    ensures { result ≡ scl_fall c }
{
    let b = c.bus;
    let f = bus_ddc2b::at_fall(b.iists, b.phase);
    chip::with_bus(chip::raised(c, f.flags), with_phase(b, f.phase))
}

#[tactic(auto, unfolding(crate::specs::Edges::leave_ddc1))]
fn leave_ddc1(c: Core) -> Core
    ensures { result ≡ leave_ddc1 c }
{
    let n = chip::with_mdcon(
        chip::raised(c, 1 << INTS),
        bits::with_bit(c.mdcon, MD12, false),
    );
    chip::with_bus(n, chip::released(c.bus))
}

#[tactic(auto, unfolding(crate::specs::Edges::on_scl_ddc1))]
fn on_scl_ddc1(e: Edge, c: Core) -> Core
    ensures { result ≡ on_scl_ddc1 e c }
{
    match e {
        Edge::Flat | Edge::Rise => c,
        Edge::Fall => leave_ddc1(c),
    }
}

#[tactic(auto, unfolding(crate::specs::Edges::on_scl_ddc2b))]
fn on_scl_ddc2b(e: Edge, c: Core) -> Core
    ensures { result ≡ on_scl_ddc2b e c }
{
    match e {
        Edge::Flat => c,
        Edge::Rise => scl_rise(c),
        Edge::Fall => scl_fall(c),
    }
}

fn scl_moved_in_ddc2b(c: Core, level: bool) -> Core
    ensures { result ≡ on_scl_ddc2b (edge (line (pulls_scl c.bus.phase) c.scl) (line (pulls_scl c.bus.phase) level)) (with_scl c level) }
{
    let pulled = bus::pulls_scl(c.bus.phase);
    let e = bus::edge_between(
        bus::line_level(pulled, c.scl),
        bus::line_level(pulled, level),
    );
    on_scl_ddc2b(e, chip::with_scl(c, level))
}

// SCL's outside level is put. An edge is one of the line: while the chip holds SCL there is none.
#[tactic(auto, unfolding(crate::specs::Edges::scl_moved, crate::specs::Edges::on_scl, bus::specs::Bus::scl_pulled))]
pub fn scl_moved(c: Core, level: bool) -> Core
    ensures { result ≡ scl_moved c level }
{
    match active_mode(c) {
        Mode::Off => chip::with_scl(c, level),
        Mode::Ddc1 => on_scl_ddc1(bus::edge_between(c.scl, level), chip::with_scl(c, level)),
        Mode::Ddc2b => scl_moved_in_ddc2b(c, level),
    }
}

#[tactic(auto, unfolding(crate::specs::Edges::started))]
fn started(c: Core) -> Core
    ensures { result ≡ started_of c }
{
    let after = Bus {
        iists: c.bus.iists | (1 << START),
        phase: Phase::Address { count: 0, bits: 0 },
        ..c.bus
    };
    chip::with_bus(c, after)
}

#[tactic(auto, unfolding(crate::specs::Edges::stopped))]
fn stopped(c: Core) -> Core
    ensures { result ≡ stopped_of c }
{
    let after = Bus {
        iists: c.bus.iists | (1 << STOP),
        phase: Phase::Idle,
        ..c.bus
    };
    chip::with_bus(c, after)
}

#[tactic(auto, unfolding(crate::specs::Edges::on_sda_ddc2b))]
fn on_sda_ddc2b(high: bool, e: Edge, c: Core) -> Core
    ensures { result ≡ on_sda_ddc2b high e c }
{
    match e {
        Edge::Rise if high => stopped(c),
        Edge::Fall if high => started(c),
        _ => c,
    }
}

fn sda_moved_in_ddc2b(c: Core, level: bool) -> Core
    ensures { result ≡ on_sda_ddc2b (line (pulls_scl c.bus.phase) c.scl) (edge (line (pulls_sda c.bus.phase) c.sda) (line (pulls_sda c.bus.phase) level)) (with_sda c level) }
{
    let high = bus::line_level(bus::pulls_scl(c.bus.phase), c.scl);
    let pulled = bus::pulls_sda(c.bus.phase);
    let e = bus::edge_between(
        bus::line_level(pulled, c.sda),
        bus::line_level(pulled, level),
    );
    on_sda_ddc2b(high, e, chip::with_sda(c, level))
}

// SDA's outside level is put. With the SCL line high, a fall of the SDA line is a START and a rise a STOP.
#[tactic(auto, unfolding(crate::specs::Edges::sda_moved, crate::specs::Edges::on_sda, bus::specs::Bus::sda_pulled, bus::specs::Bus::scl_pulled))]
pub fn sda_moved(c: Core, level: bool) -> Core
    ensures { result ≡ sda_moved c level }
{
    match active_mode(c) {
        Mode::Off | Mode::Ddc1 => chip::with_sda(c, level),
        Mode::Ddc2b => sda_moved_in_ddc2b(c, level),
    }
}

// The bus after a rise of VSYNCI: in DDC1 the register shifts or loads, else nothing moves.
#[tactic(auto, unfolding(crate::specs::Edges::bus_at_vsync))]
pub fn bus_at_vsync(mode: Mode, b: Bus) -> Bus
    ensures { result ≡ bus_at_vsync mode b }
{
    match mode {
        Mode::Off | Mode::Ddc2b => b,
        Mode::Ddc1 => bus_shifted(b),
    }
}

#[tactic(auto, unfolding(crate::specs::Edges::bus_at_vsync))]
fn bus_shifted(b: Bus) -> Bus
    ensures { result ≡ bus_at_vsync Mode.Ddc1 b }
{
    Bus {
        shifter: bus::shifter_at_rise(b.iidat, b.shifter),
        ..b
    }
}

// A rise of VSYNCI loads II DAT: in DDC1, with no edges left.
#[tactic(auto, unfolding(crate::specs::Edges::loads_at_vsync))]
pub fn loads_at_vsync(mode: Mode, s: Shifter) -> bool
    ensures { result ≡ loads_at_vsync mode s }
{
    matches!(mode, Mode::Ddc1) && bus::loads_at_rise(s)
}
