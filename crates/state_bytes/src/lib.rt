// The state as 128 bytes, in the layout of docs/STATE.md, and the state that bytes are read as.
#![tactic(auto)]

ghost use Rattle.std.specs.Prelude.{◌≡◌, ◌+◌, ◌≤◌, ◌++◌, length, take, drop};
ghost use Rattle.state_bytes.specs.Layout.{low as low_of, high as high_of, word as word_of, own_number, own_of, ninth_count, fields_of, phase_of, sync_of, bus_of, core_bytes, core_of, bytes_of, state_of};

use bus::{OwnAddress, Phase, Shifter};
use chip::{Bus, Chip, Core, Pins};
use sync::{LatchedLines, LatchedPeriods, LineCounter, Lines, PeriodCounter, Periods, Sync};

// A phase as numbers: its own, and what goes with it, 0 where that phase has none.
#[derive(Clone, Copy)]
pub struct PhaseFields {
    pub number: u8,
    pub matched: u8,
    pub count: u8,
    pub bits: u8,
    pub clocks: u16,
}

fn low(n: u16) -> u8
    ensures { result ≡ low_of n }
{
    (n % 256) as u8
}

fn high(n: u16) -> u8
    ensures { result ≡ high_of n }
{
    (n / 256) as u8
}

fn word(l: u8, h: u8) -> u16
    ensures { result ≡ word_of l h }
{
    (l as u16) + (h as u16) * 256
}

fn own_number(matched: OwnAddress) -> u8
    ensures { result ≡ own_number matched }
{
    match matched {
        OwnAddress::A0 => 1,
        OwnAddress::IiAdr => 2,
        OwnAddress::Both => 3,
    }
}

fn own_of(n: u8) -> OwnAddress
    ensures { result ≡ own_of n }
{
    match n {
        1 => OwnAddress::A0,
        2 => OwnAddress::IiAdr,
        _ => OwnAddress::Both,
    }
}

fn ninth_count(ninth: bool) -> u8
    ensures { result ≡ ninth_count ninth }
{
    if ninth { 9 } else { 8 }
}

fn fields_of(phase: Phase) -> PhaseFields
    ensures { result ≡ fields_of phase }
{
    match phase {
        Phase::Idle => PhaseFields {
            number: 0,
            matched: 0,
            count: 0,
            bits: 0,
            clocks: 0,
        },
        Phase::Address { count, bits } => PhaseFields {
            number: 1,
            matched: 0,
            count: count,
            bits: bits,
            clocks: 0,
        },
        Phase::Addressed {
            matched,
            bits,
            ninth,
        } => PhaseFields {
            number: 2,
            matched: own_number(matched),
            count: ninth_count(ninth),
            bits: bits,
            clocks: 0,
        },
        Phase::Ignoring => PhaseFields {
            number: 3,
            matched: 0,
            count: 0,
            bits: 0,
            clocks: 0,
        },
        Phase::Receive {
            matched,
            count,
            bits,
        } => PhaseFields {
            number: 4,
            matched: own_number(matched),
            count: count,
            bits: bits,
            clocks: 0,
        },
        Phase::Transmit {
            matched,
            count,
            byte,
        } => PhaseFields {
            number: 5,
            matched: own_number(matched),
            count: count,
            bits: byte,
            clocks: 0,
        },
        Phase::Held { matched, clocks } => PhaseFields {
            number: 6,
            matched: own_number(matched),
            count: 0,
            bits: 0,
            clocks: clocks,
        },
    }
}

fn phase_of(f: PhaseFields) -> Phase
    ensures { result ≡ phase_of f }
{
    let number = f.number;
    match number {
        0 => Phase::Idle,
        1 => Phase::Address {
            count: f.count,
            bits: f.bits,
        },
        2 => Phase::Addressed {
            matched: own_of(f.matched),
            bits: f.bits,
            ninth: f.count == 9,
        },
        3 => Phase::Ignoring,
        4 => Phase::Receive {
            matched: own_of(f.matched),
            count: f.count,
            bits: f.bits,
        },
        5 => Phase::Transmit {
            matched: own_of(f.matched),
            count: f.count,
            byte: f.bits,
        },
        _ => Phase::Held {
            matched: own_of(f.matched),
            clocks: f.clocks,
        },
    }
}

fn core_bytes(c: Core) -> [u8; 36]
    ensures { result ≡ core_bytes c }
{
    let bus = c.bus;
    let phase = bus.phase;
    let f = fields_of(phase);
    [
        c.irqx,
        c.mdcon,
        c.polarity,
        c.bt,
        c.watchdog,
        low(c.sync.lines.count.0),
        high(c.sync.lines.count.0),
        low(c.sync.lines.latch.0),
        high(c.sync.lines.latch.0),
        bits::num(c.sync.lines.overflow),
        low(c.sync.periods.count.0),
        high(c.sync.periods.count.0),
        low(c.sync.periods.latch.0),
        high(c.sync.periods.latch.0),
        bits::num(c.sync.periods.overflow),
        low(c.sync.interval),
        high(c.sync.interval),
        c.bus.iiadr,
        c.bus.iists,
        c.bus.iidat,
        c.bus.shifter.register,
        c.bus.shifter.edges,
        f.number,
        f.matched,
        f.count,
        f.bits,
        low(f.clocks),
        high(f.clocks),
        c.pins.port0,
        c.pins.port1,
        c.pins.port2,
        bits::num(c.pins.hsynci),
        bits::num(c.pins.vsynci),
        bits::num(c.sda),
        bits::num(c.scl),
        bits::num(c.reset),
    ]
}

// A part put into an area at an index.
fn put_at(area: &mut [u8], at: usize, part: &[u8])
    requires { at + length part.now ≤ length area.old }
    ensures { area.new ≡ take at area.old ++ (part.now ++ drop (at + length part.now) area.old) }
{
    byte_copy::copy(part, &mut area[at..]);
}

// The bytes of a state: its core, zeros, and its 38 stored registers at the end.
pub fn bytes_of(c: Chip) -> [u8; 128]
    ensures { result ≡ bytes_of c }
{
    let core = c.core;
    let front = core_bytes(core);
    let registers = c.registers;
    let mut out = [0u8; 128];
    byte_copy::copy(&front, &mut out);
    put_at(&mut out, 90, &registers);
    out
}

fn sync_of(bytes: &[u8; 128]) -> Sync
    ensures { result ≡ sync_of bytes.now }
{
    Sync {
        lines: LineCounter {
            count: Lines(word(bytes[5], bytes[6])),
            latch: LatchedLines(word(bytes[7], bytes[8])),
            overflow: bytes[9] == 1,
        },
        periods: PeriodCounter {
            count: Periods(word(bytes[10], bytes[11])),
            latch: LatchedPeriods(word(bytes[12], bytes[13])),
            overflow: bytes[14] == 1,
        },
        interval: word(bytes[15], bytes[16]),
    }
}

fn bus_of(bytes: &[u8; 128]) -> Bus
    ensures { result ≡ bus_of bytes.now }
{
    Bus {
        iiadr: bytes[17],
        iists: bytes[18],
        iidat: bytes[19],
        phase: phase_of(PhaseFields {
            number: bytes[22],
            matched: bytes[23],
            count: bytes[24],
            bits: bytes[25],
            clocks: word(bytes[26], bytes[27]),
        }),
        shifter: Shifter {
            register: bytes[20],
            edges: bytes[21],
        },
    }
}

fn core_of(bytes: &[u8; 128]) -> Core
    ensures { result ≡ core_of bytes.now }
{
    Core {
        irqx: bytes[0],
        mdcon: bytes[1],
        polarity: bytes[2],
        bt: bytes[3],
        watchdog: bytes[4],
        sync: sync_of(bytes),
        bus: bus_of(bytes),
        pins: Pins {
            port0: bytes[28],
            port1: bytes[29],
            port2: bytes[30],
            hsynci: bytes[31] == 1,
            vsynci: bytes[32] == 1,
        },
        sda: bytes[33] == 1,
        scl: bytes[34] == 1,
        reset: bytes[35] == 1,
    }
}

fn registers_of(area: &[u8]) -> [u8; 38]
    requires { length area.now ≡ 128 }
    ensures { result ≡ drop 90 area.now }
{
    let mut registers = [0u8; 38];
    byte_copy::copy(&area[90..], &mut registers);
    registers
}

// The state that 128 bytes are read as, whatever they are.
pub fn state_of(bytes: &[u8; 128]) -> Chip
    ensures { result ≡ state_of bytes.now }
{
    Chip {
        registers: registers_of(bytes),
        core: core_of(bytes),
    }
}
