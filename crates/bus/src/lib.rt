// The bus: modes, edges of lines, the phases of a transfer, what the chip pulls, and the shift register of DDC1.
#![tactic(auto)]

ghost use Rattle.std.specs.Prelude.{◌≡◌};
ghost use Rattle.bus.specs.Bus.{edge, mode, mode_number, changes_mode, line, pulls_at_bit, pulls_sda, pulls_scl, sda_pulled, scl_pulled, compared_in};
ghost use Rattle.bus.specs.Ddc1.{loads_at_rise, shifter_at_rise};

use registers::{ENDDC, MD12};

// DDC off, or on in one of its two modes.
#[derive(Clone, Copy)]
pub enum Mode {
    Off,
    Ddc1,
    Ddc2b,
}

// What a change of level is.
#[derive(Clone, Copy)]
pub enum Edge {
    Flat,
    Rise,
    Fall,
}

// Which of the chip's two addresses a matched one was: A0H, that of II ADR, or both where the two are the same.
#[derive(Clone, Copy)]
pub enum OwnAddress {
    A0,
    IiAdr,
    Both,
}

// What comparing an address with the chip's two gives (document 02, Wish 12).
#[derive(Clone, Copy)]
pub enum Comparison {
    None,
    Own(OwnAddress),
}

// The phase of the bus (document 01, "The forms we expect"). An address gathers up to seven bits; with its eighth it is the chip's
// own, `Addressed`, or the bus is ignored. `ninth`: the eighth fall has pulled SDA, and the ninth clock runs. A receive counts the
// bits gathered, 0 to 8; in the ninth clock it stands at 9 where SDA is pulled (ACK) and at 10 where it is released (NACK). A
// transmit counts the bits put out, 1 to 8; at 9 the acknowledge is awaited and at 10 it has been taken. `Held`: the chip holds SCL
// low (clock stretching), for so many clocks of 8 µs. The phases of a transfer with the chip, and no others, keep which of its
// addresses it was called by; it stands first, so that all have it in one place.
#[derive(Clone, Copy)]
pub enum Phase {
    Idle,
    Address {
        count: u8,
        bits: u8,
    },
    Addressed {
        matched: OwnAddress,
        bits: u8,
        ninth: bool,
    },
    Ignoring,
    Receive {
        matched: OwnAddress,
        count: u8,
        bits: u8,
    },
    Transmit {
        matched: OwnAddress,
        count: u8,
        byte: u8,
    },
    Held {
        matched: OwnAddress,
        clocks: u16,
    },
}

// The shift register of DDC1, and the rises of VSYNCI left before the next load.
#[derive(Clone, Copy)]
pub struct Shifter {
    pub register: u8,
    pub edges: u8,
}

// The edge from one level to the next.
pub fn edge_between(old: bool, new: bool) -> Edge
    ensures { result ≡ edge old new }
{
    match (old, new) {
        (false, true) => Edge::Rise,
        (true, false) => Edge::Fall,
        _ => Edge::Flat,
    }
}

// The mode by ENDDC of II STS and MD1/2 of MDCON.
#[tactic(auto, unfolding(crate::specs::Bus::mode))]
pub fn mode_of(status: u8, mdcon: u8) -> Mode
    ensures { result ≡ mode status mdcon }
{
    if bits::bit(ENDDC, status) {
        return Mode::Off;
    }
    if bits::bit(MD12, mdcon) {
        Mode::Ddc1
    } else {
        Mode::Ddc2b
    }
}

fn mode_number(mode: Mode) -> u8
    ensures { result ≡ mode_number mode }
{
    match mode {
        Mode::Off => 0,
        Mode::Ddc1 => 1,
        Mode::Ddc2b => 2,
    }
}

// The two modes differ.
#[tactic(auto, unfolding(crate::specs::Bus::changes_mode))]
pub fn changes_mode(old: Mode, new: Mode) -> bool
    ensures { result ≡ changes_mode old new }
{
    mode_number(old) != mode_number(new)
}

// The level of a line: wired-AND of the outside and the chip.
pub fn line_level(pulled: bool, level: bool) -> bool
    ensures { result ≡ line pulled level }
{
    level && !pulled
}

// A transmit pulls SDA at this count.
#[tactic(auto, unfolding(crate::specs::Bus::pulls_at_bit))]
pub fn pulls_at_bit(count: u8, byte: u8) -> bool
    ensures { result ≡ pulls_at_bit count byte }
{
    count < 9 && !bits::bit(8 - count, byte)
}

// The phase pulls SDA.
#[tactic(auto, unfolding(crate::specs::Bus::pulls_sda))]
pub fn pulls_sda(phase: Phase) -> bool
    ensures { result ≡ pulls_sda phase }
{
    match phase {
        Phase::Addressed { ninth, .. } => ninth,
        Phase::Receive { count, .. } => count == 9,
        Phase::Transmit { count, byte, .. } => pulls_at_bit(count, byte),
        _ => false,
    }
}

// The phase pulls SCL.
#[tactic(auto, unfolding(crate::specs::Bus::pulls_scl))]
pub fn pulls_scl(phase: Phase) -> bool
    ensures { result ≡ pulls_scl phase }
{
    matches!(phase, Phase::Held { .. })
}

// The outcome of the comparison that the phase keeps.
#[tactic(auto, unfolding(crate::specs::Bus::compared_in))]
pub fn compared_in(phase: Phase) -> Comparison
    ensures { result ≡ compared_in phase }
{
    match phase {
        Phase::Addressed { matched, .. }
        | Phase::Receive { matched, .. }
        | Phase::Transmit { matched, .. }
        | Phase::Held { matched, .. } => Comparison::Own(matched),
        _ => Comparison::None,
    }
}

// SDA is pulled, in a mode with its phase and shift register.
#[tactic(auto, unfolding(crate::specs::Bus::mode, crate::specs::Bus::sda_pulled))]
pub fn sda_pulled(mode: Mode, phase: Phase, s: Shifter) -> bool
    ensures { result ≡ sda_pulled mode phase s }
{
    match mode {
        Mode::Off => false,
        Mode::Ddc1 => !bits::bit(7, s.register),
        Mode::Ddc2b => pulls_sda(phase),
    }
}

// SCL is pulled, in a mode with its phase.
#[tactic(auto, unfolding(crate::specs::Bus::mode, crate::specs::Bus::scl_pulled))]
pub fn scl_pulled(mode: Mode, phase: Phase) -> bool
    ensures { result ≡ scl_pulled mode phase }
{
    match mode {
        Mode::Off | Mode::Ddc1 => false,
        Mode::Ddc2b => pulls_scl(phase),
    }
}

// A rise of VSYNCI loads the shift register.
#[tactic(auto, unfolding(crate::specs::Ddc1::loads_at_rise))]
pub fn loads_at_rise(s: Shifter) -> bool
    ensures { result ≡ loads_at_rise s }
{
    s.edges == 0
}

// The shift register after a rise of VSYNCI.
#[tactic(auto, unfolding(crate::specs::Ddc1::shifter_at_rise, crate::specs::Ddc1::loads_at_rise))]
pub fn shifter_at_rise(byte: u8, s: Shifter) -> Shifter
    ensures { result ≡ shifter_at_rise byte s }
{
    if loads_at_rise(s) {
        Shifter {
            register: byte,
            edges: 8,
        }
    } else {
        Shifter {
            register: s.register % 128 * 2 + 1,
            edges: s.edges - 1,
        }
    }
}
