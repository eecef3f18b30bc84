// DDC2B: the phases of a transfer. What each edge of the SCL line does to the phase, to II DAT, to RXAK and to the flags.
#![tactic(auto)]

ghost use Rattle.std.specs.Prelude.{true, false, ◌≡◌};
ghost use Rattle.bits.specs.Byte.{weight_if};
ghost use Rattle.registers.specs.Names.{INTA};
ghost use Rattle.bus.specs.declared.Comparison.{Comparison};
ghost use Rattle.bus.specs.declared.Phase.{Phase};
ghost use Rattle.bus.specs.Bus.{is_own};
ghost use Rattle.bus_ddc2b.specs.Ddc2b.{comparison as comparison_of, compared as compared_of, gathered as gathered_bits, addressed, risen, at_rise, acknowledges as acknowledges_of, ninth_clock, fallen, at_fall, held_longer, phase_at_period, phase_let_go};

use bus::{Comparison, OwnAddress, Phase};
use registers::{INTA, INTD, INTS, RXAK, TXAK};

// All that a rise of the SCL line moves: II STS, II DAT, the phase, and the flags that are set.
#[derive(Clone, Copy)]
pub struct Risen {
    pub phase: Phase,
    pub iists: u8,
    pub iidat: u8,
    pub flags: u8,
}

// All that a fall of the SCL line moves: the phase, and the flags that are set.
#[derive(Clone, Copy)]
pub struct Fallen {
    pub phase: Phase,
    pub flags: u8,
}

fn comparison(a0: bool, own: bool) -> Comparison
    ensures { result ≡ comparison_of a0 own }
{
    match (a0, own) {
        (true, true) => Comparison::Own(OwnAddress::Both),
        (true, false) => Comparison::Own(OwnAddress::A0),
        (false, true) => Comparison::Own(OwnAddress::IiAdr),
        (false, false) => Comparison::None,
    }
}

// Which of the chip's addresses this is, A0H or that of II ADR, the direction bit left aside.
#[tactic(auto, unfolding(crate::specs::Ddc2b::compared))]
pub fn compared(own: u8, byte: u8) -> Comparison
    ensures { result ≡ compared_of own byte }
{
    comparison(byte / 2 % 128 == 80, byte / 2 % 128 == own / 2 % 128)
}

// The bits gathered with SDA entering lowest.
#[tactic(auto, unfolding(crate::specs::Ddc2b::gathered))]
pub fn gathered(bits: u8, sda: bool) -> u8
    ensures { result ≡ gathered_bits bits sda }
{
    bits % 128 * 2 + u8::from(sda)
}

fn address_completed(outcome: Comparison, iists: u8, byte: u8) -> Risen
    ensures { result ≡ risen (addressed outcome byte) iists byte (weight_if (is_own outcome) INTA) }
{
    match outcome {
        Comparison::None => unmoved(Phase::Ignoring, iists, byte),
        Comparison::Own(matched) => Risen {
            flags: 1 << INTA,
            ..unmoved(
                Phase::Addressed {
                    matched,
                    bits: byte,
                    ninth: false,
                },
                iists,
                byte,
            )
        },
    }
}

#[tactic(auto, unfolding(crate::specs::Ddc2b::at_rise, crate::specs::Ddc2b::phase_at_rise, crate::specs::Ddc2b::status_at_rise, crate::specs::Ddc2b::data_at_rise, crate::specs::Ddc2b::matches_at_rise))]
fn address_at_rise(own: u8, sda: bool, iists: u8, iidat: u8, count: u8, bits: u8) -> Risen
    ensures { result ≡ at_rise own sda iists iidat (Phase.Address count bits) }
{
    let byte = gathered(bits, sda);
    if count < 7 {
        let phase = Phase::Address {
            count: count + 1,
            bits: byte,
        };
        unmoved(phase, iists, iidat)
    } else {
        address_completed(compared(own, byte), iists, byte)
    }
}

#[tactic(auto, unfolding(crate::specs::Ddc2b::at_rise, crate::specs::Ddc2b::phase_at_rise, crate::specs::Ddc2b::status_at_rise, crate::specs::Ddc2b::data_at_rise, crate::specs::Ddc2b::matches_at_rise))]
fn receive_at_rise(
    own: u8,
    sda: bool,
    iists: u8,
    iidat: u8,
    matched: OwnAddress,
    count: u8,
    bits: u8,
) -> Risen
    ensures { result ≡ at_rise own sda iists iidat (Phase.Receive matched count bits) }
{
    if count < 8 {
        let byte = gathered(bits, sda);
        let phase = Phase::Receive {
            matched,
            count: count + 1,
            bits: byte,
        };
        unmoved(phase, iists, if count == 7 { byte } else { iidat })
    } else {
        let phase = Phase::Receive {
            matched,
            count,
            bits,
        };
        unmoved(phase, iists, iidat)
    }
}

#[tactic(auto, unfolding(crate::specs::Ddc2b::at_rise, crate::specs::Ddc2b::phase_at_rise, crate::specs::Ddc2b::status_at_rise, crate::specs::Ddc2b::data_at_rise, crate::specs::Ddc2b::matches_at_rise))]
fn transmit_at_rise(
    own: u8,
    sda: bool,
    iists: u8,
    iidat: u8,
    matched: OwnAddress,
    count: u8,
    byte: u8,
) -> Risen
    ensures { result ≡ at_rise own sda iists iidat (Phase.Transmit matched count byte) }
{
    if count == 9 {
        let phase = Phase::Transmit {
            matched,
            count: 10,
            byte,
        };
        unmoved(phase, bits::with_bit(iists, RXAK, sda), iidat)
    } else {
        let phase = Phase::Transmit {
            matched,
            count,
            byte,
        };
        unmoved(phase, iists, iidat)
    }
}

fn unmoved(phase: Phase, iists: u8, iidat: u8) -> Risen
    ensures { result ≡ risen phase iists iidat 0 }
{
    Risen {
        phase,
        iists,
        iidat,
        flags: 0,
    }
}

// A rise of the SCL line, at the SDA line's level, with II ADR as `own`: an address and a receive gather SDA, a transmit takes RXAK.
#[tactic(auto, unfolding(crate::specs::Ddc2b::at_rise, crate::specs::Ddc2b::phase_at_rise, crate::specs::Ddc2b::status_at_rise, crate::specs::Ddc2b::data_at_rise, crate::specs::Ddc2b::matches_at_rise))]
pub fn at_rise(own: u8, sda: bool, iists: u8, iidat: u8, phase: Phase) -> Risen
    ensures { result ≡ at_rise own sda iists iidat phase }
{
    match phase {
        Phase::Address { count, bits } => address_at_rise(own, sda, iists, iidat, count, bits),
        Phase::Receive {
            matched,
            count,
            bits,
        } => receive_at_rise(own, sda, iists, iidat, matched, count, bits),
        Phase::Transmit {
            matched,
            count,
            byte,
        } => transmit_at_rise(own, sda, iists, iidat, matched, count, byte),
        _ => unmoved(phase, iists, iidat),
    }
}

// A received byte is acknowledged: TXAK of II STS is 0.
#[tactic(auto, unfolding(crate::specs::Ddc2b::acknowledges))]
pub fn acknowledges(status: u8) -> bool
    ensures { result ≡ acknowledges_of status }
{
    !bits::bit(TXAK, status)
}

fn ninth_clock(status: u8) -> u8
    ensures { result ≡ ninth_clock status }
{
    if acknowledges(status) { 9 } else { 10 }
}

// The byte is over: flag D besides S, and the chip holds SCL low, for no clock of 8 µs yet.
fn held(matched: OwnAddress) -> Fallen
    ensures { result ≡ fallen (Phase.Held matched 0) true }
{
    Fallen {
        phase: Phase::Held { matched, clocks: 0 },
        flags: (1 << INTS) | (1 << INTD),
    }
}

// The byte goes on: flag S alone.
fn moved(phase: Phase) -> Fallen
    ensures { result ≡ fallen phase false }
{
    Fallen {
        phase,
        flags: 1 << INTS,
    }
}

#[tactic(auto, unfolding(crate::specs::Ddc2b::at_fall, crate::specs::Ddc2b::phase_at_fall, crate::specs::Ddc2b::holds_at_fall))]
fn addressed_at_fall(status: u8, matched: OwnAddress, bits: u8, ninth: bool) -> Fallen
    ensures { result ≡ at_fall status (Phase.Addressed matched bits ninth) }
{
    if ninth {
        held(matched)
    } else {
        moved(Phase::Addressed {
            matched,
            bits,
            ninth: true,
        })
    }
}

#[tactic(auto, unfolding(crate::specs::Ddc2b::at_fall, crate::specs::Ddc2b::phase_at_fall, crate::specs::Ddc2b::holds_at_fall))]
fn receive_at_fall(status: u8, matched: OwnAddress, count: u8, bits: u8) -> Fallen
    ensures { result ≡ at_fall status (Phase.Receive matched count bits) }
{
    if 8 < count {
        return held(matched);
    }
    moved(Phase::Receive {
        matched,
        count: if count == 8 {
            ninth_clock(status)
        } else {
            count
        },
        bits,
    })
}

#[tactic(auto, unfolding(crate::specs::Ddc2b::at_fall, crate::specs::Ddc2b::phase_at_fall, crate::specs::Ddc2b::holds_at_fall))]
fn transmit_at_fall(status: u8, matched: OwnAddress, count: u8, byte: u8) -> Fallen
    ensures { result ≡ at_fall status (Phase.Transmit matched count byte) }
{
    if count == 10 {
        return held(matched);
    }
    moved(Phase::Transmit {
        matched,
        count: if count < 9 { count + 1 } else { count },
        byte,
    })
}

// A fall of the SCL line, at this II STS: after eight bits the ninth clock begins, and the next fall takes hold of SCL.
#[tactic(auto, unfolding(crate::specs::Ddc2b::at_fall, crate::specs::Ddc2b::phase_at_fall, crate::specs::Ddc2b::holds_at_fall))]
pub fn at_fall(status: u8, phase: Phase) -> Fallen
    ensures { result ≡ at_fall status phase }
{
    match phase {
        Phase::Addressed {
            matched,
            bits,
            ninth,
        } => addressed_at_fall(status, matched, bits, ninth),
        Phase::Receive {
            matched,
            count,
            bits,
        } => receive_at_fall(status, matched, count, bits),
        Phase::Transmit {
            matched,
            count,
            byte,
        } => transmit_at_fall(status, matched, count, byte),
        _ => moved(phase),
    }
}

// One clock of 8 µs more, up to 65,535.
#[tactic(auto, unfolding(crate::specs::Ddc2b::held_longer))]
fn held_longer(clocks: u16) -> u16
    ensures { result ≡ held_longer clocks }
{
    clocks.saturating_add(1)
}

// The phase after a clock of 8 µs: a hold has lasted one more.
#[tactic(auto, unfolding(crate::specs::Ddc2b::phase_at_period))]
pub fn phase_at_period(phase: Phase) -> Phase
    ensures { result ≡ phase_at_period phase }
{
    match phase {
        Phase::Held { matched, clocks } => Phase::Held {
            matched,
            clocks: held_longer(clocks),
        },
        _ => phase,
    }
}

#[tactic(auto, unfolding(crate::specs::Ddc2b::phase_let_go))]
fn next_byte(matched: OwnAddress, trx: bool, byte: u8) -> Phase
    ensures { result ≡ phase_let_go (Comparison.Own matched) trx byte }
{
    if trx {
        Phase::Transmit {
            matched,
            count: 1,
            byte,
        }
    } else {
        Phase::Receive {
            matched,
            count: 0,
            bits: 0,
        }
    }
}

// The phase once SCL is let go, in a transfer with this outcome.
#[tactic(auto, unfolding(crate::specs::Ddc2b::phase_let_go))]
pub fn phase_let_go(outcome: Comparison, trx: bool, byte: u8) -> Phase
    ensures { result ≡ phase_let_go outcome trx byte }
{
    match outcome {
        Comparison::None => Phase::Idle,
        Comparison::Own(matched) => next_byte(matched, trx, byte),
    }
}
