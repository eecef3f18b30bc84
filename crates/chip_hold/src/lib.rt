// How long the chip has held SCL low, which is clock stretching (document 02, Wish 9).
#![tactic(auto)]

ghost use Rattle.std.specs.Prelude.{◌≡◌};
ghost use Rattle.chip_hold.specs.Hold.{hold_of, hold_report, hold_word, HoldCase};

use bus::Phase;
use chip::Chip;
use chip_well_formed::IllFormed;

fn hold_of(phase: Phase) -> Option<u16>
    ensures { result ≡ hold_of phase }
{
    match phase {
        Phase::Held { matched: _, clocks } => Some(clocks),
        _ => None,
    }
}

// The clocks of 8 µs since the chip took SCL low, or none where it does not hold it. An ill formed state is told before all else.
pub fn held_for(c: Chip) -> Result<Option<u16>, IllFormed>
    ensures { (result ≡ hold_report c) × HoldCase c result }
{
    if chip_well_formed::well_formed(c) {
        Ok(hold_of(c.core.bus.phase))
    } else {
        Err(IllFormed)
    }
}

// A report in one number: bits 31 to 24 say 8 where the state is ill formed, bits 15 to 0 are the count.
pub fn hold_word(h: Result<Option<u16>, IllFormed>) -> u32
    ensures { result ≡ hold_word h }
{
    match h {
        Err(IllFormed) => 0x0800_0000,
        Ok(None) => 0,
        Ok(Some(clocks)) => u32::from(clocks),
    }
}
