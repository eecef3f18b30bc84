// Which of the chip's addresses the current transfer was called by (document 02, Wish 12).
#![tactic(auto)]

ghost use Rattle.std.specs.Prelude.{◌≡◌};
ghost use Rattle.chip_address_match.specs.AddressOutcome.{outcome_of, outcome_report, outcome_word, OutcomeCase};

use bus::{Comparison, OwnAddress};
use chip::Chip;
use chip_well_formed::IllFormed;

fn outcome_of(outcome: Comparison) -> Option<OwnAddress>
    ensures { result ≡ outcome_of outcome }
{
    match outcome {
        Comparison::None => None,
        Comparison::Own(matched) => Some(matched),
    }
}

// The address that the state keeps for the current transfer, or none. An ill formed state is told before all else.
pub fn called_by(c: Chip) -> Result<Option<OwnAddress>, IllFormed>
    ensures { (result ≡ outcome_report c) × OutcomeCase c result }
{
    if chip_well_formed::well_formed(c) {
        Ok(outcome_of(bus::compared_in(c.core.bus.phase)))
    } else {
        Err(IllFormed)
    }
}

// A report in one number: bits 31 to 24 say 8 where the state is ill formed; below, 0 is none, 1 A0H, 2 II ADR and 3 both.
pub fn outcome_word(o: Result<Option<OwnAddress>, IllFormed>) -> u32
    ensures { result ≡ outcome_word o }
{
    match o {
        Err(IllFormed) => 0x0800_0000,
        Ok(None) => 0,
        Ok(Some(OwnAddress::A0)) => 1,
        Ok(Some(OwnAddress::IiAdr)) => 2,
        Ok(Some(OwnAddress::Both)) => 3,
    }
}
