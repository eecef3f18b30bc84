// The levels of the two lines of the bus as the outside and the chip leave them, and which of them the chip pulls.
#![tactic(auto)]

ghost use Rattle.std.specs.Prelude.{◌≡◌};
ghost use Rattle.chip_lines.specs.Lines.{sda_pulled_at, scl_pulled_at, lines_report, four_bits, lines_word, LinesCase};

use chip::{Chip, Core};
use chip_well_formed::IllFormed;
use registers::{ENDDC, PT3};

// The level of each line, and whether the chip pulls it.
#[derive(Clone, Copy, PartialEq, Eq, Debug)]
pub struct Levels {
    pub sda: bool,
    pub scl: bool,
    pub pulls_sda: bool,
    pub pulls_scl: bool,
}

fn sda_pulled(c: Core, latch: u8) -> bool
    ensures { result ≡ sda_pulled_at c latch }
{
    if bits::bit(ENDDC, c.bus.iists) {
        !bits::bit(0, latch)
    } else {
        bus::sda_pulled(chip_edges::active_mode(c), c.bus.phase, c.bus.shifter)
    }
}

fn scl_pulled(c: Core, latch: u8) -> bool
    ensures { result ≡ scl_pulled_at c latch }
{
    if bits::bit(ENDDC, c.bus.iists) {
        !bits::bit(1, latch)
    } else {
        bus::scl_pulled(chip_edges::active_mode(c), c.bus.phase)
    }
}

// The lines of a state. An ill formed state is reported before all else.
pub fn line_levels(c: Chip) -> Result<Levels, IllFormed>
    ensures { (result ≡ lines_report c) × LinesCase c result }
{
    if chip_well_formed::well_formed(c) {
        let latch = chip::register_at(&c.registers, PT3);
        let pulls_sda = sda_pulled(c.core, latch);
        let pulls_scl = scl_pulled(c.core, latch);
        Ok(Levels {
            sda: bus::line_level(pulls_sda, c.core.sda),
            scl: bus::line_level(pulls_scl, c.core.scl),
            pulls_sda,
            pulls_scl,
        })
    } else {
        Err(IllFormed)
    }
}

fn four_bits(l: Levels) -> u8
    ensures { result ≡ four_bits l.sda l.scl l.pulls_sda l.pulls_scl }
{
    (bits::weight_if(l.sda, 0) | bits::weight_if(l.scl, 1))
        | (bits::weight_if(l.pulls_sda, 2) | bits::weight_if(l.pulls_scl, 3))
}

// A report in one number: bits 31 to 24 say 8 where the state is ill formed; bits 0 and 1 are the levels of SDA and SCL, as PT3 has
// them, and bits 2 and 3 say that the chip pulls SDA and SCL.
pub fn lines_word(l: Result<Levels, IllFormed>) -> u32
    ensures { result ≡ lines_word l }
{
    match l {
        Err(IllFormed) => 0x0800_0000,
        Ok(levels) => u32::from(four_bits(levels)),
    }
}
