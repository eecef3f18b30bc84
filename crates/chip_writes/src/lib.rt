// Register writes: what each does, and which are refused.
#![tactic(auto)]

ghost use Rattle.std.specs.Prelude.{◌≡◌};
ghost use Rattle.chip_writes.specs.Writes.{target, clrflg_written, clrwdt_written, written_to, kept_by, written as written_of, stored_by, write_number, write_register, write_kept};

use chip::{Core, Kept};
use registers::{BT, CLRFLG, CLRHOV, CLRVOV, CLRWDT, HVCON, IIADR, IIDAT, IISTS, MDCON};

// What a register's write does beside or instead of storing under the mask.
#[derive(Clone, Copy)]
pub enum Target {
    Stored,
    Mdcon,
    Hvcon,
    Clrflg,
    Clrwdt,
    Iiadr,
    Iidat,
    Iists,
    Bt,
}

// What a write to this address does.
#[tactic(auto, unfolding(crate::specs::Writes::target))]
pub fn target_of(a: u8) -> Target
    ensures { result ≡ target a }
{
    match a {
        MDCON => Target::Mdcon,
        HVCON => Target::Hvcon,
        CLRFLG => Target::Clrflg,
        CLRWDT => Target::Clrwdt,
        IIADR => Target::Iiadr,
        IIDAT => Target::Iidat,
        IISTS => Target::Iists,
        BT => Target::Bt,
        _ => Target::Stored,
    }
}

#[tactic(auto, unfolding(crate::specs::Writes::clrflg_written))]
fn clrflg_written(c: Core, b: u8) -> Core
    ensures { result ≡ clrflg_written c b }
{
    let after = sync::clear_overflow(bits::bit(CLRHOV, b), bits::bit(CLRVOV, b), c.sync);
    chip::with_sync(chip::with_irqx(c, c.irqx & !b), after)
}

#[tactic(auto, unfolding(crate::specs::Writes::clrwdt_written))]
fn clrwdt_written(c: Core, b: u8) -> Core
    ensures { result ≡ clrwdt_written c b }
{
    if b == 0x55 {
        chip::with_watchdog(c, 0)
    } else {
        c
    }
}

#[tactic(auto, unfolding(crate::specs::Writes::written_to))]
fn written_to(t: Target, c: Core, b: u8) -> Core
    ensures { result ≡ written_to t c b }
{
    match t {
        Target::Stored => c,
        Target::Mdcon => chip_ddc_writes::mdcon_written(c, b),
        Target::Hvcon => hvcon_written(c, b),
        Target::Clrflg => clrflg_written(c, b),
        Target::Clrwdt => clrwdt_written(c, b),
        Target::Iiadr => chip_ddc_writes::iiadr_written(c, b),
        Target::Iidat => chip_ddc_writes::iidat_written(c, b),
        Target::Iists => chip_ddc_writes::iists_written(c, b),
        Target::Bt => bt_written(c, b),
    }
}

#[tactic(auto, unfolding(crate::specs::Writes::written_to))]
fn hvcon_written(c: Core, b: u8) -> Core
    ensures { result ≡ written_to Target.Hvcon c b }
{
    chip::with_polarity(c, registers::updated(HVCON, c.polarity, b))
}

#[tactic(auto, unfolding(crate::specs::Writes::written_to))]
fn bt_written(c: Core, b: u8) -> Core
    ensures { result ≡ written_to Target.Bt c b }
{
    chip::with_bt(c, registers::updated(BT, c.bt, b))
}

#[tactic(auto, unfolding(crate::specs::Writes::kept_by))]
fn kept_by(t: Target, registers: &[u8; 38], a: u8, b: u8) -> Kept
    ensures { result ≡ kept_by t registers.now a b }
{
    match t {
        Target::Stored => Kept::Stored(
            a,
            registers::updated(a, chip::register_at(registers, a), b),
        ),
        _ => Kept::Same,
    }
}

// The core after a write that is taken.
#[tactic(auto, unfolding(crate::specs::Writes::written))]
pub fn written(c: Core, a: u8, b: u8) -> Core
    ensures { result ≡ written_of c a b }
{
    written_to(target_of(a), c, b)
}

// What a write that is taken stores in the array: the byte under the write mask, where the register stands there.
#[tactic(auto, unfolding(crate::specs::Writes::stored_by))]
pub fn stored(registers: &[u8; 38], a: u8, b: u8) -> Kept
    ensures { result ≡ stored_by registers.now a b }
{
    kept_by(target_of(a), registers, a, b)
}

// The number of a write: 0 where it is taken, 4 while RESET is low, 6 for a read-only register.
#[tactic(auto, unfolding(crate::specs::Writes::write_number))]
pub fn write_number(reset: bool, a: u8) -> u8
    ensures { result ≡ write_number reset a }
{
    if reset {
        let row = registers::row_of(a);
        if row.writable { 0 } else { 6 }
    } else {
        4
    }
}
