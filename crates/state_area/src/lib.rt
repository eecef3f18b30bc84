// A state in a lent area of 128 bytes: read in, written out (document 02, Wish 14).
#![tactic(auto)]

ghost use Rattle.std.specs.Prelude.{◌≡◌};
ghost use Rattle.state_area.specs.Area.{fault_number, read_as, loaded, put_in, stored, store_left};

use chip::Chip;

// Why a state is neither read nor written: the area has not 128 bytes; or no well formed state is written as its bytes, or the state
// to be written is ill formed.
#[derive(Clone, Copy, PartialEq, Eq, Debug)]
pub enum AreaFault {
    WrongLength,
    IllFormed,
}

impl From<AreaFault> for u8 {
    ghost from_gives = { λ fault number. number ≡ fault_number fault };

    fn from(fault: AreaFault) -> u8 {
        match fault {
            AreaFault::WrongLength => 15,
            AreaFault::IllFormed => 8,
        }
    }
}

fn read_as(bytes: &[u8; 128]) -> Result<Chip, AreaFault>
    ensures { result ≡ read_as bytes.now }
{
    let c = state_bytes::state_of(bytes);
    if *bytes == state_bytes::bytes_of(c) && chip_well_formed::well_formed(c) {
        Ok(c)
    } else {
        Err(AreaFault::IllFormed)
    }
}

// Reads an area: 15 where it has not 128 bytes, then 8 where no well formed state is written as its bytes.
pub fn load(area: &[u8]) -> Result<Chip, AreaFault>
    ensures { result ≡ loaded area.now }
{
    match area.as_array() {
        Some(bytes) => read_as(bytes),
        None => Err(AreaFault::WrongLength),
    }
}

// The bytes of a state into an area of 128, which is not tested: for a caller who has a well formed one. Another area stays as it is.
pub fn put(c: Chip, area: &mut [u8])
    ensures { area.new ≡ put_in c area.old }
{
    if area.len() == 128 {
        byte_copy::copy(&state_bytes::bytes_of(c), area);
    }
}

// Writes a state out: 15 where the area has not 128 bytes, then 8 where the state is ill formed, and the area keeps its bytes.
pub fn store(c: Chip, area: &mut [u8]) -> Result<(), AreaFault>
    ensures { (result ≡ stored c area.old) × (area.new ≡ store_left c area.old) }
{
    if area.len() != 128 {
        Err(AreaFault::WrongLength)
    } else if chip_well_formed::well_formed(c) {
        put(c, area);
        Ok(())
    } else {
        Err(AreaFault::IllFormed)
    }
}
