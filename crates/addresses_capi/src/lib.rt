// The plain reading of the bus for programs in C or Rust.
#![tactic(auto)]

ghost use Rattle.std.specs.Prelude.{◌≡◌};
ghost use Rattle.plain_bus.specs.Reading.{number_of, reading, places_left};
ghost use Rattle.addresses_capi.specs.Count.{count_left};

use plain_bus::Reading;

// Lists the addresses in a list of changes: returns 0, each address with its outcome to the start of `found` and how many they are
// in `count`; or 2, 3 or 7, and writes nothing.
#[unsafe(no_mangle)]
pub extern "C" fn nt6861_addresses(
    own: u8,
    changes: &[u16],
    found: &mut [u16],
    count: &mut usize,
) -> u8
    ensures { (result ≡ number_of (reading own changes.now found.old)) × (found.new ≡ places_left own changes.now found.old) × (count.new ≡ count_left (reading own changes.now found.old) count.old) }
{
    let read = plain_bus::read(own, changes, found);
    match read {
        Reading::Listed(n) => {
            *count = n;
            0
        }
        Reading::BadLine => 2,
        Reading::BadLevel => 3,
        Reading::TooFewPlaces => 7,
    }
}
