// Reader and writer of a block, for programs in C or Rust.
#![tactic(auto)]

ghost use Rattle.std.specs.Prelude.{◌≡◌};
ghost use Rattle.recording_blocks.specs.Block.{block_read, places_left, write_number, area_left};
ghost use Rattle.blocks_capi.specs.Status.{status_of, count_left};

// Reads the block in the first 512 bytes, whose number must be the one given: returns 0, its words in `words` and how many they
// are in `count`; or 10 to 14, or 7 where there are fewer places than words, and writes nothing.
#[unsafe(no_mangle)]
pub extern "C" fn nt6861_read_block(
    number: u32,
    bytes: &[u8],
    words: &mut [u32],
    count: &mut usize,
) -> u8
    ensures { (result ≡ status_of (block_read number bytes.now words.old)) × (words.new ≡ places_left number bytes.now words.old) × (count.new ≡ count_left (block_read number bytes.now words.old) count.old) }
{
    match recording_blocks::read_block(number, bytes, words) {
        Ok(n) => {
            *count = n;
            0
        }
        Err(fault) => fault.number(),
    }
}

// Writes the block of this number with these words to an area of 512 bytes and returns 0; or writes nothing and returns 16 where
// the words are more than 126, else 17 where the area has another length.
#[unsafe(no_mangle)]
pub extern "C" fn nt6861_write_block(number: u16, words: &[u32], area: &mut [u8]) -> u8
    ensures { (result ≡ write_number words.now area.old) × (area.new ≡ area_left number words.now area.old) }
{
    match recording_blocks::write_block(number, words, area) {
        Ok(()) => 0,
        Err(fault) => fault.number(),
    }
}
