// The writer of a recording: words from bytes, and blocks from words (document 02, Wish 1).
#![tactic(auto)]

ghost use Rattle.std.specs.Prelude.{◌≡◌, ◌+◌, ◌*◌, ◌/◌, ◌≤◌, ◌++◌, length, drop};
ghost use Rattle.recording_blocks.specs.Bytes.{words_of};
ghost use Rattle.recording_writer.specs.Written.{words_given, words_put, block_count, blocks_bytes, blocks_written, blocks_put};

use recording_blocks::WriteFault;

// The most words in a block, and its bytes; and how many blocks have a number.
const WORDS: usize = 126;

const BLOCK: usize = 512;

const NUMBERS: u64 = 65536;

// What the writer of blocks gives: how many bytes it wrote, and the number that is next.
#[derive(Clone, Copy)]
pub struct BlocksWritten {
    pub count: usize,
    pub next: u32,
}

// The whole words of bytes, to the start of the places, and how many they are; nothing is written, and 0 given, where there are
// fewer places.
pub fn words_of(bytes: &[u8], words: &mut [u32]) -> usize
    ensures { (result ≡ words_given bytes.now words.old) × (words.new ≡ words_put bytes.now words.old) }
{
    if words.len() < bytes.len() / 4 {
        return 0;
    }
    recording_blocks::read_words(bytes, words);
    bytes.len() / 4
}

// One block after the other. There is room for each, and a number, so that each is written.
fn write_all(first: u32, words: &[u32], area: &mut [u8])
    requires { (first + block_count words.now ≤ 65536) × (512 * block_count words.now ≤ length area.old) }
    ensures { area.new ≡ blocks_bytes first words.now ++ drop (512 * block_count words.now) area.old }
{
    let mut next = first;
    let mut put = 0;
    for part in words.chunks(WORDS) {
        let stop = put + BLOCK;
        let _ = recording_blocks::write_block(next as u16, part, &mut area[put..stop]);
        next += 1;
        put = stop;
    }
}

// The writer of blocks: those of a list of words, 126 to a block and the rest in one more, to the start of the area; nothing is written
// where a block would have a number above 65,535 or, next, the area is too short.
pub fn write_blocks(first: u32, words: &[u32], area: &mut [u8]) -> Result<BlocksWritten, WriteFault>
    ensures { (result ≡ blocks_written first words.now area.old) × (area.new ≡ blocks_put first words.now area.old) }
{
    let count = words.len().div_ceil(WORDS);
    let next = u64::from(first) + count as u64;
    if next > NUMBERS {
        return Err(WriteFault::Numbers);
    }
    if area.len() < BLOCK * count {
        return Err(WriteFault::Area);
    }
    write_all(first, words, area);
    Ok(BlocksWritten {
        count: BLOCK * count,
        next: next as u32,
    })
}
