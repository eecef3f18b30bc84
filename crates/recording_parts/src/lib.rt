// Recordings: lists of blocks (document 02, Wish 1).
#![tactic(auto)]

ghost use Rattle.std.specs.Prelude.{◌≡◌, ◌*◌, ◌/◌, ◌≤◌, ◌++◌, length, drop};
ghost use Rattle.recording_parts.specs.Recording.{blocks_of, read_words, read_number, read_next, fault_at, blocks_read, words_left};

use recording_blocks::BlockFault;

// The bytes of a block, and the most words in one.
const BLOCK: usize = 512;

const WORDS: usize = 126;

// What the reader of blocks gives: how many words it read, the number that is due next, and what is wrong, if anything is. The words
// before a bad block count, so that a fault stands beside them and not in their place.
#[derive(Clone, Copy)]
pub struct BlocksRead {
    pub count: usize,
    pub next: u32,
    pub fault: Option<BlockFault>,
}

// One block after the other, up to the end or the first bad block.
fn read_all(due: u32, bytes: &[u8], words: &mut [u32]) -> BlocksRead
    requires { 126 * (length bytes.now / 512) ≤ length words.old }
    ensures { (result ≡ record { count = length (read_words due (blocks_of bytes.now)); next = read_next due (blocks_of bytes.now); fault = fault_at (read_number due (blocks_of bytes.now)) }) × (words.new ≡ read_words due (blocks_of bytes.now) ++ drop (length (read_words due (blocks_of bytes.now))) words.old) }
{
    let mut next = due;
    let mut count = 0;
    for block in bytes.chunks(BLOCK) {
        match recording_blocks::read_block(next, block, &mut words[count..]) {
            Ok(n) => {
                count += n;
                next += 1;
            }
            Err(fault) => {
                return BlocksRead {
                    count,
                    next,
                    fault: Some(fault),
                };
            }
        }
    }
    BlocksRead {
        count,
        next,
        fault: None,
    }
}

// The reader of blocks: their words to the start of the places, up to the first bad block; or that there are fewer than 126 places for
// each whole block, and nothing written.
pub fn read_blocks(due: u32, bytes: &[u8], words: &mut [u32]) -> BlocksRead
    ensures { (result ≡ blocks_read due bytes.now words.old) × (words.new ≡ words_left due bytes.now words.old) }
{
    if words.len() < WORDS * (bytes.len() / BLOCK) {
        return BlocksRead {
            count: 0,
            next: due,
            fault: Some(BlockFault::Places),
        };
    }
    read_all(due, bytes, words)
}
