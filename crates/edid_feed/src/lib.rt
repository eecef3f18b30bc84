// The event words that send a block through DDC1, and words as bytes (document 02, Wish 7).
#![tactic(auto)]

ghost use Rattle.std.specs.Prelude.{◌≡◌, ◌+◌, ◌*◌, ◌<◌, ◌≤◌, ◌++◌, length, get_or, drop};
ghost use Rattle.edid_feed.specs.Words.{pulses, lead, sending, feed_words, bytes_of, bytes_of_all, placed_count, placed};

const VSYNCI_LOW: u32 = 0x03001b00;

const VSYNCI_HIGH: u32 = 0x03001b01;

const CLEAR_WATCHDOG: u32 = 0x02001255;

const SELECT_DDC1: u32 = 0x02000507;

const TURN_ON: u32 = 0x02001500;

const WRITE_DATA: u32 = 0x02001400;

// Pulses of VSYNCI by their words.
fn pulse_word(i: usize) -> u32
    requires { i < 18 }
    ensures { result ≡ get_or (pulses 9) i 0 }
{
    if i % 2 == 0 { VSYNCI_LOW } else { VSYNCI_HIGH }
}

// The words before the block.
fn lead_word(i: usize) -> u32
    requires { i < 21 }
    ensures { result ≡ get_or lead i 0 }
{
    match i {
        0 => CLEAR_WATCHDOG,
        1 => SELECT_DDC1,
        2 => TURN_ON,
        _ => pulse_word(i - 3),
    }
}

// The words for a byte.
fn sending_word(b: u8, i: usize) -> u32
    requires { i < 20 }
    ensures { result ≡ get_or (sending b) i 0 }
{
    match i {
        0 => CLEAR_WATCHDOG,
        1 => WRITE_DATA + u32::from(b),
        _ => pulse_word(i - 2),
    }
}

// The word with this index, of 21 before the block and 20 for each byte.
fn feed_word(block: &[u8], i: usize) -> u32
    requires { i < 21 + 20 * length block.now }
    ensures { result ≡ get_or (feed_words block.now) i 0 }
{
    if i < 21 {
        lead_word(i)
    } else {
        let k = (i - 21) / 20;
        sending_word(block[k], (i - 21) % 20)
    }
}

fn put_words(block: &[u8], words: &mut [u32])
    requires { 21 + 20 * length block.now ≤ length words.old }
    ensures { words.new ≡ feed_words block.now ++ drop (length (feed_words block.now)) words.old }
{
    let n = 21 + 20 * block.len();
    for i in 0..n {
        words[i] = feed_word(block, i);
    }
}

// The words that send a block, to the start of `words`, and their number; or 0, and nothing is written, where they do not fit.
pub fn feed(block: &[u8], words: &mut [u32]) -> usize
    ensures { (result ≡ placed_count (feed_words block.now) words.old) × (words.new ≡ placed (feed_words block.now) words.old) }
{
    if words.len() < 21 {
        return 0;
    }
    if (words.len() - 21) / 20 < block.len() {
        return 0;
    }
    put_words(block, words);
    21 + 20 * block.len()
}

// The bytes of a word, the lowest first.
fn word_byte(w: u32, i: usize) -> u8
    requires { i < 4 }
    ensures { result ≡ get_or (bytes_of w) i 0 }
{
    match i {
        0 => (w % 256) as u8,
        1 => (w / 256 % 256) as u8,
        2 => (w / 65536 % 256) as u8,
        _ => (w / 16777216 % 256) as u8,
    }
}

fn put_bytes(words: &[u32], bytes: &mut [u8])
    requires { 4 * length words.now ≤ length bytes.old }
    ensures { bytes.new ≡ bytes_of_all words.now ++ drop (length (bytes_of_all words.now)) bytes.old }
{
    let n = 4 * words.len();
    for i in 0..n {
        let k = i / 4;
        bytes[i] = word_byte(words[k], i % 4);
    }
}

// The bytes of words, each lowest byte first, to the start of `bytes`, and their number; or 0, and nothing is written, where
// they do not fit.
pub fn store(words: &[u32], bytes: &mut [u8]) -> usize
    ensures { (result ≡ placed_count (bytes_of_all words.now) bytes.old) × (bytes.new ≡ placed (bytes_of_all words.now) bytes.old) }
{
    if bytes.len() / 4 < words.len() {
        return 0;
    }
    put_bytes(words, bytes);
    4 * words.len()
}
