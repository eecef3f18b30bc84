// A block of a recording, written and read (document 02, Wish 1).
#![tactic(auto)]

ghost use Rattle.std.specs.Prelude.{◌≡◌, ◌+◌, ◌*◌, ◌≤◌, ◌<◌, ◌++◌, length, take, drop, get_or};
ghost use Rattle.recording_blocks.specs.Bytes.{four_bytes, from_two, from_four, words_bytes, words_of, all_zero, sum as sum_bytes};
ghost use Rattle.recording_blocks.specs.Block.{all_words, padded, front, write_number, write_fault_number, number_written, area_left, fault_number, words_counted, block_read, places_left, BlockCase};

// What is wrong with a block, or with the places for its words.
#[derive(Clone, Copy, Debug, PartialEq, Eq)]
pub enum BlockFault {
    Places,
    Short,
    Sum,
    Number,
    Count,
    Unused,
}

impl BlockFault {
    // Its number, as C and the text have it.
    pub fn number(self) -> u8
        ensures { result ≡ fault_number self }
    {
        match self {
            BlockFault::Places => 7,
            BlockFault::Short => 10,
            BlockFault::Sum => 11,
            BlockFault::Number => 12,
            BlockFault::Count => 13,
            BlockFault::Unused => 14,
        }
    }
}

// Why no block is written: a block would have a number above 65,535, there are too many words for a block, or the area has another
// length.
#[derive(Clone, Copy, Debug, PartialEq, Eq)]
pub enum WriteFault {
    Numbers,
    Words,
    Area,
}

impl WriteFault {
    // Its number, as C has it.
    pub fn number(self) -> u8
        ensures { result ≡ write_fault_number self }
    {
        match self {
            WriteFault::Numbers => 12,
            WriteFault::Words => 16,
            WriteFault::Area => 17,
        }
    }
}

// The words of a block, and the bytes that its sum adds up.
const WORDS: usize = 126;

const SUMMED: usize = 508;

// ---- bytes

// The sum of bytes, of which there are few enough that it fits.
fn sum(bytes: &[u8]) -> u32
    requires { length bytes.now ≤ 512 }
    ensures { result ≡ sum_bytes bytes.now }
{
    bytes.iter().map(|b| u32::from(*b)).sum()
}

// The number in two bytes.
fn two_at(bytes: &[u8], at: usize) -> u32
    requires { at + 1 < length bytes.now }
    ensures { result ≡ from_two (get_or bytes.now at 0) (get_or bytes.now (at + 1) 0) }
{
    u32::from(u16::from_le_bytes([bytes[at], bytes[at + 1]]))
}

// The number in four bytes.
fn four_at(bytes: &[u8], at: usize) -> u32
    requires { at + 3 < length bytes.now }
    ensures { result ≡ from_four (get_or bytes.now at 0) (get_or bytes.now (at + 1) 0) (get_or bytes.now (at + 2) 0) (get_or bytes.now (at + 3) 0) }
{
    u32::from_le_bytes([bytes[at], bytes[at + 1], bytes[at + 2], bytes[at + 3]])
}

// A number in four bytes, at an index of the area.
fn put_four(area: &mut [u8], at: usize, n: u32)
    requires { at + 4 ≤ length area.old }
    ensures { area.new ≡ take at area.old ++ (four_bytes n ++ drop (at + 4) area.old) }
{
    byte_copy::copy(&n.to_le_bytes(), &mut area[at..]);
}

// The whole words of bytes, four for each, to the start of the places, as many as fit.
pub fn read_words(bytes: &[u8], words: &mut [u32])
    ensures { words.new ≡ take (length words.old) (words_of bytes.now) ++ drop (length (words_of bytes.now)) words.old }
{
    for i in 0..words.len().min(bytes.len() / 4) {
        words[i] = four_at(bytes, 4 * i);
    }
}

// ---- the writer

// The word with this index, 0 past the last.
fn word_or_zero(words: &[u32], i: usize) -> u32
    ensures { result ≡ get_or words.now i 0 }
{
    words.get(i).copied().unwrap_or(0)
}

// The 126 words.
fn put_words(words: &[u32], area: &mut [u8])
    requires { (length words.now ≤ 126) × (length area.old ≡ 512) }
    ensures { area.new ≡ take 4 area.old ++ (words_bytes (padded words.now) ++ drop 508 area.old) }
{
    for i in 0..WORDS {
        put_four(area, 4 + 4 * i, word_or_zero(words, i));
    }
}

// The first 508 bytes. Block number and word count are the two halves of one number of four bytes.
fn put_front(number: u16, words: &[u32], area: &mut [u8])
    requires { (length words.now ≤ 126) × (length area.old ≡ 512) }
    ensures { area.new ≡ front number words.now ++ drop 508 area.old }
{
    let count = words.len() as u32;
    put_four(area, 0, u32::from(number) + count * 65536);
    put_words(words, area);
}

// The writer of a block: it goes into an area of 512 bytes, or nothing is written where there are more than 126 words or, next, the
// area has another length.
pub fn write_block(number: u16, words: &[u32], area: &mut [u8]) -> Result<(), WriteFault>
    ensures { (number_written result ≡ write_number words.now area.old) × (area.new ≡ area_left number words.now area.old) }
{
    if WORDS < words.len() {
        return Err(WriteFault::Words);
    }
    if area.len() != 512 {
        return Err(WriteFault::Area);
    }
    put_front(number, words, area);
    let total = sum(&area[..SUMMED]);
    put_four(area, 508, total);
    Ok(())
}

// ---- the reader

// Whether the words from this one on are all zero. By words and not by bytes, of which there are four times as many.
fn is_zero_from(bytes: &[u8], from: usize) -> bool
    requires { (512 ≤ length bytes.now) × (from ≤ 126) }
    ensures { result ≡ all_zero (drop from (all_words bytes.now)) }
{
    for i in from..WORDS {
        if four_at(bytes, 4 + 4 * i) != 0 {
            return false;
        }
    }
    true
}

// How many words a good block has, or its first fault.
fn word_count(due: u32, bytes: &[u8]) -> Result<usize, BlockFault>
    ensures { result ≡ words_counted due bytes.now }
{
    if bytes.len() < 512 {
        return Err(BlockFault::Short);
    }
    if four_at(bytes, 508) != sum(&bytes[..SUMMED]) {
        return Err(BlockFault::Sum);
    }
    if two_at(bytes, 0) != due {
        return Err(BlockFault::Number);
    }
    let count = two_at(bytes, 2) as usize;
    if count > WORDS {
        return Err(BlockFault::Count);
    }
    if !is_zero_from(bytes, count) {
        return Err(BlockFault::Unused);
    }
    Ok(count)
}

// The reader of a block, whose number must be the one that is due: its words to the start of the places, and how many they are; or what
// is wrong with it, or that there are fewer places than words, and nothing written.
pub fn read_block(due: u32, bytes: &[u8], words: &mut [u32]) -> Result<usize, BlockFault>
    ensures { (result ≡ block_read due bytes.now words.old) × (words.new ≡ places_left due bytes.now words.old) × BlockCase due bytes.now words.old result }
{
    let count = word_count(due, bytes)?;
    if words.len() < count {
        return Err(BlockFault::Places);
    }
    read_words(&bytes[4..SUMMED], &mut words[..count]);
    Ok(count)
}
