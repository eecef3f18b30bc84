// From the bytes of event words to the text of the answers (document 01, "Replay program and cases").
#![tactic(auto)]

ghost use Rattle.std.specs.Prelude.{◌≡◌, ◌-◌, ◌*◌, ◌/◌, ◌≤◌, ◌++◌, length, drop};
ghost use Rattle.list_call.specs.Run.{advanced, advanced_answers};
ghost use Rattle.recording_blocks.specs.Bytes.{words_of};
ghost use Rattle.replay_text.specs.Text.{hex_lines, left_over_answer, answered, answered_text, part_answered, part_text, part_bytes};

use chip::Chip;

// What a block gives: the chip after its words, and the bytes of text written. Where the text does not fit, these are the chip as it was
// and none, so that a caller goes on as it would: an Option here and for a part gives each caller a branch that does the same.
#[derive(Clone, Copy)]
pub struct Answered {
    pub chip: Chip,
    pub count: usize,
}

// What a part gives: the chip after its whole words, the bytes of text written, and how many bytes are carried over to the next.
#[derive(Clone, Copy)]
pub struct Part {
    pub chip: Chip,
    pub count: usize,
    pub carried: usize,
}

// How many words are answered at a time, and their bytes; and the bytes of a line.
const WORDS: usize = 1024;

const PART: usize = 4 * WORDS;

const LINE: usize = 9;

// The words of up to 4,096 bytes to the chip, and the lines of their answers to the start of the text: by the list call, whose loop
// carries no chip from word to word.
fn answer_some(c: Chip, bytes: &[u8], text: &mut [u8]) -> Chip
    requires { (length bytes.now ≤ 4096) × (9 * (length bytes.now / 4) ≤ length text.old) }
    ensures { (result ≡ advanced c (words_of bytes.now)) × (text.new ≡ hex_lines (advanced_answers c (words_of bytes.now)) ++ drop (9 * (length bytes.now / 4)) text.old) }
{
    let mut words = [0; WORDS];
    let mut answers = [0; WORDS];
    let count = bytes.len() / 4;
    recording_blocks::read_words(bytes, &mut words);
    let done = list_call::advance_all(c, &words[..count], &mut answers);
    hex_digits::put_lines(&answers[..count], text);
    done.chip
}

// Every whole word to the chip, and the lines of the answers to the start of the text.
fn answer_words(start: Chip, bytes: &[u8], text: &mut [u8]) -> Chip
    requires { 9 * (length bytes.now / 4) ≤ length text.old }
    ensures { (result ≡ advanced start (words_of bytes.now)) × (text.new ≡ hex_lines (advanced_answers start (words_of bytes.now)) ++ drop (9 * (length bytes.now / 4)) text.old) }
{
    let mut c = start;
    let mut at = 0;
    for part in bytes.chunks(PART) {
        c = answer_some(c, part, &mut text[at..]);
        at += LINE * (part.len() / 4);
    }
    c
}

// The answer to bytes that make no whole word.
fn left_over_answer(c: Chip) -> u32
    ensures { result ≡ left_over_answer c }
{
    answers::answer(1, false, chip::requests(c), 0)
}

// A block of the stream: the text of its answers to the start of `replay_text`, or nothing where that is too short. Only the last
// block of a stream may end within a word.
pub fn answer_block(start: Chip, bytes: &[u8], text: &mut [u8]) -> Answered
    ensures { (result ≡ answered start bytes.now text.old) × (text.new ≡ answered_text start bytes.now text.old) }
{
    let whole = bytes.len() / 4;
    let rest = bytes.len() % 4;
    if text.len() / LINE < whole + (rest + 3) / 4 {
        return Answered {
            chip: start,
            count: 0,
        };
    }
    let c = answer_words(start, bytes, text);
    if rest == 0 {
        return Answered {
            chip: c,
            count: LINE * whole,
        };
    }
    hex_digits::put_lines(&[left_over_answer(c)], &mut text[LINE * whole..]);
    Answered {
        chip: c,
        count: LINE * whole + LINE,
    }
}

// Where the whole words of so many bytes end.
fn whole_end(length: usize) -> usize
    ensures { result ≡ 4 * (length / 4) }
{
    4 * (length / 4)
}

// A part of a stream that comes as it comes, behind the bytes carried over from the part before: the text of its whole words to
// the start of `replay_text`, and the bytes of a cut word to the start of `bytes`. Where the text does not fit nothing is written.
pub fn answer_part(start: Chip, bytes: &mut [u8], text: &mut [u8]) -> Part
    ensures { (result ≡ part_answered start bytes.old text.old) × ((bytes.new ≡ part_bytes start bytes.old text.old) × (text.new ≡ part_text start bytes.old text.old)) }
{
    let whole = bytes.len() / 4;
    if text.len() / LINE < whole {
        return Part {
            chip: start,
            count: 0,
            carried: bytes.len(),
        };
    }
    let c = answer_words(start, bytes, text);
    bytes.copy_within(whole_end(bytes.len()).., 0);
    Part {
        chip: c,
        count: LINE * whole,
        carried: bytes.len() % 4,
    }
}
