// A recording replayed: from its blocks to the text of the answers (document 02, Wish 1).
#![tactic(auto)]

ghost use Rattle.std.specs.Prelude.{◌≡◌, true, ◌+◌, ◌*◌, ◌≤◌, ◌++◌, length, drop};
ghost use Rattle.chip_well_formed.specs.WellFormed.{well_formed};
ghost use Rattle.list_call.specs.Run.{advanced, advanced_answers};
ghost use Rattle.recording_parts.specs.Recording.{number_at};
ghost use Rattle.recording_replay.specs.Replay.{hex_lines, last_answer, replayed, text_left};

use chip::Chip;
use recording_blocks::BlockFault;

// The bytes of a line.
const LINE: usize = 9;

// What a replay gives: the chip after the words, the number that is due next, the bytes of text written, and 0 or a number.
#[derive(Clone, Copy)]
pub struct Replayed {
    pub chip: Chip,
    pub next: u32,
    pub count: usize,
    pub number: u8,
}

// The number of what is wrong, 0 where nothing is.
fn number_of(fault: Option<BlockFault>) -> u8
    ensures { result ≡ number_at fault }
{
    match fault {
        Some(fault) => fault.number(),
        None => 0,
    }
}

// The lines of answers and, where the number is not 0, of a bad block's last answer word.
fn put_text(answers: &[u32], number: u8, text: &mut [u8])
    requires { length (hex_lines (answers.now ++ last_answer number)) ≤ length text.old }
    ensures { text.new ≡ hex_lines (answers.now ++ last_answer number) ++ drop (length (hex_lines (answers.now ++ last_answer number))) text.old }
{
    hex_digits::put_lines(answers, text);
    if number == 0 {
        return;
    }
    hex_digits::put_lines(
        &[answers::answer(number, false, 0, 0)],
        &mut text[LINE * answers.len()..],
    );
}

// The list call, which a well formed state and enough places make sure of.
fn answer_words(start: Chip, words: &[u32], answers: &mut [u32]) -> Chip
    requires { (well_formed start ≡ true) × (length words.now ≤ length answers.old) }
    ensures { (result ≡ advanced start words.now) × (answers.new ≡ advanced_answers start words.now ++ drop (length words.now) answers.old) }
{
    list_call::run(start, words, answers).chip
}

// Places for the words of 32 blocks, or for their answers.
fn places() -> [u32; 4032]
    ensures { 4032 ≡ length result }
{
    [0; 4032]
}

// The bytes of text that answers and a number take.
fn text_length(count: usize, number: u8) -> usize
    requires { count ≤ 4032 }
    ensures { result ≡ 9 * (count + length (last_answer number)) }
{
    if number == 0 {
        LINE * count
    } else {
        LINE * count + LINE
    }
}

// The replay of blocks from a state that is offered, where the first block must have the number that is due: the text of the
// answers to the start of `replay_text`. At an ill formed state 8, before any block is read; then 7 for more than 32 whole blocks, or
// where the text does not fit; and nothing written.
pub fn replay_blocks(start: Chip, due: u32, bytes: &[u8], text: &mut [u8]) -> Replayed
    ensures { (result ≡ replayed start due bytes.now text.old) × (text.new ≡ text_left start due bytes.now text.old) }
{
    if chip_well_formed::well_formed(start) {
        if 32 < bytes.len() / 512 {
            return Replayed {
                chip: start,
                next: due,
                count: 0,
                number: 7,
            };
        }
        let mut words = places();
        let read = recording_parts::read_blocks(due, bytes, &mut words);
        let count = read.count;
        let number = number_of(read.fault);
        let size = text_length(count, number);
        if text.len() < size {
            return Replayed {
                chip: start,
                next: due,
                count: 0,
                number: 7,
            };
        }
        let mut answers = places();
        let after = answer_words(start, &words[..count], &mut answers);
        put_text(&answers[..count], number, text);
        return Replayed {
            chip: after,
            next: read.next,
            count: size,
            number,
        };
    }
    Replayed {
        chip: start,
        next: due,
        count: 0,
        number: 8,
    }
}
