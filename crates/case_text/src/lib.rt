// A word with its answer as a line of a listing: `read IRQX => done byte 01 requests V`.
#![tactic(auto)]

ghost use Rattle.std.specs.Prelude.{◌≡◌, ◌≤◌, length};
ghost use Rattle.line_text.specs.Line.{size, content};
ghost use Rattle.case_text.specs.Text.{joined as joined_of, case_text, answer_text};

use case_words::ARROW;

fn joined(e: [u64; 3], a: [u64; 12]) -> [u64; 16]
    ensures { (result ≡ joined_of e a) × (16 ≡ length result) }
{
    [
        e[0], e[1], e[2], ARROW, a[0], a[1], a[2], a[3], a[4], a[5], a[6], a[7], a[8], a[9], a[10],
        a[11],
    ]
}

// The line of a word and its answer at the front of a buffer, and its length; 0 and nothing written where the buffer is too short. A line has
// 144 bytes at most.
pub fn write_case(word: u32, answer: u32, out: &mut [u8]) -> usize
    ensures { (result ≡ size (case_text word answer) out.old) × ((out.new ≡ content (case_text word answer) out.old) × (result ≤ 144)) }
{
    let e = event_text_write::event_tokens(word);
    let a = answer_text::answer_tokens(case_lines::is_read(word), answer);
    let tokens = joined(e, a);
    line_text::write_line(&tokens, out)
}

// The answer alone, in the same way.
pub fn write_answer(word: u32, answer: u32, out: &mut [u8]) -> usize
    ensures { (result ≡ size (answer_text word answer) out.old) × ((out.new ≡ content (answer_text word answer) out.old) × (result ≤ 144)) }
{
    let tokens = answer_text::answer_tokens(case_lines::is_read(word), answer);
    line_text::write_line(&tokens, out)
}
