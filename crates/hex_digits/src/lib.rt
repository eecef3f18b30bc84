// A word as a line of text: hex digits and a newline (document 01, "Replay program and cases").
#![tactic(auto)]

ghost use Rattle.std.specs.Prelude.{◌≡◌, ◌*◌, ◌/◌, ◌<◌, ◌≤◌, ◌++◌, length, take, drop};
ghost use Rattle.hex_digits.specs.Hex.{hex_digit, hex_line, hex_lines};

// The bytes of a line.
const LINE: usize = 9;

// An upper-case hex digit.
fn hex_digit(n: u32) -> u8
    requires { n < 16 }
    ensures { result ≡ hex_digit n }
{
    if n < 10 {
        b'0' + n as u8
    } else {
        b'A' - 10 + n as u8
    }
}

// Eight hex digits and a newline.
#[tactic(auto, unfolding(crate::specs::Hex::hex_line))]
pub fn hex_line(a: u32) -> [u8; LINE]
    ensures { result ≡ hex_line a }
{
    [
        hex_digit(a / 268435456),
        hex_digit(a / 16777216 % 16),
        hex_digit(a / 1048576 % 16),
        hex_digit(a / 65536 % 16),
        hex_digit(a / 4096 % 16),
        hex_digit(a / 256 % 16),
        hex_digit(a / 16 % 16),
        hex_digit(a % 16),
        b'\n',
    ]
}

// The lines of words to the start of the text, as many as fit.
pub fn put_lines(words: &[u32], text: &mut [u8])
    ensures put { text.new ≡ hex_lines (take (length text.old / 9) words.now) ++ drop (length (hex_lines (take (length text.old / 9) words.now))) text.old }
    ensures fits { 9 * length words.now ≤ length text.old → text.new ≡ hex_lines words.now ++ drop (9 * length words.now) text.old }
{
    let fitting = &words[..words.len().min(text.len() / LINE)];
    for (i, word) in fitting.iter().enumerate() {
        byte_copy::copy(&hex_line(*word), &mut text[LINE * i..]);
    }
}
