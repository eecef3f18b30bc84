// Tokens written as a line: the bytes of each, with one blank between two.
#![tactic(auto)]

ghost use Rattle.std.specs.Prelude.{◌≡◌, ◌+◌, ◌*◌, ◌≤◌, length};
ghost use Rattle.line_tokens.specs.Written.{written, piece, pieces};
ghost use Rattle.line_text.specs.Line.{Put, line_size, line_content};

// A token put at a place of the buffer, n bytes of it at most; where it ends. Buffer and place are two arguments, as `Put` of the laws has
// them: a struct of both would carry a loan, and be no plainer for three functions.
fn put(buf: &mut [u8], at: usize, n: u32, v: u64) -> usize
    requires { at + n ≤ length buf.old }
    ensures { Put buf.old at (written n v) result buf.new }
{
    if n == 0 {
        return at;
    }
    if v == 0 {
        return at;
    }
    let e = put(buf, at, n - 1, v / 256);
    buf[e] = (v % 256) as u8;
    e + 1
}

// A blank and a token, if there is one.
fn put_piece(buf: &mut [u8], at: usize, v: u64) -> usize
    requires { at + 9 ≤ length buf.old }
    ensures { Put buf.old at (piece v) result buf.new }
{
    if v == 0 {
        return at;
    }
    buf[at] = 32;
    put(buf, at + 1, 8, v)
}

// Tokens at the front of the buffer.
fn put_pieces(buf: &mut [u8], tokens: &[u64]) -> usize
    requires { 9 * length tokens.now ≤ length buf.old }
    ensures { Put buf.old 0 (pieces tokens.now) result buf.new }
{
    let mut at = 0;
    for v in tokens {
        at = put_piece(buf, at, *v);
    }
    at
}

// The line of tokens, 0 for none, at the front of a buffer, and its length; 0 and nothing written where the buffer is too short, or where
// there are more than sixteen.
pub fn write_line(tokens: &[u64], out: &mut [u8]) -> usize
    ensures { (result ≡ line_size tokens.now out.old) × (out.new ≡ line_content tokens.now out.old) }
{
    if 16 < tokens.len() {
        return 0;
    }
    let mut text = [0u8; 144];
    let end = put_pieces(&mut text, tokens);
    if end == 0 {
        return 0;
    }
    if out.len() < end - 1 {
        return 0;
    }
    byte_copy::copy(&text[1..end], out)
}
