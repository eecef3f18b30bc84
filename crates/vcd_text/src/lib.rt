// The text of a value change dump: tokens between white space, compared with words and read as decimal numbers.
#![tactic(auto)]

ghost use Rattle.std.specs.Prelude.{◌≡◌, ◌+◌, ◌*◌, ◌<◌, drop};
ghost use Rattle.vcd_text.specs.Token.{white as white_of, white_length, word_length, same_bytes, graphic as graphic_of, all_graphic, end_word, number_of, grown_by, longer_by, decimal_of};

// The byte is white space. Most bytes are above 32: that is tested first.
pub fn white(b: u8) -> bool
    ensures { result ≡ white_of b }
{
    if 32 < b {
        return false;
    }
    if b == 32 {
        return true;
    }
    if b < 9 {
        return false;
    }
    b < 14
}

// What stands from a place on: nothing past the end of the text.
fn rest_from(text: &[u8], from: usize) -> &[u8]
    ensures { result.now ≡ drop from text.now }
{
    text.get(from..).unwrap_or(&[])
}

// The first place, from a place on, that is not white, or the end of the text.
pub fn skip_white(text: &[u8], from: usize) -> usize
    ensures { result ≡ from + white_length (drop from text.now) }
{
    from + rest_from(text, from)
        .iter()
        .take_while(|b| white(**b))
        .count()
}

// The first white place from a place on, or the end of the text.
pub fn word_end(text: &[u8], from: usize) -> usize
    ensures { result ≡ from + word_length (drop from text.now) }
{
    from + rest_from(text, from)
        .iter()
        .take_while(|b| !white(**b))
        .count()
}

// Two texts are equal, byte for byte. Kept beside `==`, which asks for `.as_slice()` after each byte string that a text is compared
// with: here the call makes a slice of it.
#[tactic(auto, using(crate::proofs::Laws::same_pointwise))]
pub fn same(a: &[u8], b: &[u8]) -> bool
    ensures { result ≡ same_bytes a.now b.now }
{
    a == b
}

// The token is `$end`.
pub fn is_end(t: &[u8]) -> bool
    ensures { result ≡ same_bytes t.now end_word }
{
    same(t, b"$end")
}

// Every byte is one that codes and names are made of.
pub fn all_graphic(t: &[u8]) -> bool
    ensures { result ≡ all_graphic t.now }
{
    t.iter().all(u8::is_ascii_graphic)
}

// Why a text is no number that 64 bits hold.
#[derive(Clone, Copy, PartialEq, Eq, Debug)]
pub enum NumberError {
    // it is empty, or a byte is no digit
    Bad,
    // 2^64 or more
    Big,
}

// A number with one byte more.
#[tactic(auto, unfolding(crate::specs::Token::longer_by, crate::specs::Token::grown_by))]
fn longer(n: Result<u64, NumberError>, b: u8) -> Result<u64, NumberError>
    ensures { result ≡ longer_by n b }
{
    if !b.is_ascii_digit() {
        return Err(NumberError::Bad);
    }
    appended(n?, u64::from(b - b'0'))
}

#[tactic(auto, unfolding(crate::specs::Token::number_of))]
fn appended(v: u64, d: u64) -> Result<u64, NumberError>
    ensures { result ≡ number_of (v * 10 + d) }
{
    v.checked_mul(10)
        .and_then(|tens| tens.checked_add(d))
        .ok_or(NumberError::Big)
}

// The number that a text is.
pub fn decimal(t: &[u8]) -> Result<u64, NumberError>
    ensures { result ≡ decimal_of t.now }
{
    if t.is_empty() {
        return Err(NumberError::Bad);
    }
    t.iter().fold(Ok(0), |n, b| longer(n, *b))
}
