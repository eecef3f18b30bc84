// The line that tells a number given back and twelve numbers: decimal, with a blank between.
#![tactic(auto)]

ghost use Rattle.std.specs.Prelude.{◌≡◌, ◌≤◌, length};
ghost use Rattle.counters6862_lines.specs.Text.{empty as empty_of, pushed, digits_to, number_to, line_to};

// Bytes so far, and how many.
#[derive(Clone, Copy)]
pub struct Text {
    pub bytes: [u8; 96],
    pub count: usize,
}

#[tactic(auto, unfolding(crate::specs::Text::empty))]
fn empty() -> Text
    ensures { result ≡ empty_of }
{
    Text {
        bytes: [0u8; 96],
        count: 0,
    }
}

// A byte more; a full text stands.
#[tactic(auto, unfolding(crate::specs::Text::pushed))]
fn push(t: Text, b: u8) -> Text
    ensures { result ≡ pushed t b }
{
    let mut bytes = t.bytes;
    let at = t.count;
    if at < 96 {
        bytes[at] = b;
        Text {
            bytes,
            count: at + 1,
        }
    } else {
        t
    }
}

// The last digit of a number.
#[tactic(auto, unfolding(crate::specs::Text::digits_to))]
fn one_digit(t: Text, n: u16) -> Text
    ensures { result ≡ digits_to 0 t n }
{
    push(t, 48 + (n % 10) as u8)
}

#[tactic(auto, unfolding(crate::specs::Text::digits_to))]
fn two_digits(t: Text, n: u16) -> Text
    ensures { result ≡ digits_to 1 t n }
{
    if n < 10 {
        one_digit(t, n)
    } else {
        one_digit(one_digit(t, n / 10), n)
    }
}

#[tactic(auto, unfolding(crate::specs::Text::digits_to))]
fn three_digits(t: Text, n: u16) -> Text
    ensures { result ≡ digits_to 2 t n }
{
    if n < 10 {
        one_digit(t, n)
    } else {
        one_digit(two_digits(t, n / 10), n)
    }
}

#[tactic(auto, unfolding(crate::specs::Text::digits_to))]
fn four_digits(t: Text, n: u16) -> Text
    ensures { result ≡ digits_to 3 t n }
{
    if n < 10 {
        one_digit(t, n)
    } else {
        one_digit(three_digits(t, n / 10), n)
    }
}

// A number of up to five digits, without leading zeros.
#[tactic(auto, unfolding(crate::specs::Text::digits_to))]
fn five_digits(t: Text, n: u16) -> Text
    ensures { result ≡ digits_to 4 t n }
{
    if n < 10 {
        one_digit(t, n)
    } else {
        one_digit(four_digits(t, n / 10), n)
    }
}

// A blank and a number.
fn put_number(t: Text, n: u16) -> Text
    ensures { result ≡ number_to t n }
{
    five_digits(push(t, 32), n)
}

// The whole line, without its end.
pub fn line(number: u8, n: [u16; 12]) -> Text
    ensures { (result ≡ line_to number n) × (result.count ≤ length result.bytes) }
{
    let t0 = five_digits(empty(), u16::from(number));
    let t1 = put_number(t0, n[0]);
    let t2 = put_number(t1, n[1]);
    let t3 = put_number(t2, n[2]);
    let t4 = put_number(t3, n[3]);
    let t5 = put_number(t4, n[4]);
    let t6 = put_number(t5, n[5]);
    let t7 = put_number(t6, n[6]);
    let t8 = put_number(t7, n[7]);
    let t9 = put_number(t8, n[8]);
    let t10 = put_number(t9, n[9]);
    let t11 = put_number(t10, n[10]);
    put_number(t11, n[11])
}
