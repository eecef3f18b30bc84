// The arithmetic of the 6502: sums, differences and comparisons of bytes, and the flags that they leave (document 02, Wish 5).
#![tactic(auto)]

ghost use Rattle.std.specs.Prelude.{◌≡◌, ◌+◌, ◌%◌, ◌<◌};
ghost use Rattle.bits.specs.Byte.{num as num_of};
ghost use Rattle.cpu_arithmetic.specs.Arithmetic.{computed, nz as nz_of, nzc as nzc_of, overflow as overflow_of, total as total_of, sum_flags, digit_sum, digit_difference, decimal_sum, decimal_difference, adc as adc_of, sbc as sbc_of, compared as compared_of};

// The flags of P. Bits 5 and 4 exist only in a pushed P. Z stands between D and I, so that the compiler does not join these two in one
// number of 16 bits, to be taken apart again at each instruction.
#[derive(Clone, Copy)]
pub struct Flags {
    pub n: bool,
    pub v: bool,
    pub d: bool,
    pub z: bool,
    pub i: bool,
    pub c: bool,
}

// A decimal digit, or two, with its carry.
#[derive(Clone, Copy)]
pub struct Digit {
    pub value: u8,
    pub carry: bool,
}

// A byte and the flags with it.
#[derive(Clone, Copy)]
pub struct Computed {
    pub value: u8,
    pub flags: Flags,
}

// A byte and the flags with it.
pub fn with_flags(r: u8, f: Flags) -> Computed
    ensures { result ≡ computed r f }
{
    Computed { value: r, flags: f }
}

// N and Z by a byte.
pub fn nz(r: u8, f: Flags) -> Flags
    ensures { result ≡ nz_of r f }
{
    nzc(r, f.c, f)
}

// N and Z by a byte, and C.
pub fn nzc(r: u8, k: bool, f: Flags) -> Flags
    ensures { result ≡ nzc_of r k f }
{
    Flags {
        n: r > 127,
        z: r == 0,
        c: k,
        ..f
    }
}

// A bit as a number, with the bound that sums need.
pub fn num(b: bool) -> u8
    ensures { (result ≡ num_of b) × (result < 2) }
{
    u8::from(b)
}

fn overflow(a: bool, b: bool, r: bool) -> bool
    ensures { result ≡ overflow_of a b r }
{
    a == b && r != a
}

fn total(a: u8, b: u8, k: bool) -> u16
    ensures { result ≡ total_of a b k }
{
    u16::from(a) + u16::from(b) + u16::from(num(k))
}

// A number cut to a byte.
pub fn low_byte(t: u16) -> u8
    ensures { result ≡ t % 256 }
{
    (t % 256) as u8
}

fn sum_flags(a: u8, b: u8, f: Flags) -> Flags
    ensures { result ≡ sum_flags a b f }
{
    let t = total(a, b, f.c);
    let low = low_byte(t);
    Flags {
        n: low > 127,
        v: overflow(a > 127, b > 127, low > 127),
        z: low == 0,
        c: t > 255,
        ..f
    }
}

#[tactic(auto, unfolding(crate::specs::Arithmetic::digit_sum))]
fn digit_sum(a: u8, b: u8, k: bool) -> Digit
    requires { (a < 16) × (b < 16) }
    ensures { (result ≡ digit_sum a b k) × (result.value < 16) }
{
    let t = a + b + num(k);
    if 9 < t {
        Digit {
            value: (t + 6) % 16,
            carry: true,
        }
    } else {
        Digit {
            value: t,
            carry: false,
        }
    }
}

#[tactic(auto, unfolding(crate::specs::Arithmetic::digit_difference))]
fn digit_difference(a: u8, b: u8, k: bool) -> Digit
    requires { (a < 16) × (b < 16) }
    ensures { (result ≡ digit_difference a b k) × (result.value < 16) }
{
    let t = a + num(k);
    if t < b + 1 {
        Digit {
            value: (t + 32 - (b + 1) - 6) % 16,
            carry: false,
        }
    } else {
        Digit {
            value: t - (b + 1),
            carry: true,
        }
    }
}

#[tactic(auto, unfolding(crate::specs::Arithmetic::decimal_sum))]
fn decimal_sum(a: u8, b: u8, k: bool) -> Digit
    ensures { result ≡ decimal_sum a b k }
{
    let lo = digit_sum(a % 16, b % 16, k);
    let hi = digit_sum(a / 16, b / 16, lo.carry);
    Digit {
        value: hi.value * 16 + lo.value,
        carry: hi.carry,
    }
}

#[tactic(auto, unfolding(crate::specs::Arithmetic::decimal_difference))]
fn decimal_difference(a: u8, b: u8, k: bool) -> Digit
    ensures { result ≡ decimal_difference a b k }
{
    let lo = digit_difference(a % 16, b % 16, k);
    let hi = digit_difference(a / 16, b / 16, lo.carry);
    Digit {
        value: hi.value * 16 + lo.value,
        carry: hi.carry,
    }
}

// ADC.
#[tactic(auto, unfolding(crate::specs::Arithmetic::adc))]
pub fn adc(a: u8, b: u8, f: Flags) -> Computed
    ensures { result ≡ adc_of a b f }
{
    let g = sum_flags(a, b, f);
    if f.d {
        let t = decimal_sum(a, b, f.c);
        with_flags(t.value, Flags { c: t.carry, ..g })
    } else {
        with_flags(low_byte(total(a, b, f.c)), g)
    }
}

// SBC.
#[tactic(auto, unfolding(crate::specs::Arithmetic::sbc))]
pub fn sbc(a: u8, b: u8, f: Flags) -> Computed
    ensures { result ≡ sbc_of a b f }
{
    let g = sum_flags(a, 255 - b, f);
    if f.d {
        let t = decimal_difference(a, b, f.c);
        with_flags(t.value, Flags { c: t.carry, ..g })
    } else {
        with_flags(low_byte(total(a, 255 - b, f.c)), g)
    }
}

// The flags of CMP, CPX and CPY.
#[tactic(auto, unfolding(crate::specs::Arithmetic::compared))]
pub fn compared(r: u8, b: u8, f: Flags) -> Flags
    ensures { result ≡ compared_of r b f }
{
    let t = r.wrapping_sub(b);
    nzc(t, b <= r, f)
}
