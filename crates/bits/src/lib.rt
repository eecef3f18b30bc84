// Bytes, their bits, and a write under a mask.
#![tactic(auto)]

ghost use Rattle.std.specs.Prelude.{◌≡◌, ◌%◌};
ghost use Rattle.bits.specs.Byte.{bit as bit_of, merge as merge_of, with_bit, num as num_of, weight_if};

// The bits of `mask` from `new`, the others from `old`.
#[tactic(auto, unfolding(crate::specs::Byte::merge))]
pub fn merge(mask: u8, old: u8, new: u8) -> u8
    ensures { result ≡ merge_of mask old new }
{
    (old & !mask) | (new & mask)
}

// Bit k of x, for k counted modulo 8.
#[tactic(auto, unfolding(crate::specs::Byte::bit))]
pub fn bit(k: u8, x: u8) -> bool
    ensures { result ≡ bit_of (k % 8) x }
{
    (x >> (k % 8)) % 2 == 1
}

// The byte x with bit k, counted modulo 8, put to v.
#[tactic(auto, unfolding(crate::specs::Byte::with_bit))]
pub fn with_bit(x: u8, k: u8, v: bool) -> u8
    ensures { result ≡ with_bit x k v }
{
    let weight = 1 << (k % 8);
    if v { x | weight } else { x & !weight }
}

// A level as a number.
pub fn num(v: bool) -> u8
    ensures { result ≡ num_of v }
{
    u8::from(v)
}

// The weight of bit k, counted modulo 8, where the bit is 1, else 0.
pub fn weight_if(v: bool, k: u8) -> u8
    ensures { result ≡ weight_if v k }
{
    if v { 1 << (k % 8) } else { 0 }
}
