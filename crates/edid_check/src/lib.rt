// The check of an EDID base block before it goes into RAM (document 02, Wishes 7 and 8).
#![tactic(auto)]

ghost use Rattle.std.specs.Prelude.{◌≡◌, ◌≤◌, length};
ghost use Rattle.edid_check.specs.Block.{header_fits, sum_of, sum_fits};
ghost use Rattle.edid_check.specs.Edid.{version_fits, digital_fits, depth_fits, interface_fits, input_by3, input_by4, input_verdict, contents as contents_of, Judged, number_of};

// The edition of an accepted block, by its revision: 1.3 or 1.4.
#[derive(Clone, Copy)]
pub enum Edition {
    Revision3,
    Revision4,
}

// Accepted, or the first rule that the block breaks.
#[derive(Clone, Copy)]
pub enum Verdict {
    Accepted(Edition),
    Length,
    Header,
    Version,
    Sum,
    Digital,
    Depth,
    Interface,
}

fn header_fits(block: &[u8]) -> bool
    requires { length block.now ≡ 128 }
    ensures { result ≡ header_fits block.now }
{
    (block[0] == 0)
        & ((block[1] == 255)
            & ((block[2] == 255)
                & ((block[3] == 255)
                    & ((block[4] == 255)
                        & ((block[5] == 255) & ((block[6] == 255) & (block[7] == 0)))))))
}

fn version_fits(block: &[u8]) -> bool
    requires { length block.now ≡ 128 }
    ensures { result ≡ version_fits block.now }
{
    (block[18] == 1) & ((block[19] == 3) | (block[19] == 4))
}

// 128 bytes add up to 32,640 at most.
fn sum(block: &[u8]) -> u32
    requires { length block.now ≤ 128 }
    ensures { result ≡ sum_of block.now }
{
    block.iter().map(|b| u32::from(*b)).sum()
}

fn sum_fits(block: &[u8]) -> bool
    requires { length block.now ≡ 128 }
    ensures { result ≡ sum_fits block.now }
{
    sum(block) % 256 == 0
}

fn digital_fits(input: u8) -> bool
    ensures { result ≡ digital_fits input }
{
    if bits::bit(7, input) {
        input / 2 % 64 == 0
    } else {
        true
    }
}

fn depth_fits(input: u8) -> bool
    ensures { result ≡ depth_fits input }
{
    if bits::bit(7, input) {
        input / 16 % 8 < 7
    } else {
        true
    }
}

fn interface_fits(input: u8) -> bool
    ensures { result ≡ interface_fits input }
{
    if bits::bit(7, input) {
        input % 16 < 6
    } else {
        true
    }
}

fn input_by_3(input: u8) -> Verdict
    ensures { result ≡ input_by3 input }
{
    if digital_fits(input) {
        Verdict::Accepted(Edition::Revision3)
    } else {
        Verdict::Digital
    }
}

fn input_by_4(input: u8) -> Verdict
    ensures { result ≡ input_by4 input }
{
    if depth_fits(input) {
        if interface_fits(input) {
            Verdict::Accepted(Edition::Revision4)
        } else {
            Verdict::Interface
        }
    } else {
        Verdict::Depth
    }
}

// Byte 20 by the rule that the revision selects.
fn input_verdict(revision: u8, input: u8) -> Verdict
    ensures { result ≡ input_verdict revision input }
{
    if revision == 3 {
        input_by_3(input)
    } else {
        input_by_4(input)
    }
}

// A block of 128 bytes with its header: version, then sum, then byte 20.
fn contents(block: &[u8]) -> Verdict
    requires { length block.now ≡ 128 }
    ensures { result ≡ contents_of block.now }
{
    if version_fits(block) {
        if sum_fits(block) {
            input_verdict(block[19], block[20])
        } else {
            Verdict::Sum
        }
    } else {
        Verdict::Version
    }
}

// The check of a block of any length.
pub fn check(block: &[u8]) -> Verdict
    ensures { Judged block.now result }
{
    if block.len() == 128 {
        if header_fits(block) {
            contents(block)
        } else {
            Verdict::Header
        }
    } else {
        Verdict::Length
    }
}

// The number of a verdict: 0 for an accepted block.
pub fn number(v: Verdict) -> u8
    ensures { result ≡ number_of v }
{
    match v {
        Verdict::Accepted(_) => 0,
        Verdict::Length => 30,
        Verdict::Header => 31,
        Verdict::Version => 32,
        Verdict::Sum => 33,
        Verdict::Digital => 34,
        Verdict::Depth => 35,
        Verdict::Interface => 36,
    }
}
