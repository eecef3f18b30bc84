// The addressing modes of the 6502 (document 02, Wish 5).
#![tactic(auto)]

ghost use Rattle.std.specs.Prelude.{◌≡◌, ◌+◌, ◌-◌, ◌*◌, ◌%◌, ◌≤◌, false, get_or};
ghost use Rattle.cpu_memory.specs.Memory.{memory};
ghost use Rattle.cpu_memory.specs.Reads.{run, high_byte, word};
ghost use Rattle.cpu_addressing.specs.Addressing.{word_result, located_result, WordCase, LocatedCase, effective, ahead as ahead_of, indexed as indexed_of, branch_target, branch_to, next_in_page, zero_page, absolute, absolute_unless, pointer, zero_page_pointer, absolute_indirect, relative, locate as locate_of};

use cpu_memory::Loaded;
use cpu_opcodes::Mode;
use cpu_operations::Cpu;

// An effective address, and whether a page was crossed on the way to it.
#[derive(Clone, Copy)]
pub struct Effective {
    pub address: u16,
    pub crossed: bool,
}

// Two bytes read as an address, or the number of the read that failed.
#[derive(Clone, Copy)]
pub enum Word {
    Value(u16),
    Refused(u8),
}

// An effective address, or the number of the read that failed.
#[derive(Clone, Copy)]
pub enum Located {
    At(Effective),
    Refused(u8),
}

// An address n bytes further.
pub fn ahead(a: u16, n: u16) -> u16
    ensures { result ≡ ahead_of a n }
{
    a.wrapping_add(n)
}

fn joined(h: u8, l: u8) -> u16
    ensures { result ≡ h * 256 + l }
{
    u16::from(h) * 256 + u16::from(l)
}

fn next_in_page(a: u16) -> u16
    ensures { result ≡ next_in_page a }
{
    a / 256 * 256 + (a % 256 + 1) % 256
}

fn indexed(a: u16, i: u8) -> Effective
    ensures { result ≡ indexed_of a i }
{
    let n = u16::from(i);
    Effective {
        address: ahead(a, n),
        crossed: a % 256 + n > 255,
    }
}

#[tactic(auto, unfolding(crate::specs::Addressing::branch_target))]
fn branch_target(p: u16, b: u8) -> u16
    ensures { result ≡ branch_target p b }
{
    let n = u16::from(b);
    if b < 128 {
        ahead(p, n)
    } else {
        ahead(p, n + 65280)
    }
}

#[tactic(auto, unfolding(crate::specs::Addressing::branch_to))]
fn branch_to(p: u16, b: u8) -> Effective
    ensures { result ≡ branch_to p b }
{
    let t = branch_target(p, b);
    Effective {
        address: t,
        crossed: t / 256 != p / 256,
    }
}

// The word whose low byte is at a and whose high byte is at b.
pub fn word_at(seen: &[u16; 38], ram: &[u8; 256], rom: &[u8], a: u16, b: u16) -> Word
    ensures { WordCase (run (memory seen.now ram.now rom.now) (word a b)) result }
{
    let p = cpu_memory::load(seen, ram, rom, a);
    match p {
        Loaded::Byte(l) => high_byte(seen, ram, rom, l, b),
        Loaded::Refused(n) => Word::Refused(n),
    }
}

fn high_byte(seen: &[u16; 38], ram: &[u8; 256], rom: &[u8], l: u8, b: u16) -> Word
    ensures { word_result result ≡ run (memory seen.now ram.now rom.now) (high_byte l b) }
{
    let q = cpu_memory::load(seen, ram, rom, b);
    match q {
        Loaded::Byte(h) => Word::Value(joined(h, l)),
        Loaded::Refused(n) => Word::Refused(n),
    }
}

fn sum_in_page(b: u8, i: u8) -> u16
    ensures { result ≡ (b + i) % 256 }
{
    u16::from(b.wrapping_add(i))
}

// An address on the way to which no page was crossed.
fn uncrossed(address: u16) -> Effective
    ensures { result ≡ effective address false }
{
    Effective {
        address,
        crossed: false,
    }
}

fn zero_page(seen: &[u16; 38], ram: &[u8; 256], rom: &[u8], a: u16, i: u8) -> Located
    ensures { located_result result ≡ run (memory seen.now ram.now rom.now) (zero_page a i) }
{
    match cpu_memory::load(seen, ram, rom, a) {
        Loaded::Byte(b) => Located::At(uncrossed(sum_in_page(b, i))),
        Loaded::Refused(n) => Located::Refused(n),
    }
}

// The word at two addresses of ROM.
fn word_in_rom(rom: &[u8], a: u16, b: u16) -> u16
    requires { (0xA000 ≤ a) × (0xA000 ≤ b) }
    ensures { result ≡ get_or rom.now (b - 0xA000) 0 * 256 + get_or rom.now (a - 0xA000) 0 }
{
    let l = cpu_memory::rom_byte(rom, usize::from(a - 0xA000));
    let h = cpu_memory::rom_byte(rom, usize::from(b - 0xA000));
    joined(h, l)
}

// An operand in ROM, where programs are, is read without asking where its bytes lead.
fn absolute_at(seen: &[u16; 38], ram: &[u8; 256], rom: &[u8], a: u16, b: u16, i: u8) -> Located
    ensures { located_result result ≡ run (memory seen.now ram.now rom.now) (absolute a b i) }
{
    if a >= 0xA000 {
        if b >= 0xA000 {
            return Located::At(indexed(word_in_rom(rom, a, b), i));
        }
    }
    let p = word_at(seen, ram, rom, a, b);
    match p {
        Word::Value(v) => Located::At(indexed(v, i)),
        Word::Refused(n) => Located::Refused(n),
    }
}

fn absolute_unless(
    own: bool,
    seen: &[u16; 38],
    ram: &[u8; 256],
    rom: &[u8],
    a: u16,
    b: u16,
) -> Located
    ensures { located_result result ≡ run (memory seen.now ram.now rom.now) (absolute_unless own a b) }
{
    if own {
        Located::At(uncrossed(0))
    } else {
        absolute_at(seen, ram, rom, a, b, 0)
    }
}

fn pointer_at(seen: &[u16; 38], ram: &[u8; 256], rom: &[u8], p: u16, i: u8) -> Located
    ensures { located_result result ≡ run (memory seen.now ram.now rom.now) (pointer p i) }
{
    let t = next_in_page(p);
    let q = word_at(seen, ram, rom, p, t);
    match q {
        Word::Value(v) => Located::At(indexed(v, i)),
        Word::Refused(n) => Located::Refused(n),
    }
}

fn zero_page_pointer(seen: &[u16; 38], ram: &[u8; 256], rom: &[u8], a: u16, i: u8, j: u8) -> Located
    ensures { located_result result ≡ run (memory seen.now ram.now rom.now) (zero_page_pointer a i j) }
{
    let p = cpu_memory::load(seen, ram, rom, a);
    match p {
        Loaded::Byte(b) => pointer_at(seen, ram, rom, sum_in_page(b, i), j),
        Loaded::Refused(n) => Located::Refused(n),
    }
}

fn indirect_at(seen: &[u16; 38], ram: &[u8; 256], rom: &[u8], a: u16, b: u16) -> Located
    ensures { located_result result ≡ run (memory seen.now ram.now rom.now) (absolute_indirect a b) }
{
    let p = word_at(seen, ram, rom, a, b);
    match p {
        Word::Value(v) => pointer_at(seen, ram, rom, v, 0),
        Word::Refused(n) => Located::Refused(n),
    }
}

fn relative_at(seen: &[u16; 38], ram: &[u8; 256], rom: &[u8], a: u16, p: u16) -> Located
    ensures { located_result result ≡ run (memory seen.now ram.now rom.now) (relative a p) }
{
    let q = cpu_memory::load(seen, ram, rom, a);
    match q {
        Loaded::Byte(b) => Located::At(branch_to(p, b)),
        Loaded::Refused(n) => Located::Refused(n),
    }
}

// The effective address of the instruction at PC. An instruction that fetches its own operand has none; that is asked only where the mode is
// absolute, as JSR's is.
pub fn locate(own: bool, m: Mode, c: Cpu, seen: &[u16; 38], ram: &[u8; 256], rom: &[u8]) -> Located
    ensures { LocatedCase (run (memory seen.now ram.now rom.now) (locate_of own m c)) result }
{
    let pc = c.pc;
    let x = c.x;
    let y = c.y;
    let a = ahead(pc, 1);
    let b = ahead(pc, 2);
    match m {
        Mode::Implied => Located::At(uncrossed(0)),
        Mode::Accumulator => Located::At(uncrossed(0)),
        Mode::Immediate => Located::At(uncrossed(a)),
        Mode::ZeroPage => zero_page(seen, ram, rom, a, 0),
        Mode::ZeroPageX => zero_page(seen, ram, rom, a, x),
        Mode::ZeroPageY => zero_page(seen, ram, rom, a, y),
        Mode::Absolute => absolute_unless(own, seen, ram, rom, a, b),
        Mode::AbsoluteX => absolute_at(seen, ram, rom, a, b, x),
        Mode::AbsoluteY => absolute_at(seen, ram, rom, a, b, y),
        Mode::AbsoluteIndirect => indirect_at(seen, ram, rom, a, b),
        Mode::IndexedIndirect => zero_page_pointer(seen, ram, rom, a, x, 0),
        Mode::IndirectIndexed => zero_page_pointer(seen, ram, rom, a, 0, y),
        Mode::Relative => relative_at(seen, ram, rom, a, b),
        Mode::Undocumented => Located::Refused(20),
    }
}
