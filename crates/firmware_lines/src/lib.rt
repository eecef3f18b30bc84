// What is printed of a firmware run: registers, instructions and events as text (document 02, Wish 5; images/README.md).
#![tactic(auto)]

ghost use Rattle.std.specs.Prelude.{◌≡◌, ◌+◌, ◌/◌, ◌%◌, ◌<◌, length};
ghost use Rattle.hex_digits.specs.Hex.{hex_digit};
ghost use Rattle.firmware_lines.specs.Lines.{with_byte, shown_p, register_line, instruction_text, idle_text, event_text};

use cpu_arithmetic::Flags;
use cpu_operations::Cpu;

// An upper-case hex digit.
fn hex_digit(d: u8) -> u8
    requires { d < 16 }
    ensures { result ≡ hex_digit d }
{
    if d < 10 { b'0' + d } else { b'A' + (d - 10) }
}

// The two digits of a byte, from a place of a line on.
fn put_byte(line: &mut [u8], at: usize, b: u8)
    requires { at + 1 < length line.old }
    ensures { line.new ≡ with_byte line.old at b }
{
    line[at] = hex_digit(b / 16);
    line[at + 1] = hex_digit(b % 16);
}

// The four digits of an address.
fn put_address(line: &mut [u8], at: usize, a: u16)
    requires { at + 3 < length line.old }
    ensures { line.new ≡ with_byte (with_byte line.old at (a / 256)) (at + 2) (a % 256) }
{
    let [high, low] = a.to_be_bytes();
    put_byte(line, at, high);
    put_byte(line, at + 2, low);
}

// P with bits 5 and 4 zero.
fn shown_p(f: Flags) -> u8
    ensures { result ≡ shown_p f }
{
    cpu_operations::pushed_p(f, false) - 32
}

// The registers: `A=.. X=.. Y=.. S=.. P=.. PC=.... over=..` and a newline.
#[tactic(auto, unfolding(crate::specs::Lines::register_line))]
pub fn register_line(c: Cpu) -> [u8; 41]
    ensures { result ≡ register_line c }
{
    let mut line = *b"A=.. X=.. Y=.. S=.. P=.. PC=.... over=..\n";
    put_byte(&mut line, 2, c.a);
    put_byte(&mut line, 7, c.x);
    put_byte(&mut line, 12, c.y);
    put_byte(&mut line, 17, c.s);
    put_byte(&mut line, 22, shown_p(c.p));
    put_address(&mut line, 28, c.pc);
    put_byte(&mut line, 38, c.over);
    line
}

// Where an instruction lay, and its opcode: ` PPPP OO `.
#[tactic(auto, unfolding(crate::specs::Lines::instruction_text))]
pub fn instruction_text(pc: u16, opcode: u8) -> [u8; 9]
    ensures { result ≡ instruction_text pc opcode }
{
    let mut line = *b" .... .. ";
    put_address(&mut line, 1, pc);
    put_byte(&mut line, 6, opcode);
    line
}

// The same while RESET is low, and no opcode is read: ` PPPP -- `.
#[tactic(auto, unfolding(crate::specs::Lines::idle_text))]
pub fn idle_text(pc: u16) -> [u8; 9]
    ensures { result ≡ idle_text pc }
{
    let mut idle = *b" .... -- ";
    put_address(&mut idle, 1, pc);
    idle
}

// An event and its answer, each in eight digits: ` event WWWWWWWW AAAAAAAA` and a newline.
pub fn event_text(word: u32, answer: u32) -> [u8; 25]
    ensures { result ≡ event_text word answer }
{
    let w = hex_digits::hex_line(word);
    let a = hex_digits::hex_line(answer);
    let mut line = *b" event ........ ........\n";
    line[7..15].copy_from_slice(&w[..8]);
    line[16..].copy_from_slice(&a);
    line
}
