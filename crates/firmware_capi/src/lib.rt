// The firmware call for programs in C or Rust: CPU, RAM and chip in areas that the caller lends (document 02, Wish 5).
#![tactic(auto)]

ghost use Rattle.std.specs.Prelude.{◌≡◌, true, ◌+◌, ◌*◌, length};
ghost use Rattle.state_bytes.specs.Layout.{bytes_of};
ghost use Rattle.firmware_capi.specs.Call.{cpu_of, flags_byte, cpu_bytes, left, has_begun, counts_of, run_in, are_sized, firmware_in};

use chip::Chip;
use cpu_arithmetic::Flags;
use cpu_operations::Cpu;
use firmware_run::FirmwareResult;

// ---- a CPU as eight bytes

fn word(low: u8, high: u8) -> u16
    ensures { result ≡ low + high * 256 }
{
    (low as u16) + (high as u16) * 256
}

fn cpu_of(bytes: &[u8]) -> Cpu
    requires { length bytes.now ≡ 8 }
    ensures { result ≡ cpu_of bytes.now }
{
    let p = cpu_operations::pulled_p(bytes[4]);
    let pc = word(bytes[5], bytes[6]);
    Cpu {
        a: bytes[0],
        x: bytes[1],
        y: bytes[2],
        s: bytes[3],
        p: p,
        pc: pc,
        over: bytes[7],
    }
}

fn flags_byte(f: Flags) -> u8
    ensures { result ≡ flags_byte f }
{
    cpu_arithmetic::num(f.n) * 128
        + cpu_arithmetic::num(f.v) * 64
        + cpu_arithmetic::num(f.d) * 8
        + cpu_arithmetic::num(f.i) * 4
        + cpu_arithmetic::num(f.z) * 2
        + cpu_arithmetic::num(f.c)
}

fn keep_cpu(bytes: &mut [u8], c: Cpu)
    requires { length bytes.old ≡ 8 }
    ensures { bytes.new ≡ cpu_bytes c }
{
    let p = c.p;
    let pc = c.pc;
    bytes[0] = c.a;
    bytes[1] = c.x;
    bytes[2] = c.y;
    bytes[3] = c.s;
    bytes[4] = flags_byte(p);
    bytes[5] = (pc % 256) as u8;
    bytes[6] = (pc / 256) as u8;
    bytes[7] = c.over;
}

// ---- the other areas

fn ram_of(area: &[u8]) -> [u8; 256]
    requires { length area.now ≡ 256 }
    ensures { result ≡ area.now }
{
    let mut bytes = [0u8; 256];
    byte_copy::copy(area, &mut bytes);
    bytes
}

fn keep_ram(area: &mut [u8], ram: &[u8; 256])
    requires { length area.old ≡ 256 }
    ensures { area.new ≡ ram.now }
{
    byte_copy::copy(ram, area);
}

fn keep_chip(area: &mut [u8], c: Chip)
    requires { length area.old ≡ 128 }
    ensures { area.new ≡ bytes_of c }
{
    state_area::put(c, area);
}

fn keep_counts(counts: &mut [u32], counted: u32, given: usize)
    requires { length counts.old ≡ 2 }
    ensures { counts.new ≡ counts_of counted given }
{
    counts[0] = counted;
    counts[1] = (given % 4294967296) as u32;
}

fn keep(
    cpu: &mut [u8],
    ram: &mut [u8],
    area: &mut [u8],
    counts: &mut [u32],
    done: FirmwareResult,
    held: &[u8; 256],
)
    requires { are_sized (length cpu.old) (length ram.old) (length area.old) (length counts.old) ≡ true }
    ensures { (cpu.new ≡ cpu_bytes done.cpu) × (ram.new ≡ held.now) × (area.new ≡ bytes_of done.chip) × (counts.new ≡ counts_of done.counted done.given) }
{
    let c = done.cpu;
    let k = done.chip;
    keep_cpu(cpu, c);
    keep_ram(ram, held);
    keep_chip(area, k);
    keep_counts(counts, done.counted, done.given);
}

// ---- the call

fn has_begun(number: u8) -> bool
    ensures { result ≡ has_begun number }
{
    if number == 8 {
        false
    } else if number == 22 {
        false
    } else if number == 7 {
        false
    } else {
        true
    }
}

// The call on a state, from areas of the right lengths.
fn run_in(
    cpu: &mut [u8],
    ram: &mut [u8],
    rom: &[u8],
    chip: Chip,
    area: &mut [u8],
    events: &[u64],
    answers: &mut [u32],
    instructions: u32,
    counts: &mut [u32],
) -> u8
    requires { are_sized (length cpu.old) (length ram.old) (length area.old) (length counts.old) ≡ true }
    ensures { left result cpu.new ram.new area.new answers.new counts.new
        ≡ run_in cpu.old ram.old rom.now chip area.old events.now answers.old instructions counts.old }
{
    let mut held = ram_of(ram);
    let c = cpu_of(cpu);
    let done = firmware_run::run(c, &mut held, rom, chip, events, answers, instructions);
    let number = done.number;
    if has_begun(number) {
        keep(cpu, ram, area, counts, done, &held);
        number
    } else {
        number
    }
}

fn are_sized(cpu: usize, ram: usize, area: usize, counts: usize) -> bool
    ensures { result ≡ are_sized cpu ram area counts }
{
    if cpu == 8 {
        if ram == 256 {
            if area == 128 {
                if counts == 2 { true } else { false }
            } else {
                false
            }
        } else {
            false
        }
    } else {
        false
    }
}

// Runs `instructions` instructions of the firmware in `rom` from the CPU, with the events between them, and gives 0 or the number of the
// refusal of an instruction. Refused before anything runs (15, 8, 22, 7), nothing is touched.
pub fn nt6861_firmware(
    cpu: &mut [u8],
    ram: &mut [u8],
    rom: &[u8],
    area: &mut [u8],
    events: &[u64],
    answers: &mut [u32],
    instructions: u32,
    counts: &mut [u32],
) -> u8
    ensures { left result cpu.new ram.new area.new answers.new counts.new
        ≡ firmware_in cpu.old ram.old rom.now area.old events.now answers.old instructions counts.old }
{
    if are_sized(cpu.len(), ram.len(), area.len(), counts.len()) {
        match state_area::load(area) {
            Ok(c) => run_in(
                cpu,
                ram,
                rom,
                c,
                area,
                events,
                answers,
                instructions,
                counts,
            ),
            Err(fault) => u8::from(fault),
        }
    } else {
        15
    }
}
