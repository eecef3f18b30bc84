// The instructions of the 6502, the interrupt, and the reset (document 02, Wish 5).
#![tactic(auto)]

ghost use Rattle.std.specs.Prelude.{◌≡◌, true, ◌%◌, ◌/◌};
ghost use Rattle.cpu_memory.specs.Memory.{rom_word};
ghost use Rattle.cpu_operations.specs.Operations.{put_i};
ghost use Rattle.cpu_instruction.specs.Instruction.{effect, trap_to, interrupted, reset_cpu};

use cpu_arithmetic::Flags;
use cpu_memory::Store;
use cpu_operations::Cpu;

// What an instruction leaves: CPU, cycles, store.
#[derive(Clone, Copy)]
pub struct Effect {
    pub cpu: Cpu,
    pub cycles: u8,
    pub store: Store,
}

fn effect_of(c: Cpu, n: u8, t: Store) -> Effect
    ensures { result ≡ effect c n t }
{
    Effect {
        cpu: c,
        cycles: n,
        store: t,
    }
}

fn high(a: u16) -> u8
    ensures { result ≡ a / 256 }
{
    (a / 256) as u8
}

fn low(a: u16) -> u8
    ensures { result ≡ a % 256 }
{
    (a % 256) as u8
}

// ---- BRK, the interrupt, the reset

fn with_i(f: Flags) -> Flags
    ensures { result ≡ put_i true f }
{
    Flags {
        n: f.n,
        v: f.v,
        d: f.d,
        i: true,
        z: f.z,
        c: f.c,
    }
}

// What BRK and an interrupt leave: b is B, r the PC pushed, n the cycles.
pub fn trap(b: bool, r: u16, n: u8, c: Cpu, rom: &[u8]) -> Effect
    ensures { result ≡ trap_to b r n c (rom_word rom.now 24574) }
{
    let f = c.p;
    let s = c.s;
    let t = cpu_memory::below(cpu_memory::below(cpu_memory::below(s)));
    let g = with_i(f);
    let k = cpu_operations::pushed_p(f, b);
    let v = cpu_memory::rom_word(rom, 24574);
    let d = cpu_operations::jumped(v, t, g, c);
    effect_of(d, n, Store::PushThree(s, high(r), low(r), k))
}

// What an interrupt leaves.
pub fn interrupt(c: Cpu, rom: &[u8]) -> Effect
    ensures { result ≡ interrupted rom.now c }
{
    trap(false, c.pc, 7, c, rom)
}

// The CPU after a reset of the chip.
pub fn reset(c: Cpu, rom: &[u8]) -> Cpu
    ensures { result ≡ reset_cpu rom.now c }
{
    let f = c.p;
    let g = with_i(f);
    let v = cpu_memory::rom_word(rom, 24572);
    cpu_operations::jumped(v, c.s, g, c)
}
