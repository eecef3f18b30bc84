// A firmware run from power up, as a program hands it on from one step to the next, and what a trace shows of the instruction to come
// (document 02, Wish 5).
#![tactic(auto)]

ghost use Rattle.std.specs.Prelude.{◌≡◌};
ghost use Rattle.firmware_trace.specs.Trace.{powered_up, goes_on, ran_on, ram_on, given_to, fetched};

use chip::Chip;
use cpu_memory::Loaded;
use cpu_operations::Cpu;

// CPU and chip, the number of the next instruction, 0 or the number of a refusal, how many events were given, the answer of the last one, and
// whether all was printed, which is for the caller to say.
#[derive(Clone, Copy)]
pub struct Run {
    pub cpu: Cpu,
    pub chip: Chip,
    pub next: u32,
    pub number: u8,
    pub given: u64,
    pub answer: u32,
    pub printed: bool,
}

// Before an instruction: the CPU behind the interrupt, whether one is taken, whether RESET is high, and the opcode.
#[derive(Clone, Copy)]
pub struct Fetched {
    pub cpu: Cpu,
    pub taken: bool,
    pub high: bool,
    pub opcode: Loaded,
}

// A run after power up: nothing is done yet.
pub fn power_up(rom: &[u8]) -> Run
    ensures { result ≡ powered_up rom.now }
{
    Run {
        cpu: firmware_steps::power_up(rom),
        chip: chip::fresh(),
        next: 0,
        number: 0,
        given: 0,
        answer: 0,
        printed: true,
    }
}

// Another instruction may follow: none was refused, all is printed, and fewer than `count` are done.
pub fn goes_on(number: u8, printed: bool, next: u32, count: u32) -> bool
    ensures { result ≡ goes_on number printed next count }
{
    (number == 0) & printed & (next < count)
}

// Instructions with no event between; those done are counted.
pub fn run_on(run: Run, ram: &mut [u8; 256], rom: &[u8], instructions: u32) -> Run
    ensures { (result ≡ ran_on rom.now ram.old run instructions) × (ram.new ≡ ram_on rom.now ram.old run instructions) }
{
    let cpu = run.cpu;
    let chip = run.chip;
    let r = firmware_steps::run_on(cpu, chip, ram, rom, instructions);
    let after = r.cpu;
    let moved = r.chip;
    Run {
        cpu: after,
        chip: moved,
        next: std::num::wrapping_add_u32(run.next, r.counted),
        number: r.number,
        given: run.given,
        answer: run.answer,
        printed: run.printed,
    }
}

// A word given to the chip; it is counted, and its answer kept.
pub fn give(run: Run, rom: &[u8], word: u32) -> Run
    ensures { result ≡ given_to rom.now run word }
{
    let cpu = run.cpu;
    let chip = run.chip;
    let g = firmware_steps::give(cpu, chip, rom, word);
    let after = g.cpu;
    let moved = g.chip;
    Run {
        cpu: after,
        chip: moved,
        next: run.next,
        number: run.number,
        given: std::num::wrapping_add_u64(run.given, 1),
        answer: g.answer,
        printed: run.printed,
    }
}

// What a trace shows before the next instruction is done. The interrupt is taken over a copy of RAM.
pub fn fetch(run: Run, ram: &[u8; 256], rom: &[u8]) -> Fetched
    ensures { result ≡ fetched rom.now ram.now run }
{
    let cpu = run.cpu;
    let chip = run.chip;
    let mut copy = *ram;
    let before = firmware_steps::interrupt(cpu, chip, &mut copy, rom);
    let entered = before.cpu;
    let clocked = before.chip;
    let high = clocked.core.reset;
    let opcode = firmware_steps::load(&copy, rom, clocked, entered.pc);
    Fetched {
        cpu: entered,
        taken: before.taken,
        high,
        opcode,
    }
}
