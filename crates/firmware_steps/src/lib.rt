// A firmware run in steps: power up, an event given, the interrupt before an instruction, the opcode to come, and instructions with no event
// between (document 02, Wish 5).
#![tactic(auto)]

ghost use Rattle.std.specs.Prelude.{◌≡◌, [], set};
ghost use Rattle.chip_reads.specs.Reads.{reading};
ghost use Rattle.cpu_memory.specs.Memory.{place, stack_place, LoadedCase};
ghost use Rattle.firmware_machine.specs.Machine.{machine, register_read, load as load_of, clock_after};
ghost use Rattle.firmware_machine.specs.Run.{firmware as firmware_of};
ghost use Rattle.firmware_run.specs.Firmware.{result_of};
ghost use Rattle.firmware_steps.specs.Steps.{power_up, given_by, is_due, interrupted_by, before_instruction, load_number, load_byte};

use chip::Chip;
use chip_reads::Reading;
use cpu_arithmetic::Flags;
use cpu_memory::{Loaded, Place};
use cpu_operations::Cpu;
use events::{Event, PERIOD};
use firmware_run::FirmwareResult;

// CPU and chip after an event, and its answer.
#[derive(Clone, Copy)]
pub struct Given {
    pub cpu: Cpu,
    pub chip: Chip,
    pub answer: u32,
}

// CPU and chip before an instruction, and whether an interrupt was taken.
#[derive(Clone, Copy)]
pub struct Interrupted {
    pub cpu: Cpu,
    pub chip: Chip,
    pub taken: bool,
}

// The CPU after power up: A, X, Y and cycles over 0, S FF, I alone set, PC from FFFC.
pub fn power_up(rom: &[u8]) -> Cpu
    ensures { result ≡ power_up rom.now }
{
    let flags = Flags {
        n: false,
        v: false,
        d: false,
        i: false,
        z: false,
        c: false,
    };
    let cpu = Cpu {
        a: 0,
        x: 0,
        y: 0,
        s: 255,
        p: flags,
        pc: 0,
        over: 0,
    };
    cpu_instruction::reset(cpu, rom)
}

// ---- events

// A word given to the chip; where it resets the chip, the CPU is reset too.
pub fn give(cpu: Cpu, chip: Chip, rom: &[u8], word: u32) -> Given
    ensures { result ≡ given_by rom.now cpu chip word }
{
    let event = events::decode(word);
    let registers = chip.registers;
    let core = chip.core;
    let stepped = step::advance(chip, event);
    let after = stepped.chip;
    if firmware_run::was_reset(&registers, core, event) {
        Given {
            cpu: cpu_instruction::reset(cpu, rom),
            chip: after,
            answer: stepped.answer,
        }
    } else {
        Given {
            cpu,
            chip: after,
            answer: stepped.answer,
        }
    }
}

// ---- the interrupt

fn is_due(cpu: Cpu, chip: Chip) -> bool
    ensures { result ≡ is_due cpu chip }
{
    let core = chip.core;
    let flags = cpu.p;
    if core.reset {
        if chip::requests(chip) == 0 {
            false
        } else {
            !flags.i
        }
    } else {
        false
    }
}

fn push(ram: &mut [u8; 256], s: u8, b: u8)
    ensures { ram.new ≡ set ram.old (stack_place s) b }
{
    let i = cpu_memory::stack_place(s);
    ram[i] = b;
}

// The chip after n cycles, those over counted: 32 are an 8 µs clock.
fn clocked_after(n: u16, chip: Chip) -> Chip
    ensures { result ≡ clock_after n chip }
{
    if n < 32 {
        chip
    } else {
        let stepped = step::advance(chip, Ok(Event::Clock(PERIOD)));
        let after = stepped.chip;
        after
    }
}

// What comes before an instruction: the interrupt, at RESET high, I clear and a request.
pub fn interrupt(cpu: Cpu, chip: Chip, ram: &mut [u8; 256], rom: &[u8]) -> Interrupted
    ensures { (result ≡ interrupted_by rom.now ram.old cpu chip) × (ram.new ≡ (before_instruction rom.now (machine cpu ram.old chip)).ram) }
{
    if is_due(cpu, chip) {
        let flags = cpu.p;
        push(ram, cpu.s, (cpu.pc / 256) as u8);
        push(ram, cpu_memory::below(cpu.s), (cpu.pc % 256) as u8);
        push(
            ram,
            cpu_memory::below(cpu_memory::below(cpu.s)),
            cpu_operations::pushed_p(flags, false),
        );
        let effect = cpu_instruction::interrupt(cpu, rom);
        let entered = effect.cpu;
        let n = (entered.over as u16) + (effect.cycles as u16);
        Interrupted {
            cpu: cpu_operations::set_over((n % 32) as u8, entered),
            chip: clocked_after(n, chip),
            taken: true,
        }
    } else {
        Interrupted {
            cpu,
            chip,
            taken: false,
        }
    }
}

// ---- the instruction

fn register_read(r: Reading) -> Loaded
    ensures { result ≡ register_read r }
{
    if r.number == 0 {
        Loaded::Byte(r.byte)
    } else {
        Loaded::Refused(r.number)
    }
}

fn register_at(chip: Chip, r: u8) -> Loaded
    ensures { result ≡ register_read (reading chip r) }
{
    let registers = chip.registers;
    let core = chip.core;
    register_read(chip_reads::read_register(&registers, core, r))
}

// A read of the CPU at an address, as that of an opcode.
pub fn load(ram: &[u8; 256], rom: &[u8], chip: Chip, a: u16) -> Loaded
    ensures { (result ≡ load_of ram.now chip rom.now a)
        × LoadedCase (load_number chip (place a)) (load_byte ram.now chip rom.now (place a)) result }
{
    let p = cpu_memory::place_of(a);
    match p {
        Place::Register(r) => register_at(chip, r as u8),
        Place::Ram(i) => Loaded::Byte(ram[i]),
        Place::Rom(i) => Loaded::Byte(cpu_memory::rom_byte(rom, i)),
        Place::Unmapped => Loaded::Refused(21),
    }
}

// Instructions with no event between: a firmware call with an empty list. RAM is copied in and out: in an array of its own the loop of
// instructions reaches it without a pointer.
pub fn run_on(
    cpu: Cpu,
    chip: Chip,
    ram: &mut [u8; 256],
    rom: &[u8],
    instructions: u32,
) -> FirmwareResult
    ensures { (result ≡ result_of (firmware_of cpu ram.old rom.now chip [] [] instructions)) × (ram.new ≡ (firmware_of cpu ram.old rom.now chip [] [] instructions).ram) }
{
    let events = [0u64; 1];
    let mut answers = [0u32; 1];
    let mut own = *ram;
    let result = firmware_run::run(
        cpu,
        &mut own,
        rom,
        chip,
        &events[..0],
        &mut answers[..0],
        instructions,
    );
    *ram = own;
    result
}
