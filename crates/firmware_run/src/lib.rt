// Firmware run against the chip (document 02, Wish 5).
#![tactic(auto)]

ghost use Rattle.std.specs.Prelude.{◌≡◌, true, [], ◌+◌, ◌-◌, ◌<◌, ◌≤◌, ltb, length, drop, get_or, set};
ghost use Rattle.bits.specs.Byte.{pick};
ghost use Rattle.events.specs.Word.{decode};
ghost use Rattle.chip.specs.State.{chip_of};
ghost use Rattle.chip_events.specs.Outcome.{next as next_of, was_reset};
ghost use Rattle.cpu_opcodes.specs.Table.{opcodes};
ghost use Rattle.cpu_instruction.specs.Instruction.{interrupted};
ghost use Rattle.cpu_execution.specs.Execution.{stored};
ghost use Rattle.firmware_machine.specs.Machine.{machine, is_requesting};
ghost use Rattle.firmware_machine.specs.Run.{word_of, called, runs, is_well_formed, firmware as firmware_of};
ghost use Rattle.firmware_machine.specs.Seen.{Knows};
ghost use Rattle.cpu_register_cache.specs.Cache.{seen_after_event, watchdog_after, core_after_cycles};
ghost use Rattle.firmware_run.specs.Instructions.{after_interrupted, settled_end};
ghost use Rattle.firmware_run.specs.Firmware.{result_of, refused_result, occurred_with, until as until_of};

use chip::{Chip, Core};
use cpu_operations::Cpu;
use cpu_register_cache::NONE_SEEN;
use cpu_step::Turn;
use events::{Event, PERIOD, RESET, Refusal, WATCHDOG};
use registers::{CLRWDT, IEX};

// What a firmware call gives back: 0 or the number of the refusal, CPU and chip, how many instructions were counted, and how many of the
// listed events were given.
#[derive(Clone, Copy)]
pub struct FirmwareResult {
    pub number: u8,
    pub cpu: Cpu,
    pub chip: Chip,
    pub counted: u32,
    pub given: usize,
}

// CPU, core and answer after a word.
#[derive(Clone, Copy)]
pub struct Occurred {
    pub cpu: Cpu,
    pub core: Core,
    pub answer: u32,
}

// CPU and core after an interrupt.
#[derive(Clone, Copy)]
pub struct Interrupted {
    pub cpu: Cpu,
    pub core: Core,
}

// CPU and core where instructions end, the number of the next one, and 0 or the number of a refusal.
#[derive(Clone, Copy)]
pub struct Settled {
    pub cpu: Cpu,
    pub core: Core,
    pub number: u32,
    pub refusal: u8,
}

// ---- events

// Whether an event resets the chip: RESET that falls, or the watchdog's time that is up. The registers are lent for the contract alone.
#[tactic(auto, unfolding(chip_events::specs::Outcome::was_reset))]
pub fn was_reset(registers: &[u8; 38], c: Core, event: Result<Event, Refusal>) -> bool
    ensures { result ≡ was_reset (chip_of registers.now c) event }
{
    match event {
        Ok(Event::Pin(RESET, level)) => c.reset & !level,
        Ok(Event::Clock(WATCHDOG)) => c.reset & counters::watchdog_fires(c.watchdog),
        _ => false,
    }
}

// The event at a place of the list; 0 past its end.
fn event_at(events: &[u64], k: usize) -> u64
    ensures { result ≡ get_or events.now k 0 }
{
    events.get(k).copied().unwrap_or(0)
}

// An answer put in its place; past the places nothing is written.
fn put(answers: &mut [u32], k: usize, answer: u32)
    ensures { answers.new ≡ set answers.old k answer }
{
    // not get_mut: what is written through its loan was not proved
    if k < answers.len() {
        answers[k] = answer;
    }
}

fn word_of(e: u64) -> u32
    ensures { result ≡ word_of e }
{
    (e % 4294967296) as u32
}

// The number of the instruction before which the next event is given, at most n.
fn until(events: &[u64], next: usize, n: u32) -> u32
    ensures { result ≡ until_of n (drop next events.now) }
{
    if next < events.len() {
        let at = events[next] / 4294967296;
        if at < u64::from(n) { at as u32 } else { n }
    } else {
        n
    }
}

// ---- what is done with the chip

// A word given to the chip; where it resets the chip, the CPU is reset too.
fn occur(
    seen: &mut [u16; 38],
    registers: &mut [u8; 38],
    rom: &[u8],
    core: Core,
    cpu: Cpu,
    word: u32,
) -> Occurred
    ensures { (result ≡ occurred_with rom.now cpu (chip_of registers.old core) word)
        × (registers.new ≡ (next_of (chip_of registers.old core) (decode word)).registers)
        × (seen.new ≡ seen_after_event seen.old (decode word)) }
{
    let event = events::decode(word);
    let reset = was_reset(registers, core, event);
    cpu_register_cache::forget_by(seen, event);
    let done = step::advance_core(registers, core, event);
    let after = done.core;
    if reset {
        Occurred {
            cpu: cpu_instruction::reset(cpu, rom),
            core: after,
            answer: done.answer,
        }
    } else {
        Occurred {
            cpu,
            core: after,
            answer: done.answer,
        }
    }
}

// ---- parts of an instruction

#[tactic(auto, unfolding(firmware_machine::specs::Machine::is_requesting))]
fn is_requesting(registers: &[u8; 38], core: Core) -> bool
    ensures { result ≡ is_requesting (chip_of registers.now core) }
{
    chip::requested(core.irqx, chip::register_at(registers, IEX)) != 0
}

fn watchdog_after(count: u8, b: u8) -> u8
    ensures { result ≡ watchdog_after count b }
{
    if b == 0x55 { 0 } else { count }
}

fn core_after_cycles(n: u16, core: Core) -> Core
    ensures { result ≡ core_after_cycles n core }
{
    if n < 32 {
        core
    } else {
        chip_clocks::clocked(0, core, PERIOD)
    }
}

fn interrupt(ram: &mut [u8; 256], rom: &[u8], core: Core, c: Cpu) -> Interrupted
    ensures { (result ≡ after_interrupted rom.now core c) × (ram.new ≡ stored ram.old (interrupted rom.now c).store) }
{
    let e = cpu_instruction::interrupt(c, rom);
    let t = e.store;
    cpu_execution::commit(ram, t);
    let q = e.cpu;
    let n = cycles(q, e.cycles);
    Interrupted {
        cpu: cpu_operations::set_over((n % 32) as u8, q),
        core: core_after_cycles(n, core),
    }
}

// The cycles over and those of an instruction; below 32 no clock is due.
fn cycles(q: Cpu, n: u8) -> u16
    ensures { result ≡ q.over + n }
{
    u16::from(q.over) + u16::from(n)
}

fn are_few(n: u16) -> bool
    ensures { result ≡ ltb n 32 }
{
    n < 32
}

// The next instruction, where this one is done.
fn number_after(i: u32, done: bool) -> u32
    requires { i < 4294967295 }
    ensures { result ≡ pick done (i + 1) i }
{
    if done { i + 1 } else { i }
}

// ---- instructions one after the other

// Instructions from number `from` to before number `to`, with RESET high and no events between them. While `clocked` is false
// instruction i is done but for the 8 µs clock that is due. What the registers read is kept in `seen` for as long as it holds.
fn advance(
    table: &[u32; 256],
    registers: &mut [u8; 38],
    ram: &mut [u8; 256],
    rom: &[u8],
    core: Core,
    cpu: Cpu,
    from: u32,
    to: u32,
    seen: &mut [u16; 38],
) -> Settled
    requires { (table.now ≡ opcodes) × (core.reset ≡ true) × Knows seen.old (chip_of registers.old core) × (length seen.old ≡ 38) }
    ensures { (settled_end result ram.new registers.new ≡ runs (to - from) from rom.now [] (machine cpu ram.old (chip_of registers.old core)))
        × Knows seen.new (chip_of registers.new result.core) × (length seen.new ≡ 38) }
{
    // no `for`: an instruction takes one turn or several, by interrupts, clocks and registers that are not yet known
    let mut k = core;
    let mut c = cpu;
    let mut i = from;
    let mut clocked = true;
    let mut request = is_requesting(registers, core);
    while i < to {
        if clocked {
            let t = cpu_step::turn_of(table, seen, ram, rom, request, c);
            match t {
                Turn::On(d) => {
                    c = d;
                    i += 1;
                },
                Turn::Clock(d) => {
                    c = d;
                    clocked = false;
                },
                Turn::Interrupt => {
                    let e = interrupt(ram, rom, k, c);
                    c = e.cpu;
                    k = e.core;
                    cpu_register_cache::forget(seen);
                    request = is_requesting(registers, k);
                },
                Turn::Write(q, n, r, b) => {
                    let x = cycles(q, n);
                    let d = cpu_operations::set_over((x % 32) as u8, q);
                    let few = are_few(x);
                    let j = number_after(i, few);
                    if r == CLRWDT {
                        k.watchdog = watchdog_after(k.watchdog, b);
                        c = d;
                        i = j;
                        clocked = few;
                    } else if cpu_register_cache::is_dac(r) {
                        cpu_register_cache::write_dac(seen, registers, r, b);
                        c = d;
                        i = j;
                        clocked = few;
                    } else {
                        let w = chip_writes::write_number(true, r);
                        if w != 0 {
                            return Settled {
                                cpu: c,
                                core: k,
                                number: i,
                                refusal: w,
                            };
                        }
                        k = cpu_register_cache::write_register(seen, registers, k, r, b);
                        request = is_requesting(registers, k);
                        c = d;
                        i = j;
                        clocked = few;
                    }
                },
                Turn::Refused(n) => {
                    return Settled {
                        cpu: c,
                        core: k,
                        number: i,
                        refusal: n,
                    };
                },
                Turn::NotCached(r) => {
                    let read = chip_reads::read_register(registers, k, r);
                    cpu_register_cache::note(seen, r, cpu_register_cache::known_reading(read));
                },
            }
        } else {
            // the clock with RESET high, in place: a call that gave the core back would copy all of it
            let s = k.sync;
            let counted = cpu_register_cache::count_period(seen, chip::hsel(k), s);
            let b = k.bus;
            let phase = b.phase;
            let moved = chip_edges::with_phase(b, bus_ddc2b::phase_at_period(phase));
            k.sync = counted;
            k.bus = moved;
            clocked = true;
            i += 1;
        }
    }
    Settled {
        cpu: c,
        core: k,
        number: i,
        refusal: 0,
    }
}

// Instructions from number `from` to before number `to`; while RESET is low they do nothing.
fn proceed(
    table: &[u32; 256],
    registers: &mut [u8; 38],
    ram: &mut [u8; 256],
    rom: &[u8],
    core: Core,
    cpu: Cpu,
    from: u32,
    to: u32,
    seen: &mut [u16; 38],
) -> Settled
    requires { (table.now ≡ opcodes) × (from < to) × Knows seen.old (chip_of registers.old core) × (length seen.old ≡ 38) }
    ensures { (settled_end result ram.new registers.new ≡ runs (to - from) from rom.now [] (machine cpu ram.old (chip_of registers.old core)))
        × Knows seen.new (chip_of registers.new result.core) × (length seen.new ≡ 38) }
{
    if core.reset {
        advance(table, registers, ram, rom, core, cpu, from, to, seen)
    } else {
        Settled {
            cpu: cpu,
            core: core,
            number: to,
            refusal: 0,
        }
    }
}

// ---- the run

// The run, once it may begin. One turn of the loop gives an event, or does the instructions up to the next one.
fn run_all(
    cpu: Cpu,
    ram: &mut [u8; 256],
    rom: &[u8],
    chip: Chip,
    events: &[u64],
    answers: &mut [u32],
    instructions: u32,
) -> FirmwareResult
    requires { length events.now ≤ length answers.old }
    ensures { (result ≡ result_of (called (runs instructions 0 rom.now events.now (machine cpu ram.old chip)) answers.old))
        × (answers.new ≡ (called (runs instructions 0 rom.now events.now (machine cpu ram.old chip)) answers.old).answers)
        × (ram.new ≡ (called (runs instructions 0 rom.now events.now (machine cpu ram.old chip)) answers.old).ram) }
{
    // no `for`: a turn gives an event, or does any number of instructions
    let table = cpu_opcodes::table();
    let mut seen = NONE_SEEN;
    let mut registers = chip.registers;
    let mut core = chip.core;
    let mut c = cpu;
    let mut i = 0;
    let mut given = 0;
    while i < instructions {
        let to = until(events, given, instructions);
        if to <= i {
            let o = occur(
                &mut seen,
                &mut registers,
                rom,
                core,
                c,
                word_of(event_at(events, given)),
            );
            put(answers, given, o.answer);
            core = o.core;
            c = o.cpu;
            given += 1;
        } else {
            let s = proceed(&table, &mut registers, ram, rom, core, c, i, to, &mut seen);
            core = s.core;
            c = s.cpu;
            i = s.number;
            if s.refusal != 0 {
                return FirmwareResult {
                    number: s.refusal,
                    cpu: c,
                    chip: Chip {
                        registers: registers,
                        core: core,
                    },
                    counted: i,
                    given: given,
                };
            }
        }
    }
    FirmwareResult {
        number: 0,
        cpu: c,
        chip: Chip {
            registers: registers,
            core: core,
        },
        counted: i,
        given: given,
    }
}

fn not_run(number: u8, cpu: Cpu, chip: Chip) -> FirmwareResult
    ensures { result ≡ refused_result number cpu chip }
{
    FirmwareResult {
        number: number,
        cpu: cpu,
        chip: chip,
        counted: 0,
        given: 0,
    }
}

fn is_well_formed(cpu: Cpu, chip: Chip) -> bool
    ensures { result ≡ is_well_formed cpu chip }
{
    cpu.over < 32 && chip_well_formed::well_formed(chip)
}

// The firmware call: `instructions` instructions from the CPU, with the events of the list between them. Where it is refused before anything
// runs, all that is lent is left as it was.
pub fn run(
    cpu: Cpu,
    ram: &mut [u8; 256],
    rom: &[u8],
    chip: Chip,
    events: &[u64],
    answers: &mut [u32],
    instructions: u32,
) -> FirmwareResult
    ensures { (result ≡ result_of (firmware_of cpu ram.old rom.now chip events.now answers.old instructions))
        × (answers.new ≡ (firmware_of cpu ram.old rom.now chip events.now answers.old instructions).answers)
        × (ram.new ≡ (firmware_of cpu ram.old rom.now chip events.now answers.old instructions).ram) }
{
    if is_well_formed(cpu, chip) {
        if rom.len() == 24576 {
            if answers.len() < events.len() {
                not_run(7, cpu, chip)
            } else {
                run_all(cpu, ram, rom, chip, events, answers, instructions)
            }
        } else {
            not_run(22, cpu, chip)
        }
    } else {
        not_run(8, cpu, chip)
    }
}
