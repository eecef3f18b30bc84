// A firmware run with its lines on an output: the answers of the events given and the registers at the end, or a line for each event,
// interrupt and instruction (images/README.md). No contract can say what is written, nor whether that went well; what a line is comes from
// `firmware_lines`.
#![tactic(auto)]

ghost use Rattle.std.specs.Prelude.{◌≡◌, false};
ghost use Rattle.firmware_trace.specs.Trace.{goes_on, given_to};
ghost use Rattle.firmware_print.specs.Marked.{marked};
ghost use Rattle.firmware_print.specs.Taken.{is_followed, TracedTo, Proceeded, number_before, Taken};

use cpu_memory::Loaded;
use cpu_operations::Cpu;
use firmware_event_lines::Event;
use firmware_trace::{Fetched, Run};
use std::io::{Error, Print};

// What is asked of a run: how many instructions, and whether a trace.
#[derive(Clone, Copy)]
pub struct Asked {
    pub count: u32,
    pub traced: bool,
}

// Where the lines go, and why the last write that failed did; none where all is written.
#[derive(Drop)]
pub struct Output<P> {
    pub to: P,
    pub error: Option<Error>,
}

// ---- lines on an output

// Whether it went well, and no `io::Result` for `?`: where a part of a line is not written the program has always tried the next part too, and
// told the last failure.
fn print<P: Print>(out: &mut Output<P>, text: &[u8]) -> bool {
    match out.to.write_all(text) {
        Ok(()) => true,
        Err(e) => {
            out.error = Some(e);
            false
        }
    }
}

fn print_number<P: Print>(out: &mut Output<P>, n: u64) -> bool {
    let mut text = [0u8; 20];
    let k = io::decimal(n, &mut text);
    print(out, &text[..k])
}

fn print_registers<P: Print>(out: &mut Output<P>, cpu: Cpu) -> bool {
    print(out, &firmware_lines::register_line(cpu))
}

fn print_event<P: Print>(out: &mut Output<P>, next: u32, word: u32, answer: u32) -> bool {
    let text = firmware_lines::event_text(word, answer);
    print_number(out, u64::from(next)) & print(out, &text)
}

// The number of an instruction, a text, and the registers.
fn print_line<P: Print>(out: &mut Output<P>, next: u32, text: &[u8], cpu: Cpu) -> bool {
    print_number(out, u64::from(next)) & print(out, text) & print_registers(out, cpu)
}

// The line of an instruction that was done: from where RESET is low it has no opcode.
fn print_done<P: Print>(
    out: &mut Output<P>,
    next: u32,
    pc: u16,
    high: bool,
    opcode: Loaded,
    cpu: Cpu,
) -> bool {
    if !high {
        let text = firmware_lines::idle_text(pc);
        return print_line(out, next, &text, cpu);
    }
    match opcode {
        Loaded::Byte(b) => {
            let text = firmware_lines::instruction_text(pc, b);
            print_line(out, next, &text, cpu)
        }
        Loaded::Refused(_) => true,
    }
}

// The lines of the interrupt and of the instruction behind it, each where it was done.
fn print_turn<P: Print>(
    out: &mut Output<P>,
    next: u32,
    fetched: Fetched,
    number: u8,
    after: Cpu,
) -> bool {
    let entered = fetched.cpu;
    let opcode = fetched.opcode;
    let told = !fetched.taken || print_line(out, next, b" interrupt ", entered);
    let shown = number != 0 || print_done(out, next, entered.pc, fetched.high, opcode, after);
    told & shown
}

fn print_given<P: Print>(
    out: &mut Output<P>,
    traced: bool,
    next: u32,
    word: u32,
    answer: u32,
) -> bool {
    if traced {
        print_event(out, next, word, answer)
    } else {
        print(out, &hex_digits::hex_line(answer))
    }
}

fn print_end<P: Print>(out: &mut Output<P>, cpu: Cpu, number: u8, next: u32, given: u64) -> bool {
    let counts = print(out, b"number ")
        & print_number(out, u64::from(number))
        & print(out, b" counted ")
        & print_number(out, u64::from(next))
        & print(out, b" given ")
        & print_number(out, given);
    counts & print(out, b" ") & print_registers(out, cpu)
}

// ---- the run

fn is_followed(number: u8, printed: bool) -> bool
    ensures { result ≡ is_followed number printed }
{
    number == 0 && printed
}

// Some instructions, each with its lines.
fn trace_on<P: Print>(
    out: &mut Output<P>,
    start: Run,
    ram: &mut [u8; 256],
    rom: &[u8],
    instructions: u32,
) -> Run
    ensures { TracedTo rom.now instructions start ram.old result ram.new }
{
    let mut run = start;
    for _ in 0..instructions {
        let next = run.next;
        let fetched = firmware_trace::fetch(run, ram, rom);
        run = firmware_trace::run_on(run, ram, rom, 1);
        run.printed = print_turn(out, next, fetched, run.number, run.cpu);
        if !is_followed(run.number, run.printed) {
            return run;
        }
    }
    run
}

// Instructions up to the one of number `to`, where another may follow.
fn proceed<P: Print>(
    out: &mut Output<P>,
    run: Run,
    ram: &mut [u8; 256],
    rom: &[u8],
    traced: bool,
    to: u32,
) -> Run
    ensures { Proceeded rom.now traced to run ram.old result ram.new }
{
    let next = run.next;
    if firmware_trace::goes_on(run.number, run.printed, next, to) {
        if traced {
            trace_on(out, run, ram, rom, to - next)
        } else {
            firmware_trace::run_on(run, ram, rom, to - next)
        }
    } else {
        run
    }
}

fn give<P: Print>(out: &mut Output<P>, run: Run, rom: &[u8], traced: bool, word: u32) -> Run
    ensures { result ≡ marked (given_to rom.now run word) result.printed }
{
    let after = firmware_trace::give(run, rom, word);
    Run {
        printed: print_given(out, traced, after.next, word, after.answer),
        ..after
    }
}

// The number of the instruction that an item of a list comes before: every instruction comes before the end.
fn number_of(item: Option<Event>) -> u32
    ensures { result ≡ number_before item }
{
    item.map_or(u32::MAX, |e| e.number)
}

// The last line, where all before it is printed.
fn finish<P: Print>(out: &mut Output<P>, run: Run) -> Run
    ensures { result ≡ marked run result.printed }
{
    if !run.printed {
        return run;
    }
    Run {
        printed: print_end(out, run.cpu, run.number, run.next, run.given),
        ..run
    }
}

// The instructions before an item of a list, an event or `None` for its end; then an event is given where another instruction follows, and at the end the last line is printed.
// Where no instruction may follow, as behind a refused one, nothing is done, and only whether all is printed can change.
pub fn take<P: Print>(
    out: &mut Output<P>,
    run: Run,
    ram: &mut [u8; 256],
    rom: &[u8],
    asked: Asked,
    item: Option<Event>,
) -> Run
    ensures { (goes_on run.number run.printed run.next asked.count ≡ false → (result ≡ marked run result.printed) × (ram.new ≡ ram.old))
        × Taken rom.now asked item run ram.old result ram.new }
{
    let r = proceed(
        out,
        run,
        ram,
        rom,
        asked.traced,
        asked.count.min(number_of(item)),
    );
    match item {
        Some(e) => {
            if firmware_trace::goes_on(r.number, r.printed, r.next, asked.count) {
                return give(out, r, rom, asked.traced, e.word);
            }
            r
        }
        None => finish(out, r),
    }
}
