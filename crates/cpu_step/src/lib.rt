// An instruction without the chip: what it reads of the registers is what is known of them (document 02, Wish 5).
#![tactic(auto)]

ghost use Rattle.std.specs.Prelude.{◌≡◌};
ghost use Rattle.cpu_memory.specs.Memory.{memory};
ghost use Rattle.cpu_instruction.specs.Program.{perform};
ghost use Rattle.cpu_instruction.specs.Instruction.{instruction_by};
ghost use Rattle.cpu_step.specs.InstructionTurn.{turn_from, is_interrupted as is_interrupted_of, turn_of, ram_after, TurnCase};

use cpu_execution::Executed;
use cpu_operations::Cpu;

// What became of an instruction: done; done, and an 8 µs clock is due; an interrupt comes first; it writes a register, with the CPU
// that it leaves, its cycles, the register and the byte; refused, with its number; it reads a register of which nothing is known.
#[derive(Clone, Copy)]
pub enum Turn {
    On(Cpu),
    Clock(Cpu),
    Interrupt,
    Write(Cpu, u8, u8, u8),
    Refused(u8),
    NotCached(u8),
}

fn turn_from(x: Executed) -> Turn
    ensures { result ≡ turn_from x }
{
    match x {
        Executed::Done(q, n) => {
            let t = (q.over as u16) + (n as u16);
            let d = cpu_operations::set_over((t % 32) as u8, q);
            if t < 32 { Turn::On(d) } else { Turn::Clock(d) }
        },
        Executed::Write(q, n, r, b) => Turn::Write(q, n, r, b),
        Executed::Refused(n) => {
            if n < 64 {
                Turn::Refused(n)
            } else {
                Turn::NotCached(n - 64)
            }
        },
    }
}

fn is_interrupted(request: bool, c: Cpu) -> bool
    ensures { result ≡ is_interrupted_of request c }
{
    let f = c.p;
    if request {
        if f.i { false } else { true }
    } else {
        false
    }
}

// The instruction at PC, with its store in RAM, unless an interrupt comes first.
pub fn turn_of(
    table: &[u32; 256],
    seen: &[u16; 38],
    ram: &mut [u8; 256],
    rom: &[u8],
    request: bool,
    c: Cpu,
) -> Turn
    ensures { (result ≡ turn_of table.now seen.now rom.now request c ram.old) × (ram.new ≡ ram_after table.now seen.now rom.now request c ram.old)
        × TurnCase (is_interrupted_of request c) (perform (memory seen.now ram.old rom.now) (instruction_by table.now c)) result }
{
    if is_interrupted(request, c) {
        Turn::Interrupt
    } else {
        let x = cpu_execution::instruction_at(c, table, seen, ram, rom);
        turn_from(x)
    }
}
