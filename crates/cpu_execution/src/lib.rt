// An instruction with its store in RAM (document 02, Wish 5).
#![tactic(auto)]

ghost use Rattle.std.specs.Prelude.{◌≡◌, ◌+◌, ◌*◌, ◌/◌, ◌%◌, ◌<◌};
ghost use Rattle.cpu_opcodes.specs.Opcodes.{length_of};
ghost use Rattle.cpu_operations.specs.Operations.{into_a, modify_operation, set_s, taken as taken_of};
ghost use Rattle.cpu_memory.specs.Memory.{memory, below as below_of};
ghost use Rattle.cpu_instruction.specs.Program.{perform};
ghost use Rattle.cpu_instruction.specs.Instruction.{reading, modifying, branched, jsr as jsr_of, jsr_high, rts as rts_of, rti_with, rti as rti_of, brk as brk_of, pla as pla_of, plp as plp_of, execute as execute_of, instruction_of, instruction_by};
ghost use Rattle.cpu_execution.specs.Execution.{destination, stored, executed_to, executed_with, ram_with, DestinationCase, ExecutedCase};

use cpu_addressing::{Effective, Located, Word};
use cpu_memory::{Loaded, Place, Store};
use cpu_opcodes::{BranchOperation, ModifyOperation, Operation, ReadOperation};
use cpu_operations::Cpu;

// Where a store goes: it is done in RAM, it writes a byte to a register, which is the chip's, or it is refused.
#[derive(Clone, Copy)]
pub enum Destination {
    Ram,
    Register(u8, u8),
    Refused(u8),
}

// What became of an instruction and its store: done, with the CPU and the cycles; a register to be written; refused.
#[derive(Clone, Copy)]
pub enum Executed {
    Done(Cpu, u8),
    Write(Cpu, u8, u8, u8),
    Refused(u8),
}

fn store_byte(ram: &mut [u8; 256], a: u16, b: u8) -> Destination
    ensures { (result ≡ destination (Store.Byte a b)) × (ram.new ≡ stored ram.old (Store.Byte a b)) }
{
    let p = cpu_memory::place_of(a);
    match p {
        Place::Register(r) => Destination::Register(r as u8, b),
        Place::Ram(i) => {
            ram[i] = b;
            Destination::Ram
        },
        Place::Rom(i) => Destination::Refused(21),
        Place::Unmapped => Destination::Refused(21),
    }
}

// Does a store in RAM, and tells where it goes.
pub fn commit(ram: &mut [u8; 256], t: Store) -> Destination
    ensures { (result ≡ destination t) × (ram.new ≡ stored ram.old t) × DestinationCase t result }
{
    match t {
        Store::Nothing => Destination::Ram,
        Store::Byte(a, b) => store_byte(ram, a, b),
        Store::PushOne(s, b) => {
            let i = cpu_memory::stack_place(s);
            ram[i] = b;
            Destination::Ram
        },
        Store::PushTwo(s, b, c) => {
            let i = cpu_memory::stack_place(s);
            let j = cpu_memory::stack_place(cpu_memory::below(s));
            ram[i] = b;
            ram[j] = c;
            Destination::Ram
        },
        Store::PushThree(s, b, c, d) => {
            let u = cpu_memory::below(s);
            let i = cpu_memory::stack_place(s);
            let j = cpu_memory::stack_place(u);
            let k = cpu_memory::stack_place(cpu_memory::below(u));
            ram[i] = b;
            ram[j] = c;
            ram[k] = d;
            Destination::Ram
        },
    }
}

// A byte stored by an instruction that leaves the CPU c after n cycles.
fn put(ram: &mut [u8; 256], a: u16, b: u8, c: Cpu, n: u8) -> Executed
    ensures { (result ≡ executed_to (destination (Store.Byte a b)) c n) × (ram.new ≡ stored ram.old (Store.Byte a b)) }
{
    let k = store_byte(ram, a, b);
    match k {
        Destination::Ram => Executed::Done(c, n),
        Destination::Register(r, v) => Executed::Write(c, n, r, v),
        Destination::Refused(x) => Executed::Refused(x),
    }
}

fn push_two(ram: &mut [u8; 256], s: u8, b: u8, c: u8)
    ensures { ram.new ≡ stored ram.old (Store.PushTwo s b c) }
{
    let i = cpu_memory::stack_place(s);
    let j = cpu_memory::stack_place(cpu_memory::below(s));
    ram[i] = b;
    ram[j] = c;
}

// ---- the operations, each with its store

fn read_at(
    o: ReadOperation,
    t: Effective,
    n: u8,
    c: Cpu,
    seen: &[u16; 38],
    ram: &mut [u8; 256],
    rom: &[u8],
) -> Executed
    requires { n < 16 }
    ensures { (result ≡ executed_with (perform (memory seen.now ram.old rom.now) (reading o t n c))) × (ram.new ≡ ram_with (perform (memory seen.now ram.old rom.now) (reading o t n c)) ram.old) }
{
    let a = t.address;
    let k = cpu_arithmetic::num(t.crossed);
    let p = cpu_memory::load(seen, ram, rom, a);
    match p {
        Loaded::Byte(b) => {
            let d = cpu_operations::read_operation(o, b, c);
            Executed::Done(d, n + k)
        },
        Loaded::Refused(x) => Executed::Refused(x),
    }
}

fn modify_at(
    o: ModifyOperation,
    t: Effective,
    n: u8,
    c: Cpu,
    seen: &[u16; 38],
    ram: &mut [u8; 256],
    rom: &[u8],
) -> Executed
    ensures { (result ≡ executed_with (perform (memory seen.now ram.old rom.now) (modifying o t n c))) × (ram.new ≡ ram_with (perform (memory seen.now ram.old rom.now) (modifying o t n c)) ram.old) }
{
    let a = t.address;
    let f = c.p;
    let p = cpu_memory::load(seen, ram, rom, a);
    match p {
        Loaded::Byte(b) => {
            let q = cpu_operations::modify_operation(o, b, f);
            let g = q.flags;
            let d = cpu_operations::set_p(g, c);
            put(ram, a, q.value, d, n)
        },
        Loaded::Refused(x) => Executed::Refused(x),
    }
}

fn modify_a(o: ModifyOperation, n: u8, c: Cpu) -> Executed
    ensures { result ≡ Executed.Done (into_a (modify_operation o c.a c.p) c) n }
{
    let f = c.p;
    let q = cpu_operations::modify_operation(o, c.a, f);
    let g = q.flags;
    let d = cpu_operations::set_a(q.value, g, c);
    Executed::Done(d, n)
}

// ---- branches and jumps

fn branch(o: BranchOperation, t: Effective, n: u8, c: Cpu) -> Executed
    requires { n < 16 }
    ensures { result ≡ Executed.Done (branched (taken_of o c.p) t n c).cpu (branched (taken_of o c.p) t n c).cycles }
{
    let f = c.p;
    let k = cpu_arithmetic::num(t.crossed);
    if cpu_operations::taken(o, f) {
        let d = cpu_operations::set_pc(t.address, c);
        Executed::Done(d, n + 1 + k)
    } else {
        Executed::Done(c, n)
    }
}

fn high(a: u16) -> u8
    ensures { result ≡ a / 256 }
{
    (a / 256) as u8
}

fn low(a: u16) -> u8
    ensures { result ≡ a % 256 }
{
    (a % 256) as u8
}

fn joined(h: u8, l: u8) -> u16
    ensures { result ≡ h * 256 + l }
{
    (h as u16) * 256 + (l as u16)
}

fn jsr_high(n: u8, c: Cpu, l: u8, seen: &[u16; 38], ram: &mut [u8; 256], rom: &[u8]) -> Executed
    ensures { (result ≡ executed_with (perform (memory seen.now ram.old rom.now) (jsr_high n c l))) × (ram.new ≡ ram_with (perform (memory seen.now ram.old rom.now) (jsr_high n c l)) ram.old) }
{
    let f = c.p;
    let s = c.s;
    let r = cpu_addressing::ahead(c.pc, 65535);
    let u = high(r);
    let v = low(r);
    let t = cpu_memory::below(cpu_memory::below(s));
    let p = cpu_memory::load_after_push(seen, ram, rom, s, u, v, r);
    match p {
        Loaded::Byte(h) => {
            let d = cpu_operations::jumped(joined(h, l), t, f, c);
            push_two(ram, s, u, v);
            Executed::Done(d, n)
        },
        Loaded::Refused(x) => Executed::Refused(x),
    }
}

fn jsr(n: u8, c: Cpu, seen: &[u16; 38], ram: &mut [u8; 256], rom: &[u8]) -> Executed
    ensures { (result ≡ executed_with (perform (memory seen.now ram.old rom.now) (jsr_of n c))) × (ram.new ≡ ram_with (perform (memory seen.now ram.old rom.now) (jsr_of n c)) ram.old) }
{
    let a = cpu_addressing::ahead(c.pc, 65534);
    let p = cpu_memory::load(seen, ram, rom, a);
    match p {
        Loaded::Byte(l) => jsr_high(n, c, l, seen, ram, rom),
        Loaded::Refused(x) => Executed::Refused(x),
    }
}

fn rts(n: u8, c: Cpu, seen: &[u16; 38], ram: &mut [u8; 256], rom: &[u8]) -> Executed
    ensures { (result ≡ executed_with (perform (memory seen.now ram.old rom.now) (rts_of n c))) × (ram.new ≡ ram_with (perform (memory seen.now ram.old rom.now) (rts_of n c)) ram.old) }
{
    let f = c.p;
    let s = cpu_memory::above(c.s);
    let t = cpu_memory::above(s);
    let p = cpu_addressing::word_at(seen, ram, rom, cpu_memory::stack(s), cpu_memory::stack(t));
    match p {
        Word::Value(a) => {
            let d = cpu_operations::jumped(cpu_addressing::ahead(a, 1), t, f, c);
            Executed::Done(d, n)
        },
        Word::Refused(x) => Executed::Refused(x),
    }
}

fn rti_with(n: u8, c: Cpu, b: u8, seen: &[u16; 38], ram: &mut [u8; 256], rom: &[u8]) -> Executed
    ensures { (result ≡ executed_with (perform (memory seen.now ram.old rom.now) (rti_with n c b))) × (ram.new ≡ ram_with (perform (memory seen.now ram.old rom.now) (rti_with n c b)) ram.old) }
{
    let f = cpu_operations::pulled_p(b);
    let s = cpu_memory::above(cpu_memory::above(c.s));
    let t = cpu_memory::above(s);
    let p = cpu_addressing::word_at(seen, ram, rom, cpu_memory::stack(s), cpu_memory::stack(t));
    match p {
        Word::Value(a) => {
            let d = cpu_operations::jumped(a, t, f, c);
            Executed::Done(d, n)
        },
        Word::Refused(x) => Executed::Refused(x),
    }
}

fn rti(n: u8, c: Cpu, seen: &[u16; 38], ram: &mut [u8; 256], rom: &[u8]) -> Executed
    ensures { (result ≡ executed_with (perform (memory seen.now ram.old rom.now) (rti_of n c))) × (ram.new ≡ ram_with (perform (memory seen.now ram.old rom.now) (rti_of n c)) ram.old) }
{
    let s = cpu_memory::above(c.s);
    let p = cpu_memory::load(seen, ram, rom, cpu_memory::stack(s));
    match p {
        Loaded::Byte(b) => rti_with(n, c, b, seen, ram, rom),
        Loaded::Refused(x) => Executed::Refused(x),
    }
}

fn pla(n: u8, c: Cpu, seen: &[u16; 38], ram: &mut [u8; 256], rom: &[u8]) -> Executed
    ensures { (result ≡ executed_with (perform (memory seen.now ram.old rom.now) (pla_of n c))) × (ram.new ≡ ram_with (perform (memory seen.now ram.old rom.now) (pla_of n c)) ram.old) }
{
    let f = c.p;
    let s = cpu_memory::above(c.s);
    let p = cpu_memory::load(seen, ram, rom, cpu_memory::stack(s));
    match p {
        Loaded::Byte(b) => {
            let g = cpu_arithmetic::nz(b, f);
            let d = cpu_operations::set_s(s, cpu_operations::set_a(b, g, c));
            Executed::Done(d, n)
        },
        Loaded::Refused(x) => Executed::Refused(x),
    }
}

fn plp(n: u8, c: Cpu, seen: &[u16; 38], ram: &mut [u8; 256], rom: &[u8]) -> Executed
    ensures { (result ≡ executed_with (perform (memory seen.now ram.old rom.now) (plp_of n c))) × (ram.new ≡ ram_with (perform (memory seen.now ram.old rom.now) (plp_of n c)) ram.old) }
{
    let s = cpu_memory::above(c.s);
    let p = cpu_memory::load(seen, ram, rom, cpu_memory::stack(s));
    match p {
        Loaded::Byte(b) => {
            let g = cpu_operations::pulled_p(b);
            let d = cpu_operations::set_s(s, cpu_operations::set_p(g, c));
            Executed::Done(d, n)
        },
        Loaded::Refused(x) => Executed::Refused(x),
    }
}

fn brk(n: u8, c: Cpu, seen: &[u16; 38], ram: &mut [u8; 256], rom: &[u8]) -> Executed
    ensures { (result ≡ executed_with (perform (memory seen.now ram.old rom.now) (brk_of n c))) × (ram.new ≡ ram_with (perform (memory seen.now ram.old rom.now) (brk_of n c)) ram.old) }
{
    let e = cpu_instruction::trap(true, cpu_addressing::ahead(c.pc, 1), n, c, rom);
    let t = e.store;
    let k = commit(ram, t);
    let d = e.cpu;
    Executed::Done(d, e.cycles)
}

fn push(ram: &mut [u8; 256], b: u8, n: u8, c: Cpu) -> Executed
    ensures { (result ≡ Executed.Done (set_s (below_of c.s) c) n) × (ram.new ≡ stored ram.old (Store.PushOne c.s b)) }
{
    let s = c.s;
    let i = cpu_memory::stack_place(s);
    ram[i] = b;
    let d = cpu_operations::set_s(cpu_memory::below(s), c);
    Executed::Done(d, n)
}

fn execute(
    o: Operation,
    t: Effective,
    n: u8,
    c: Cpu,
    seen: &[u16; 38],
    ram: &mut [u8; 256],
    rom: &[u8],
) -> Executed
    requires { n < 16 }
    ensures { (result ≡ executed_with (perform (memory seen.now ram.old rom.now) (execute_of o t n c))) × (ram.new ≡ ram_with (perform (memory seen.now ram.old rom.now) (execute_of o t n c)) ram.old) }
{
    match o {
        Operation::Read(r) => read_at(r, t, n, c, seen, ram, rom),
        Operation::Store(r) => {
            let v = cpu_operations::store_operation(r, c);
            put(ram, t.address, v, c, n)
        },
        Operation::Modify(r) => modify_at(r, t, n, c, seen, ram, rom),
        Operation::ModifyA(r) => modify_a(r, n, c),
        Operation::Implied(r) => Executed::Done(cpu_operations::implied_operation(r, c), n),
        Operation::Branch(r) => branch(r, t, n, c),
        Operation::Jmp => Executed::Done(cpu_operations::set_pc(t.address, c), n),
        Operation::Jsr => jsr(n, c, seen, ram, rom),
        Operation::Rts => rts(n, c, seen, ram, rom),
        Operation::Rti => rti(n, c, seen, ram, rom),
        Operation::Brk => brk(n, c, seen, ram, rom),
        Operation::Pha => push(ram, c.a, n, c),
        Operation::Php => {
            let f = c.p;
            let b = cpu_operations::pushed_p(f, true);
            push(ram, b, n, c)
        },
        Operation::Pla => pla(n, c, seen, ram, rom),
        Operation::Plp => plp(n, c, seen, ram, rom),
        Operation::Undocumented => Executed::Refused(20),
    }
}

fn wide_length(e: u32) -> u16
    ensures { result ≡ length_of e }
{
    cpu_opcodes::length_of(e) as u16
}

// An instruction whose opcode is read and has the entry e.
fn instruction_of(e: u32, c: Cpu, seen: &[u16; 38], ram: &mut [u8; 256], rom: &[u8]) -> Executed
    ensures { (result ≡ executed_with (perform (memory seen.now ram.old rom.now) (instruction_of e c))) × (ram.new ≡ ram_with (perform (memory seen.now ram.old rom.now) (instruction_of e c)) ram.old) }
{
    let p = cpu_addressing::locate(
        cpu_opcodes::is_jsr(e),
        cpu_opcodes::mode_of(e),
        c,
        seen,
        ram,
        rom,
    );
    match p {
        Located::At(t) => {
            let d = cpu_operations::set_pc(cpu_addressing::ahead(c.pc, wide_length(e)), c);
            execute(
                cpu_opcodes::operation_of(e),
                t,
                cpu_opcodes::cycles_of(e),
                d,
                seen,
                ram,
                rom,
            )
        },
        Located::Refused(n) => Executed::Refused(n),
    }
}

// The instruction at PC, by a table of opcodes, with its store in RAM: the CPU that it leaves and its cycles, a register to be written, or
// the number of its first access that fails.
pub fn instruction_at(
    c: Cpu,
    table: &[u32; 256],
    seen: &[u16; 38],
    ram: &mut [u8; 256],
    rom: &[u8],
) -> Executed
    ensures { (result ≡ executed_with (perform (memory seen.now ram.old rom.now) (instruction_by table.now c))) × (ram.new ≡ ram_with (perform (memory seen.now ram.old rom.now) (instruction_by table.now c)) ram.old)
        × ExecutedCase (perform (memory seen.now ram.old rom.now) (instruction_by table.now c)) result }
{
    let p = cpu_memory::load(seen, ram, rom, c.pc);
    match p {
        Loaded::Byte(b) => instruction_of(cpu_opcodes::entry(table, b), c, seen, ram, rom),
        Loaded::Refused(n) => Executed::Refused(n),
    }
}
