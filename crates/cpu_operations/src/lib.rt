// What the operations of the 6502 make of registers, flags and a byte (document 02, Wish 5).
#![tactic(auto)]

ghost use Rattle.std.specs.Prelude.{◌≡◌, ◌+◌, ◌%◌, ◌<◌};
ghost use Rattle.cpu_operations.specs.Operations.{set_a, set_x, set_y, set_p, set_s, set_pc, jumped as jumped_of, set_over, tested as tested_of, read_operation, store_operation, modify_operation, implied_operation, taken as taken_of, pushed_p, pulled_p};

use cpu_arithmetic::{Computed, Flags};
use cpu_opcodes::{
    BranchOperation, ImpliedOperation, ModifyOperation, ReadOperation, StoreOperation,
};

// The registers of the CPU. `over` counts the cycles since the last 8 µs clock that cycles gave, 0 to 31.
#[derive(Clone, Copy)]
pub struct Cpu {
    pub a: u8,
    pub x: u8,
    pub y: u8,
    pub s: u8,
    pub p: Flags,
    pub pc: u16,
    pub over: u8,
}

// ---- the CPU with a register changed

// A and the flags.
pub fn set_a(r: u8, f: Flags, c: Cpu) -> Cpu
    ensures { result ≡ set_a r f c }
{
    Cpu { a: r, p: f, ..c }
}

// X and the flags.
pub fn set_x(r: u8, f: Flags, c: Cpu) -> Cpu
    ensures { result ≡ set_x r f c }
{
    Cpu { x: r, p: f, ..c }
}

// Y and the flags.
pub fn set_y(r: u8, f: Flags, c: Cpu) -> Cpu
    ensures { result ≡ set_y r f c }
{
    Cpu { y: r, p: f, ..c }
}

// The flags.
pub fn set_p(f: Flags, c: Cpu) -> Cpu
    ensures { result ≡ set_p f c }
{
    Cpu { p: f, ..c }
}

// S.
pub fn set_s(s: u8, c: Cpu) -> Cpu
    ensures { result ≡ set_s s c }
{
    Cpu { s, ..c }
}

// PC.
pub fn set_pc(pc: u16, c: Cpu) -> Cpu
    ensures { result ≡ set_pc pc c }
{
    Cpu { pc, ..c }
}

// PC, S and the flags.
pub fn jumped(to: u16, sp: u8, f: Flags, c: Cpu) -> Cpu
    ensures { result ≡ jumped_of to sp f c }
{
    Cpu {
        s: sp,
        p: f,
        pc: to,
        ..c
    }
}

// The cycles over.
pub fn set_over(n: u8, c: Cpu) -> Cpu
    ensures { result ≡ set_over n c }
{
    Cpu { over: n, ..c }
}

// ---- the operations that read a byte

fn tested(a: u8, b: u8, f: Flags) -> Flags
    ensures { result ≡ tested_of a b f }
{
    Flags {
        n: b > 127,
        v: b / 64 % 2 == 1,
        z: a & b == 0,
        ..f
    }
}

// A result for A, and the flags with it.
fn into_a(t: Computed, c: Cpu) -> Cpu
    ensures { result ≡ set_a t.value t.flags c }
{
    set_a(t.value, t.flags, c)
}

// An operation that reads, with its byte.
#[tactic(auto, unfolding(crate::specs::Operations::read_operation))]
pub fn read_operation(o: ReadOperation, b: u8, c: Cpu) -> Cpu
    ensures { result ≡ read_operation o b c }
{
    let f = c.p;
    let a = c.a;
    match o {
        ReadOperation::Lda => set_a(b, cpu_arithmetic::nz(b, f), c),
        ReadOperation::Ldx => set_x(b, cpu_arithmetic::nz(b, f), c),
        ReadOperation::Ldy => set_y(b, cpu_arithmetic::nz(b, f), c),
        ReadOperation::And => set_a(a & b, cpu_arithmetic::nz(a & b, f), c),
        ReadOperation::Ora => set_a(a | b, cpu_arithmetic::nz(a | b, f), c),
        ReadOperation::Eor => set_a(a ^ b, cpu_arithmetic::nz(a ^ b, f), c),
        ReadOperation::Adc => into_a(cpu_arithmetic::adc(a, b, f), c),
        ReadOperation::Sbc => into_a(cpu_arithmetic::sbc(a, b, f), c),
        ReadOperation::Cmp => set_p(cpu_arithmetic::compared(a, b, f), c),
        ReadOperation::Cpx => set_p(cpu_arithmetic::compared(c.x, b, f), c),
        ReadOperation::Cpy => set_p(cpu_arithmetic::compared(c.y, b, f), c),
        ReadOperation::Bit => set_p(tested(a, b, f), c),
    }
}

// ---- the operations that store a register

// The byte that an operation stores.
#[tactic(auto, unfolding(crate::specs::Operations::store_operation))]
pub fn store_operation(o: StoreOperation, c: Cpu) -> u8
    ensures { result ≡ store_operation o c }
{
    match o {
        StoreOperation::Sta => c.a,
        StoreOperation::Stx => c.x,
        StoreOperation::Sty => c.y,
    }
}

// ---- the operations that change a byte

fn one_more(b: u8) -> u8
    ensures { result ≡ (b + 1) % 256 }
{
    b.wrapping_add(1)
}

fn one_less(b: u8) -> u8
    ensures { result ≡ (b + 255) % 256 }
{
    b.wrapping_sub(1)
}

// An operation that changes a byte.
#[tactic(auto, unfolding(crate::specs::Operations::modify_operation))]
pub fn modify_operation(o: ModifyOperation, b: u8, f: Flags) -> Computed
    ensures { result ≡ modify_operation o b f }
{
    let k = cpu_arithmetic::num(f.c);
    match o {
        ModifyOperation::Asl => {
            let r = cpu_arithmetic::low_byte(u16::from(b) * 2);
            cpu_arithmetic::with_flags(r, cpu_arithmetic::nzc(r, b > 127, f))
        },
        ModifyOperation::Lsr => {
            let r = b / 2;
            cpu_arithmetic::with_flags(r, cpu_arithmetic::nzc(r, b % 2 == 1, f))
        },
        ModifyOperation::Rol => {
            let r = cpu_arithmetic::low_byte(u16::from(b) * 2 + u16::from(k));
            cpu_arithmetic::with_flags(r, cpu_arithmetic::nzc(r, b > 127, f))
        },
        ModifyOperation::Ror => {
            let r = b / 2 + k * 128;
            cpu_arithmetic::with_flags(r, cpu_arithmetic::nzc(r, b % 2 == 1, f))
        },
        ModifyOperation::Inc => {
            let r = one_more(b);
            cpu_arithmetic::with_flags(r, cpu_arithmetic::nz(r, f))
        },
        ModifyOperation::Dec => {
            let r = one_less(b);
            cpu_arithmetic::with_flags(r, cpu_arithmetic::nz(r, f))
        },
    }
}

// ---- the operations on registers and flags alone

// An operation on registers and flags alone.
#[tactic(auto, unfolding(crate::specs::Operations::implied_operation))]
pub fn implied_operation(o: ImpliedOperation, c: Cpu) -> Cpu
    ensures { result ≡ implied_operation o c }
{
    let f = c.p;
    let a = c.a;
    let x = c.x;
    let y = c.y;
    let s = c.s;
    match o {
        ImpliedOperation::Clc => set_p(Flags { c: false, ..f }, c),
        ImpliedOperation::Sec => set_p(Flags { c: true, ..f }, c),
        ImpliedOperation::Cli => set_p(Flags { i: false, ..f }, c),
        ImpliedOperation::Sei => set_p(Flags { i: true, ..f }, c),
        ImpliedOperation::Cld => set_p(Flags { d: false, ..f }, c),
        ImpliedOperation::Sed => set_p(Flags { d: true, ..f }, c),
        ImpliedOperation::Clv => set_p(Flags { v: false, ..f }, c),
        ImpliedOperation::Nop => c,
        ImpliedOperation::Tax => set_x(a, cpu_arithmetic::nz(a, f), c),
        ImpliedOperation::Tay => set_y(a, cpu_arithmetic::nz(a, f), c),
        ImpliedOperation::Txa => set_a(x, cpu_arithmetic::nz(x, f), c),
        ImpliedOperation::Tya => set_a(y, cpu_arithmetic::nz(y, f), c),
        ImpliedOperation::Tsx => set_x(s, cpu_arithmetic::nz(s, f), c),
        ImpliedOperation::Txs => set_s(x, c),
        ImpliedOperation::Inx => {
            let r = one_more(x);
            set_x(r, cpu_arithmetic::nz(r, f), c)
        },
        ImpliedOperation::Iny => {
            let r = one_more(y);
            set_y(r, cpu_arithmetic::nz(r, f), c)
        },
        ImpliedOperation::Dex => {
            let r = one_less(x);
            set_x(r, cpu_arithmetic::nz(r, f), c)
        },
        ImpliedOperation::Dey => {
            let r = one_less(y);
            set_y(r, cpu_arithmetic::nz(r, f), c)
        },
    }
}

// ---- the branches

// Whether a branch is taken.
#[tactic(auto, unfolding(crate::specs::Operations::taken))]
pub fn taken(o: BranchOperation, f: Flags) -> bool
    ensures { result ≡ taken_of o f }
{
    match o {
        BranchOperation::Bpl => !f.n,
        BranchOperation::Bmi => f.n,
        BranchOperation::Bvc => !f.v,
        BranchOperation::Bvs => f.v,
        BranchOperation::Bcc => !f.c,
        BranchOperation::Bcs => f.c,
        BranchOperation::Bne => !f.z,
        BranchOperation::Beq => f.z,
    }
}

// ---- P as a byte

// P as it is pushed, with B as told.
#[tactic(auto, unfolding(crate::specs::Operations::pushed_p))]
pub fn pushed_p(f: Flags, b: bool) -> u8
    ensures { result ≡ pushed_p f b }
{
    cpu_arithmetic::num(f.n) * 128
        + cpu_arithmetic::num(f.v) * 64
        + 32
        + cpu_arithmetic::num(b) * 16
        + cpu_arithmetic::num(f.d) * 8
        + cpu_arithmetic::num(f.i) * 4
        + cpu_arithmetic::num(f.z) * 2
        + cpu_arithmetic::num(f.c)
}

// The flags of a pulled P.
#[tactic(auto, unfolding(crate::specs::Operations::pulled_p))]
pub fn pulled_p(b: u8) -> Flags
    ensures { result ≡ pulled_p b }
{
    Flags {
        n: b > 127,
        v: b / 64 % 2 == 1,
        d: b / 8 % 2 == 1,
        i: b / 4 % 2 == 1,
        z: b / 2 % 2 == 1,
        c: b % 2 == 1,
    }
}
