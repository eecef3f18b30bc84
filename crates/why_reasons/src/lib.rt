// Why a request line is up: for each source what set its flag, found in one pass over the words (document 02, Wish 3).
#![tactic(auto)]

ghost use Rattle.std.specs.Prelude.{◌≡◌};
ghost use Rattle.why_reasons.specs.Explain.{next_place, start as start_of, followed, reason_by, reasons_of, why as why_of, WhyCase};

use chip::Chip;
use chip_well_formed::IllFormed;
use registers::{INTA, INTD, INTE, INTR, INTS, INTV};
use why_last_set::{Last, LastSet, Sort};

// Why a source's line is as it is: it is not up; its flag stands since the start; or which event last set the flag, by its place and
// its sort.
#[derive(Clone, Copy)]
pub enum Reason {
    NotRequested,
    AlreadySet,
    Event(u64, Sort),
}

// A reason for each source.
#[derive(Clone, Copy)]
pub struct Reasons {
    pub v: Reason,
    pub e: Reason,
    pub r: Reason,
    pub a: Reason,
    pub d: Reason,
    pub s: Reason,
}

// What is kept on the way through the words: the chip, the place of the next word, and the last change of each flag.
#[derive(Clone, Copy)]
pub struct Followed {
    pub chip: Chip,
    pub place: u64,
    pub last: LastSet,
}

// The place behind this one. The last that a word of 64 bits can tell stands.
fn next_place(place: u64) -> u64
    ensures { result ≡ next_place place }
{
    if place < 18446744073709551615 {
        place + 1
    } else {
        place
    }
}

// Before the first word.
pub fn start(c: Chip) -> Followed
    ensures { result ≡ start_of c }
{
    Followed {
        chip: c,
        place: 0,
        last: why_last_set::none_set(),
    }
}

// Every word to the chip, and the last changes noted. The loop keeps the array of stored registers and the core as two locals, so that
// neither is copied.
pub fn follow(f: Followed, words: &[u32]) -> Followed
    ensures { result ≡ followed f words.now }
{
    let c = f.chip;
    let mut registers = c.registers;
    let mut core = c.core;
    let mut place = f.place;
    let mut last = f.last;
    for word in words {
        let irqx = core.irqx;
        let mode = chip::mode_of(core);
        let done = step::advance_word(&mut registers, core, *word);
        core = done.core;
        last = why_last_set::noted(last, place, irqx, mode, core);
        place = next_place(place);
    }
    Followed {
        chip: Chip { registers, core },
        place,
        last,
    }
}

fn reason_by(requested: bool, last: Last) -> Reason
    ensures { result ≡ reason_by requested last }
{
    if requested {
        match last {
            Last::Never => Reason::AlreadySet,
            Last::At(place, sort) => Reason::Event(place, sort),
        }
    } else {
        Reason::NotRequested
    }
}

// The reasons after the words followed.
pub fn reasons_after(f: Followed) -> Reasons
    ensures { result ≡ reasons_of f }
{
    let last = f.last;
    let lines = chip::requests(f.chip);
    Reasons {
        v: reason_by(bits::bit(INTV, lines), last.v),
        e: reason_by(bits::bit(INTE, lines), last.e),
        r: reason_by(bits::bit(INTR, lines), last.r),
        a: reason_by(bits::bit(INTA, lines), last.a),
        d: reason_by(bits::bit(INTD, lines), last.d),
        s: reason_by(bits::bit(INTS, lines), last.s),
    }
}

// Why the lines are as they are after the words. An ill formed state is told before all else.
pub fn why(c: Chip, words: &[u32]) -> Result<Reasons, IllFormed>
    ensures { (result ≡ why_of c words.now) × WhyCase c words.now result }
{
    if chip_well_formed::well_formed(c) {
        Ok(reasons_after(follow(start(c), words)))
    } else {
        Err(IllFormed)
    }
}
