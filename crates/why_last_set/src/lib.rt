// The last event that took each flag of IRQX from 0 to 1, and of which sort it was (document 02, Wish 3).
#![tactic(auto)]

ghost use Rattle.std.specs.Prelude.{◌≡◌, ◌%◌};
ghost use Rattle.why_last_set.specs.LastSet.{goes_up, byte_sort, last_at, address_at, Source, noted as noted_of, none_set as none_set_of, all_noted};

use bus::{Comparison, Mode, OwnAddress};
use chip::Core;
use registers::{INTA, INTD, INTE, INTR, INTS, INTV};

// The sorts of events that set a flag. That of a matched address tells which of the chip's addresses it was (Wish 12).
#[derive(Clone, Copy)]
pub enum Sort {
    VsyncRise,
    P16Rise,
    Timer,
    MatchedAddress(OwnAddress),
    NinthClock,
    Ddc1Load,
    SclFall,
}

// The last change of a flag from 0 to 1: there was none, or the place of the word and the sort of its event.
#[derive(Clone, Copy)]
pub enum Last {
    Never,
    At(u64, Sort),
}

// The last change of each flag, a field for each source.
#[derive(Clone, Copy)]
pub struct LastSet {
    pub v: Last,
    pub e: Last,
    pub r: Last,
    pub a: Last,
    pub d: Last,
    pub s: Last,
}

// No flag was set yet.
pub fn none_set() -> LastSet
    ensures { result ≡ none_set_of }
{
    LastSet {
        v: Last::Never,
        e: Last::Never,
        r: Last::Never,
        a: Last::Never,
        d: Last::Never,
        s: Last::Never,
    }
}

// Bit k of IRQX goes from 0 to 1.
fn goes_up(k: u8, before: u8, after: u8) -> bool
    ensures { result ≡ goes_up (k % 8) before after }
{
    !bits::bit(k, before) & bits::bit(k, after)
}

// What an event that sets flag D is, by the mode before it.
fn byte_sort(mode: Mode) -> Sort
    ensures { result ≡ byte_sort mode }
{
    match mode {
        Mode::Off => Sort::NinthClock,
        Mode::Ddc1 => Sort::Ddc1Load,
        Mode::Ddc2b => Sort::NinthClock,
    }
}

fn last_at(up: bool, place: u64, sort: Sort, last: Last) -> Last
    ensures { result ≡ last_at up place sort last }
{
    if up { Last::At(place, sort) } else { last }
}

fn address_at(up: bool, place: u64, outcome: Comparison, last: Last) -> Last
    ensures { result ≡ address_at up place outcome last }
{
    match outcome {
        Comparison::None => last,
        Comparison::Own(matched) => last_at(up, place, Sort::MatchedAddress(matched), last),
    }
}

// The flags as the word at this place changed them, from IRQX and the mode before it to the core after it.
fn all_noted(last: LastSet, place: u64, irqx: u8, mode: Mode, after: Core) -> LastSet
    ensures { result ≡ all_noted place irqx mode after last }
{
    let v = last.v;
    let e = last.e;
    let r = last.r;
    let a = last.a;
    let d = last.d;
    let s = last.s;
    let b = after.bus;
    let phase = b.phase;
    let now = after.irqx;
    LastSet {
        v: last_at(goes_up(INTV, irqx, now), place, Sort::VsyncRise, v),
        e: last_at(goes_up(INTE, irqx, now), place, Sort::P16Rise, e),
        r: last_at(goes_up(INTR, irqx, now), place, Sort::Timer, r),
        a: address_at(goes_up(INTA, irqx, now), place, bus::compared_in(phase), a),
        d: last_at(goes_up(INTD, irqx, now), place, byte_sort(mode), d),
        s: last_at(goes_up(INTS, irqx, now), place, Sort::SclFall, s),
    }
}

// What was the last change of each flag, once the word at this place has been carried out. Most words leave IRQX as it was, and
// then nothing is looked at.
pub fn noted(last: LastSet, place: u64, irqx: u8, mode: Mode, after: Core) -> LastSet
    ensures { result ≡ all_noted place irqx mode after last }
{
    if irqx == after.irqx {
        last
    } else {
        all_noted(last, place, irqx, mode, after)
    }
}
