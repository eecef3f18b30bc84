// A value change dump (IEEE 1364, four states) to event words.
#![tactic(auto)]

ghost use Rattle.std.specs.Prelude.{◌≡◌, false, List, [], ℕ, ◌≤◌, ◌+◌, length, ltb};
ghost use Rattle.bits.specs.Byte.{pick};
ghost use Rattle.vcd_text.specs.Token.{tokens};
ghost use Rattle.vcd_codes.specs.Codes.{variables};
ghost use Rattle.vcd_header.specs.Header.{stops_at};
ghost use Rattle.vcd_body.specs.Pieces.{answer, closed, cursor, start as start_of};
ghost use Rattle.vcd.specs.Header.{heading, taken, one_more, declares, settled, header_of};
ghost use Rattle.vcd.specs.Call.{call_of};

use vcd_body::{Cursor, Piece};
use vcd_header::{Close, Head, Pending};

// ---- the variables

// A pin has its variable already.
fn is_taken(pins: &[u8], entries: usize, pin: u8) -> bool
    requires { entries ≤ length pins.now }
    ensures { (text places : List ℕ) → result ≡ taken (variables text places pins.now 0 entries) pin }
{
    pins[..entries].iter().any(|p| *p == pin)
}

// The pin of a variable; 0 where another has it.
fn free_pin(pins: &[u8], entries: usize, pin: u8) -> u8
    requires { entries ≤ length pins.now }
    ensures { (text places : List ℕ) → result ≡ pick (taken (variables text places pins.now 0 entries) pin) 0 pin }
{
    if is_taken(pins, entries, pin) {
        return 0;
    }
    pin
}

fn one_more(h: Head) -> Head
    requires { h.entries ≤ 32 }
    ensures { result ≡ one_more h }
{
    let variable = Pending {
        from: 0,
        to: 0,
        index: 0,
        pin: 0,
        scalar: false,
        whole: false,
    };
    Head {
        entries: h.entries + 1,
        variable,
        ..h
    }
}

fn too_many(h: Head) -> Head
    ensures { result ≡ stops_at h 42 h.mark }
{
    let close = Close {
        place: h.mark,
        number: 42,
        stop: true,
    };
    Head { close, ..h }
}

// A whole $var.
fn declare(text: &[u8], places: &mut [usize], pins: &mut [u8], h: Head) -> Head
    requires { (length places.old ≡ 64) × (length pins.old ≡ 32) }
    ensures { heading result (variables text.now places.new pins.new 0 result.entries) ≡ declares text.now (heading h (variables text.now places.old pins.old 0 h.entries)) }
{
    let v = h.variable;
    let n = h.entries;
    if n < 32 {
        let pin = free_pin(pins, n, v.pin);
        places[n * 2] = v.from;
        places[n * 2 + 1] = v.to;
        pins[n] = pin;
        return one_more(h);
    }
    too_many(h)
}

fn settle(text: &[u8], places: &mut [usize], pins: &mut [u8], h: Head) -> Head
    requires { (length places.old ≡ 64) × (length pins.old ≡ 32) }
    ensures { heading result (variables text.now places.new pins.new 0 result.entries) ≡ settled text.now (heading h (variables text.now places.old pins.old 0 h.entries)) }
{
    let v = h.variable;
    if v.whole {
        return declare(text, places, pins, h);
    }
    h
}

// ---- the header

// The tokens one after the other. A `while`: a token, and not the loop, says where the next begins.
fn read_header(text: &[u8], places: &mut [usize], pins: &mut [u8]) -> Head
    requires { (length places.old ≡ 64) × (length pins.old ≡ 32) }
    ensures { heading result (variables text.now places.new pins.new 0 result.entries) ≡ header_of text.now }
{
    let mut h = vcd_header::fresh();
    let mut at = 0;
    while at < text.len() {
        let p = vcd_text::skip_white(text, at);
        if p < text.len() {
            let e = vcd_text::word_end(text, p);
            let section = h.section;
            h = settle(
                text,
                places,
                pins,
                vcd_header::step(section, &text[p..e], h, p, e),
            );
            let close = h.close;
            if close.stop {
                return h;
            }
            at = e;
        } else {
            return vcd_header::end(h, text.len());
        }
    }
    vcd_header::end(h, text.len())
}

// ---- calls

fn refused(close: Close) -> Piece
    ensures { result ≡ closed 0 close.number close.place }
{
    Piece {
        count: 0,
        place: close.place,
        number: close.number,
        next: vcd_body::start(),
    }
}

fn body_from(from: Cursor, place: usize) -> Cursor
    ensures { result ≡ cursor (pick (ltb from.at place) place from.at) from.done from.state }
{
    Cursor {
        at: from.at.max(place),
        ..from
    }
}

// The words of a file from a cursor on, as far as there are places for them. A call that is told 43 tells the cursor of the
// next one too.
pub fn read_more(text: &[u8], out: &mut [u32], from: Cursor) -> Piece
    ensures { answer out.new result ≡ call_of text.now from out.old }
{
    let mut places = [0usize; 64];
    let mut pins = [0u8; 32];
    let h = read_header(text, &mut places, &mut pins);
    let close = h.close;
    if 0 < close.number {
        return refused(close);
    }
    let unit = h.unit;
    vcd_body::read(
        text,
        &places,
        &pins,
        h.entries,
        unit.unit,
        out,
        body_from(from, close.place),
    )
}

// The words of a file, as far as there are places for them.
pub fn read(text: &[u8], out: &mut [u32]) -> Piece
    ensures { answer out.new result ≡ call_of text.now start_of out.old }
{
    read_more(text, out, vcd_body::start())
}
