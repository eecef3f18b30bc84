// A plain reading of the bus: the addresses in a list of outside changes of SCL and SDA (document 02, Wish 11). Each question is
// answered by looking at the list anew, so the time grows with the square of its length.
#![tactic(auto)]

ghost use Rattle.std.specs.Prelude.{None, ◌≡◌, ◌+◌, ◌*◌, ◌%◌, ◌<◌, ◌≤◌, map, ◌++◌, length, drop, set};
ghost use Rattle.bits.specs.Byte.{pick, num};
ghost use Rattle.plain_bus.specs.Plain.{level_before, rise_at, start_at, stop_at, rises_since, levels_at, found, addresses};
ghost use Rattle.plain_bus.specs.Reading.{level_fault, fault_of, first_fault, number_of, reading_by, reading, own_number, outcome_number, word_of, written, places_left, transfer_of, transfer_at, risen_of, taken_at, has_address, ends_by, ReadingCase};
ghost use Rattle.bus.specs.Bus.{is_own};

use bus::{Comparison, OwnAddress};

const SDA: u16 = 24;

const SCL: u16 = 25;

// What is wrong with a change.
#[derive(Clone, Copy)]
pub enum Fault {
    OtherLine,
    OtherLevel,
}

// What the reading gives: how many addresses it listed, or why it is refused.
#[derive(Clone, Copy)]
pub enum Reading {
    Listed(usize),
    BadLine,
    BadLevel,
    TooFewPlaces,
}

// The rises of SCL since a START, counted up to nine, and the byte of the first eight.
#[derive(Clone, Copy)]
pub struct Transfer {
    pub rises: u8,
    pub byte: u8,
}

// ---- levels and edges

// The level of a line just before a place: that of its last change before it, and 1 where there is none.
fn level_before(line: u16, changes: &[u16], place: usize) -> bool
    requires { place ≤ length changes.now }
    ensures { result ≡ level_before line changes.now place }
{
    for i in (0..place).rev() {
        if changes[i] / 256 == line {
            return changes[i] % 256 == 1;
        }
    }
    true
}

fn is_rise(changes: &[u16], i: usize) -> bool
    requires { i < length changes.now }
    ensures { result ≡ rise_at changes.now i }
{
    let change = changes[i];
    if change / 256 == SCL {
        if change % 256 == 1 {
            return !level_before(SCL, changes, i);
        }
    }
    false
}

fn is_start(changes: &[u16], i: usize) -> bool
    requires { i < length changes.now }
    ensures { result ≡ start_at changes.now i }
{
    let change = changes[i];
    if change / 256 == SDA {
        if change % 256 == 1 {
            return false;
        }
        if level_before(SCL, changes, i) {
            return level_before(SDA, changes, i);
        }
    }
    false
}

fn is_stop(changes: &[u16], i: usize) -> bool
    requires { i < length changes.now }
    ensures { result ≡ stop_at changes.now i }
{
    let change = changes[i];
    if change / 256 == SDA {
        if change % 256 == 1 {
            if level_before(SCL, changes, i) {
                return !level_before(SDA, changes, i);
            }
        }
    }
    false
}

// ---- a transfer

fn appended(byte: u8, level: bool) -> u8
    ensures { result ≡ byte % 128 * 2 + num level }
{
    let shifted = byte % 128 * 2;
    if level { shifted + 1 } else { shifted }
}

// One more rise, with SDA at this level: a bit of the byte up to the eighth.
fn risen(t: Transfer, level: bool) -> Transfer
    ensures { result ≡ risen_of t level }
{
    let rises = t.rises;
    if rises < 8 {
        Transfer {
            rises: rises + 1,
            byte: appended(t.byte, level),
        }
    } else {
        Transfer {
            rises: 9,
            byte: t.byte,
        }
    }
}

// The transfer after the change at a place that is neither START nor STOP.
fn taken(changes: &[u16], i: usize, t: Transfer) -> Transfer
    requires { i < length changes.now }
    ensures { result ≡ taken_at changes.now i t }
{
    if is_rise(changes, i) {
        return risen(t, level_before(SDA, changes, i));
    }
    t
}

// What follows a START, up to the next START or STOP.
fn transfer_since(changes: &[u16], start: usize) -> Transfer
    requires { start < length changes.now }
    ensures { result ≡ transfer_of (levels_at changes.now (rises_since changes.now start)) }
{
    let mut t = Transfer { rises: 0, byte: 0 };
    for i in start + 1..changes.len() {
        if is_start(changes, i) {
            return t;
        }
        if is_stop(changes, i) {
            return t;
        }
        t = taken(changes, i, t);
    }
    t
}

fn transfer_at(changes: &[u16], place: usize) -> Transfer
    requires { place < length changes.now }
    ensures { result ≡ transfer_at changes.now place }
{
    if is_start(changes, place) {
        return transfer_since(changes, place);
    }
    Transfer { rises: 0, byte: 0 }
}

// ---- the addresses

fn own_number(matched: OwnAddress) -> u8
    ensures { result ≡ own_number matched }
{
    match matched {
        OwnAddress::A0 => 1,
        OwnAddress::IiAdr => 2,
        OwnAddress::Both => 3,
    }
}

fn outcome_number(outcome: Comparison) -> u8
    ensures { result ≡ outcome_number outcome }
{
    match outcome {
        Comparison::None => 0,
        Comparison::Own(matched) => own_number(matched),
    }
}

fn is_own(outcome: Comparison) -> bool
    ensures { result ≡ is_own outcome }
{
    match outcome {
        Comparison::None => false,
        Comparison::Own(_) => true,
    }
}

// The reading stops at this transfer: it has a ninth rise, and its address matched.
fn ends(own: u8, t: Transfer) -> bool
    ensures { result ≡ ends_by own t }
{
    if t.rises == 9 {
        let byte = t.byte;
        return is_own(bus_ddc2b::compared(own, byte));
    }
    false
}

// One address more where the transfer has eight rises.
fn counted(n: usize, t: Transfer) -> usize
    requires { n + 1 < 18446744073709551616 }
    ensures { result ≡ n + num (has_address t) }
{
    if 7 < t.rises { n + 1 } else { n }
}

// How many addresses there are, up to the stop.
fn count(own: u8, changes: &[u16]) -> usize
    ensures { result ≡ length (addresses own changes.now) }
{
    let mut n = 0;
    for i in 0..changes.len() {
        let t = transfer_at(changes, i);
        n = counted(n, t);
        if ends(own, t) {
            return n;
        }
    }
    n
}

fn word(own: u8, byte: u8) -> u16
    ensures { result ≡ word_of (found own byte) }
{
    byte as u16 * 256 + outcome_number(bus_ddc2b::compared(own, byte)) as u16
}

// The address of a transfer that has eight rises, to this place.
fn put(own: u8, t: Transfer, places: &mut [u16], n: usize)
    requires { n + num (has_address t) ≤ length places.old }
    ensures { places.new ≡ pick (has_address t) (set places.old n (word_of (found own t.byte))) places.old }
{
    if 7 < t.rises {
        let byte = t.byte;
        places[n] = word(own, byte);
    }
}

// The addresses to the start of the places.
fn list(own: u8, changes: &[u16], places: &mut [u16])
    requires { length (addresses own changes.now) ≤ length places.old }
    ensures { places.new ≡ map word_of (addresses own changes.now) ++ drop (length (addresses own changes.now)) places.old }
{
    let mut n = 0;
    for i in 0..changes.len() {
        let t = transfer_at(changes, i);
        put(own, t, places, n);
        n = counted(n, t);
        if ends(own, t) {
            return;
        }
    }
}

// ---- the call

fn level_fault(change: u16) -> Option<Fault>
    ensures { result ≡ level_fault change }
{
    if 1 < change % 256 {
        Some(Fault::OtherLevel)
    } else {
        None
    }
}

fn fault_of(change: u16) -> Option<Fault>
    ensures { result ≡ fault_of change }
{
    let line = change / 256;
    if line == SDA {
        return level_fault(change);
    }
    if line == SCL {
        return level_fault(change);
    }
    Some(Fault::OtherLine)
}

fn first_fault(changes: &[u16]) -> Option<Fault>
    ensures { result ≡ first_fault changes.now }
{
    for change in changes {
        if let Some(fault) = fault_of(*change) {
            return Some(fault);
        }
    }
    None
}

// The number of an answer: 0, 2, 3 or 7.
pub fn number(r: Reading) -> u8
    ensures { result ≡ number_of r }
{
    match r {
        Reading::Listed(_) => 0,
        Reading::BadLine => 2,
        Reading::BadLevel => 3,
        Reading::TooFewPlaces => 7,
    }
}

fn listed(own: u8, changes: &[u16], places: &mut [u16]) -> Reading
    ensures { (result ≡ reading_by None (length places.old) (length (addresses own changes.now))) × (places.new ≡ written (reading_by None (length places.old) (length (addresses own changes.now))) (map word_of (addresses own changes.now)) places.old) }
{
    let n = count(own, changes);
    if places.len() < n {
        return Reading::TooFewPlaces;
    }
    list(own, changes, places);
    Reading::Listed(n)
}

// The reading: each address with its outcome to the start of the places, up to the stop; or a refusal, and nothing written.
pub fn read(own: u8, changes: &[u16], places: &mut [u16]) -> Reading
    ensures { (result ≡ reading own changes.now places.old) × (places.new ≡ places_left own changes.now places.old) × ReadingCase own changes.now places.old result }
{
    match first_fault(changes) {
        None => listed(own, changes, places),
        Some(Fault::OtherLine) => Reading::BadLine,
        Some(Fault::OtherLevel) => Reading::BadLevel,
    }
}
