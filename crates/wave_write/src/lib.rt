// Replays as value change dumps (IEEE 1364): what an event word, and what is watched of the chip after it, add to a dump, into places that
// the caller lends.
#![tactic(auto)]

ghost use Rattle.std.specs.Prelude.{true, ◌≡◌, List, ◌++◌, ◌∷◌, [], ◌+◌, ◌-◌, ◌*◌, ◌/◌, ◌%◌, ◌≤◌, ◌<◌, length};
ghost use Rattle.bits.specs.Byte.{num};
ghost use Rattle.wave_write.specs.Decimal.{decimal_to, binary};
ghost use Rattle.wave_write.specs.Watch.{width_of, aligned as aligned_to};
ghost use Rattle.wave_write.specs.Lines.{text, time, vector, first, first_lines, is_pin, pin_lines, level_lines, vector_lines, change_lines, same_watch, watch_lines, at_most, time_of, moved, event_lines, begin_lines};
ghost use Rattle.wave_write.specs.Header.{header_text};
ghost use Rattle.wave_write.specs.Wrote.{Wrote, fits as fits_in, event_bytes, moved_by, begin_bytes, end_bytes};

// What is watched of a chip. Lines, a bit each from the lowest: RESET, P16, the SCL line, the SDA line, the requests V, E, R, A, D, S. Vectors, twelve
// bits each from the lowest: IRQX, II STS, II DAT, HCNT, VCNT, the phase of the bus.
#[derive(Clone, Copy, PartialEq, Eq)]
pub struct Watch {
    pub levels: u16,
    pub vectors: u64,
}

// Where the writer stands: the 8 µs clocks so far, the events since the last one, and the lines and vectors that the dump tells.
#[derive(Clone, Copy)]
pub struct Writer {
    pub clocks: u64,
    pub since: u64,
    pub watch: Watch,
}

// Where the writer stands after a word, and the place past what it wrote.
#[derive(Clone, Copy)]
pub struct Written {
    pub writer: Writer,
    pub next: usize,
}

const EVENT_ROOM: usize = 151;

const BEGIN_ROOM: usize = 753;

const END_ROOM: usize = 22;

// Kind 3 with the pins 24 and 27, without a level.
const FIRST_PIN: u32 = 0x030018;

const LAST_PIN: u32 = 0x03001B;

const CLOCK_LIMIT: u64 = 2305843009212;

// ---- numbers

fn digit(n: u64) -> u8
    ensures { result ≡ 48 + n % 10 }
{
    48 + (n % 10) as u8
}

// A number in decimal, of k + 1 digits at most.
fn digits(out: &mut [u8], from: usize, n: u64, k: usize) -> usize
    requires { from + k < length out.old }
    ensures { Wrote out.old from (decimal_to k n) out.new result }
{
    if k == 0 {
        out[from] = digit(n);
        return from + 1;
    }
    if n < 10 {
        out[from] = digit(n);
        return from + 1;
    }
    let m = digits(out, from, n / 10, k - 1);
    out[m] = digit(n);
    m + 1
}

// The highest of twelve bits.
fn high_bit(v: u16) -> u8
    ensures { result ≡ 48 + v / 2048 % 2 }
{
    48 + (v / 2048 % 2) as u8
}

// The n highest of twelve bits.
fn bits(out: &mut [u8], from: usize, n: usize, v: u16) -> usize
    requires { from + n ≤ length out.old }
    ensures { Wrote out.old from (binary n v) out.new result }
{
    let mut x = v;
    for i in from..from + n {
        out[i] = high_bit(x);
        x = x % 2048 * 2;
    }
    from + n
}

// ---- lines

// `#` and a time.
fn time_line(out: &mut [u8], from: usize, t: u64) -> usize
    requires { from + 22 ≤ length out.old }
    ensures { Wrote out.old from (text (time t ∷ [])) out.new result }
{
    out[from] = 35;
    let m = digits(out, from + 1, t, 19);
    out[m] = 10;
    m + 1
}

fn level_digit(high: bool) -> u8
    ensures { result ≡ 48 + num high }
{
    b'0' + u8::from(high)
}

fn three_bytes(out: &mut [u8], from: usize, a: u8, b: u8, c: u8) -> usize
    requires { from + 3 ≤ length out.old }
    ensures { Wrote out.old from (a ∷ b ∷ c ∷ []) out.new result }
{
    out[from] = a;
    out[from + 1] = b;
    out[from + 2] = c;
    from + 3
}

// A level and a code.
fn change(out: &mut [u8], from: usize, high: bool, code: u8) -> usize
    requires { from + 3 ≤ length out.old }
    ensures { Wrote out.old from ((48 + num high) ∷ code ∷ 10 ∷ []) out.new result }
{
    three_bytes(out, from, level_digit(high), code, 10)
}

// The first level of a pin, as a vector of one bit.
fn first_line(out: &mut [u8], from: usize, high: bool, pin: u8) -> usize
    requires { (from + 5 ≤ length out.old) × (pin < 28) }
    ensures { Wrote out.old from (text (first high pin ∷ [])) out.new result }
{
    out[from] = 98;
    out[from + 1] = level_digit(high);
    out[from + 2] = 32;
    out[from + 3] = 73 + pin;
    out[from + 4] = 10;
    from + 5
}

// Those of the four pins.
fn first_lines(out: &mut [u8], from: usize, pins: u8) -> usize
    requires { from + 20 ≤ length out.old }
    ensures { Wrote out.old from (text (first_lines pins)) out.new result }
{
    let a = first_line(out, from, pins % 2 == 1, 24);
    let b = first_line(out, a, pins / 2 % 2 == 1, 25);
    let c = first_line(out, b, pins / 4 % 2 == 1, 26);
    first_line(out, c, pins / 8 % 2 == 1, 27)
}

// Whether a word gives one of the four pins a level.
#[tactic(auto, unfolding(crate::specs::Lines::is_pin))]
fn is_pin(word: u32) -> bool
    ensures { result ≡ is_pin word }
{
    matches!(word / 256, FIRST_PIN..=LAST_PIN) && word % 256 < 2
}

// The code of a pin: a for 24, and so on.
fn pin_code(word: u32) -> u8
    requires { is_pin word ≡ true }
    ensures { result ≡ 73 + (word / 256 - 196608) }
{
    73 + (word / 256 - 196608) as u8
}

// The level that a word gives one of the four pins.
fn pin_line(out: &mut [u8], from: usize, word: u32) -> usize
    requires { from + 3 ≤ length out.old }
    ensures { Wrote out.old from (text (pin_lines word)) out.new result }
{
    if is_pin(word) {
        return change(out, from, word % 256 == 1, pin_code(word));
    }
    from
}

// ---- what is watched

// One line, where it differs.
fn level_line(out: &mut [u8], from: usize, old: u16, new: u16, k: u8) -> usize
    requires { (from + 3 ≤ length out.old) × (k < 10) }
    ensures { Wrote out.old from (text (level_lines 1 k old new)) out.new result }
{
    if old % 2 == new % 2 {
        return from;
    }
    change(out, from, new % 2 == 1, 65 + k)
}

// Each of the ten lines that differs.
fn level_lines(out: &mut [u8], from: usize, old: u16, new: u16) -> usize
    requires { from + 30 ≤ length out.old }
    ensures { Wrote out.old from (text (level_lines 10 0 old new)) out.new result }
{
    let mut i = from;
    let mut o = old;
    let mut n = new;
    for k in 0..10u8 {
        i = level_line(out, i, o, n, k);
        o /= 2;
        n /= 2;
    }
    i
}

// How many bits the k-th vector has.
#[tactic(auto, unfolding(crate::specs::Watch::width_of))]
fn width_of(k: u8) -> usize
    ensures { (result ≡ width_of k) × (result ≤ 12) }
{
    match k {
        0..=2 => 8,
        3 | 4 => 12,
        _ => 3,
    }
}

// Its bits as the highest of twelve.
#[tactic(auto, unfolding(crate::specs::Watch::aligned))]
fn aligned(k: u8, v: u16) -> u16
    ensures { result ≡ aligned_to k v }
{
    match k {
        0..=2 => v % 256 * 16,
        3 | 4 => v % 4096,
        _ => v % 8 * 512,
    }
}

// The line of a vector.
fn vector_text(out: &mut [u8], from: usize, v: u16, k: u8) -> usize
    requires { (from + 16 ≤ length out.old) × (k < 6) }
    ensures { Wrote out.old from (text (vector (width_of k) (aligned_to k v) k ∷ [])) out.new result }
{
    out[from] = 98;
    let m = bits(out, from + 1, width_of(k), aligned(k, v));
    three_bytes(out, m, 32, 75 + k, 10)
}

// A vector's twelve bits, the lowest of those that are left.
fn lowest(vectors: u64) -> u16
    ensures { result ≡ vectors % 4096 }
{
    (vectors % 4096) as u16
}

// One vector, where it differs.
fn vector_line(out: &mut [u8], from: usize, old: u64, new: u64, k: u8) -> usize
    requires { (from + 16 ≤ length out.old) × (k < 6) }
    ensures { Wrote out.old from (text (vector_lines 1 k old new)) out.new result }
{
    if old % 4096 == new % 4096 {
        return from;
    }
    vector_text(out, from, lowest(new), k)
}

// Each of the six vectors that differs.
fn vector_lines(out: &mut [u8], from: usize, old: u64, new: u64) -> usize
    requires { from + 96 ≤ length out.old }
    ensures { Wrote out.old from (text (vector_lines 6 0 old new)) out.new result }
{
    let mut i = from;
    let mut o = old;
    let mut n = new;
    for k in 0..6u8 {
        i = vector_line(out, i, o, n, k);
        o /= 4096;
        n /= 4096;
    }
    i
}

#[tactic(auto, unfolding(crate::specs::Lines::same_watch))]
fn same_watch(old: Watch, new: Watch) -> bool
    ensures { result ≡ same_watch old new }
{
    old == new
}

// ---- a word

#[tactic(auto, unfolding(crate::specs::Lines::at_most))]
fn at_most(top: u64, x: u64) -> u64
    ensures { (result ≡ at_most top x) × (result ≤ top) }
{
    x.min(top)
}

// Where the writer stands after a word.
fn moves(w: Writer, word: u32, watch: Watch) -> Writer
    ensures { result ≡ moved w word watch }
{
    if word == 0x04000000 {
        return Writer {
            clocks: at_most(CLOCK_LIMIT - 1, w.clocks) + 1,
            since: 0,
            watch: watch,
        };
    }
    Writer {
        clocks: w.clocks,
        since: at_most(7998, w.since) + 1,
        watch: watch,
    }
}

fn time_of(w: Writer) -> u64
    ensures { result ≡ time_of w }
{
    at_most(CLOCK_LIMIT, w.clocks) * 8000 + at_most(7999, w.since)
}

// The time, and what changes at it.
fn changes(out: &mut [u8], from: usize, t: u64, word: u32, old: Watch, new: Watch) -> usize
    requires { from + 151 ≤ length out.old }
    ensures { Wrote out.old from (text (change_lines t word old new)) out.new result }
{
    let a = time_line(out, from, t);
    let b = pin_line(out, a, word);
    let c = level_lines(out, b, old.levels, new.levels);
    vector_lines(out, c, old.vectors, new.vectors)
}

// A word's lines: none where no pin is given a level and nothing watched differs.
fn event_lines(out: &mut [u8], from: usize, w: Writer, word: u32, watch: Watch) -> usize
    requires { from + 151 ≤ length out.old }
    ensures { Wrote out.old from (text (event_lines w word watch)) out.new result }
{
    let t = time_of(moves(w, word, watch));
    let old = w.watch;
    if is_pin(word) {
        return changes(out, from, t, word, old, watch);
    }
    if same_watch(old, watch) {
        return from;
    }
    changes(out, from, t, word, old, watch)
}

// ---- a dump in pieces

#[tactic(auto, unfolding(crate::specs::Wrote::fits))]
fn fits(places: usize, from: usize, size: usize) -> bool
    ensures { result ≡ fits_in places from size }
{
    places >= size && places - size >= from
}

// What an event word adds to a dump, with the lines and vectors watched after it; nothing where there are fewer than 151 places.
pub fn write_event(out: &mut [u8], from: usize, w: Writer, word: u32, watch: Watch) -> Written
    ensures { Wrote out.old from (event_bytes out.old from w word watch) out.new result.next × (result.writer ≡ moved_by out.old from w word watch) }
{
    if fits(out.len(), from, EVENT_ROOM) {
        let next = event_lines(out, from, w, word, watch);
        return Written {
            writer: moves(w, word, watch),
            next: next,
        };
    }
    Written {
        writer: w,
        next: from,
    }
}

// What ends a dump: the time of the last event; nothing where there are fewer than 22 places.
pub fn finish(out: &mut [u8], from: usize, w: Writer) -> usize
    ensures { Wrote out.old from (end_bytes out.old from w) out.new result }
{
    if fits(out.len(), from, END_ROOM) {
        return time_line(out, from, time_of(w));
    }
    from
}

// The lines at time 0.
fn begin_lines(out: &mut [u8], from: usize, pins: u8, watch: Watch) -> usize
    requires { from + 168 ≤ length out.old }
    ensures { Wrote out.old from (text (begin_lines pins watch)) out.new result }
{
    let a = time_line(out, from, 0);
    let b = first_lines(out, a, pins);
    let c = level_lines(out, b, 65535 - watch.levels, watch.levels);
    vector_lines(out, c, 18446744073709551615 - watch.vectors, watch.vectors)
}

// The header and the lines at time 0.
fn begin_all(out: &mut [u8], pins: u8, watch: Watch) -> usize
    requires { 753 ≤ length out.old }
    ensures { Wrote out.old 0 (header_text ++ (10 ∷ text (begin_lines pins watch))) out.new result }
{
    byte_copy::copy(
        b"$timescale 1 ns $end\n$scope module NT6861 $end\n$var wire 1 a SDA $end\n$var wire 1 b SCL $end\n$var wire 1 c HSYNCI $end\n$var wire 1 d VSYNCI $end\n$var wire 1 A RESET $end\n$var wire 1 B P16 $end\n$var wire 1 C SCL_line $end\n$var wire 1 D SDA_line $end\n$var wire 1 E REQ_V $end\n$var wire 1 F REQ_E $end\n$var wire 1 G REQ_R $end\n$var wire 1 H REQ_A $end\n$var wire 1 I REQ_D $end\n$var wire 1 J REQ_S $end\n$var wire 8 K IRQX $end\n$var wire 8 L II_STS $end\n$var wire 8 M II_DAT $end\n$var wire 12 N HCNT $end\n$var wire 12 O VCNT $end\n$var wire 3 P PHASE $end\n$upscope $end\n$enddefinitions $end\n",
        out,
    );
    begin_lines(out, 585, pins, watch)
}

// What begins a dump: the header, and every level and vector at time 0; nothing where there are fewer than 753 places.
pub fn begin(out: &mut [u8], pins: u8, watch: Watch) -> usize
    ensures { Wrote out.old 0 (begin_bytes out.old pins watch) out.new result }
{
    if fits(out.len(), 0, BEGIN_ROOM) {
        return begin_all(out, pins, watch);
    }
    0
}
