// The body of a value change dump, token by token, into event words.
#![tactic(auto)]

ghost use Rattle.std.specs.Prelude.{◌≡◌, true, false, ℕ, ◌<◌, ◌≤◌, ◌+◌, ◌-◌, ◌*◌, ◌/◌, List, [], ◌∷◌, length, take, drop, get_or};
ghost use Rattle.vcd_text.specs.Token.{tokens, white_length, word_length, decimal_of};
ghost use Rattle.vcd_codes.specs.Codes.{Found, variables, find, meant};
ghost use Rattle.vcd_steps.specs.Steps.{item_step, ends_as, meaning};
ghost use Rattle.vcd_steps.specs.declared.State.{State};
ghost use Rattle.vcd_body.specs.Trace.{token_as};
ghost use Rattle.vcd_body.specs.Pieces.{start as start_of, answer, closed, paused, turned, turn_by, placed, pieces};
ghost use Rattle.vcd_body.specs.Tables.{Singles, Lists};
ghost use Rattle.vcd_body.specs.Reader.{look, Ready};
ghost use Rattle.vcd_body.specs.Runs.{NextToken, Advances, Leads};

use vcd_items::Item;
use vcd_output::Put;
use vcd_steps::{Mode, State, Step};

// Where a call goes on: at a place of the file, where so many words of the token there are written.
#[derive(Clone, Copy)]
pub struct Cursor {
    pub at: usize,
    pub done: u64,
    pub state: State,
}

// What a call tells: how many words were written; the refusal, or number 0, and its place; where to go on after 43.
#[derive(Clone, Copy)]
pub struct Piece {
    pub count: usize,
    pub place: usize,
    pub number: u8,
    pub next: Cursor,
}

// What is to do after a token.
#[derive(Clone, Copy)]
pub enum Turn {
    // the token is refused, with number and place
    Stop(u8, usize),
    // no room for a word: how many words stand, and how many of the token are done
    Full(usize, u64),
    // the next state, and how many words stand
    On(State, usize),
}

// The cursor that begins.
pub fn start() -> Cursor
    ensures { result ≡ start_of }
{
    let s = State {
        mark: 0,
        opened: 0,
        time: 0,
        clocks: 0,
        mode: Mode::Plain,
        inside: false,
    };
    Cursor {
        at: 0,
        done: 0,
        state: s,
    }
}

// ---- the words of a token

// How many clocks are due and not yet given.
fn later(due: u64, given: u64) -> u64
    ensures { result ≡ due - given }
{
    due.saturating_sub(given)
}

fn written(s: State, put: Put) -> Turn
    ensures { result ≡ turn_by s put }
{
    if put.full {
        Turn::Full(put.count, put.done)
    } else {
        Turn::On(s, put.count)
    }
}

// The words of a step, written from a place on.
fn perform(step: Step, scale: u64, p: usize, done: u64, out: &mut [u32], count: usize) -> Turn
    ensures { turned out.new result ≡ placed (meaning scale p step) done count out.old }
{
    match step {
        Step::Refused(number, place) => Turn::Stop(number, place),
        Step::Silent(s) => Turn::On(s, count),
        Step::Timed(s, from) => written(
            s,
            vcd_output::clocks(out, count, later(s.clocks, from), done),
        ),
        Step::Changed(s, list, high) => written(s, vcd_output::pins(out, count, list, high, done)),
    }
}

// ---- what a code stands for, by tables

fn of_byte(text: &[u8], places: &[usize], pins: &[u8], entries: usize, b: u8) -> u64
    ensures { meant result ≡ find (variables text.now places.now pins.now 0 entries) (b ∷ []) }
{
    vcd_codes::list_of(text, places, pins, entries, &[b])
}

// What each code of one byte stands for.
fn fill_singles(
    text: &[u8],
    places: &[usize],
    pins: &[u8],
    entries: usize,
    singles: &mut [u64; 256],
)
    ensures { Singles text.now places.now pins.now entries singles.new 256 }
{
    for (b, list) in singles.iter_mut().enumerate() {
        *list = of_byte(text, places, pins, entries, b as u8);
    }
}

// What the code of each entry stands for.
fn fill_lists(text: &[u8], places: &[usize], pins: &[u8], entries: usize, lists: &mut [u64; 32])
    ensures { Lists text.now places.now pins.now entries lists.new 32 }
{
    for (k, list) in lists.iter_mut().enumerate() {
        *list = vcd_codes::list_at(text, places, pins, entries, k);
    }
}

// An entry by the hash of its code. It is compared with the code where it is used, so that any table is right.
fn fill_slots(text: &[u8], places: &[usize], slots: &mut [usize; 256]) {
    for k in 0..32 {
        slots[vcd_codes::hash_at(text, places, k)] = k;
    }
}

// What a body is read with: the file, its variables, tables that hold what a search for a code would find, the unit in ps, and the
// greatest time in units that 64 bits hold in ps.
#[derive(Drop)]
struct Reader<'a> {
    text: &'a [u8],
    places: &'a [usize],
    pins: &'a [u8],
    entries: usize,
    singles: &'a [u64; 256],
    lists: &'a [u64; 32],
    slots: &'a [usize; 256],
    scale: u64,
    limit: u64,
}

impl<'a> Reader<'a> {
    // What a code stands for: of one byte by a table, of more by its hash, and by a search where the slot has another code.
    fn found(&self, code: &[u8]) -> u64
        requires { Ready self.now }
        ensures { meant result ≡ look self.now code.now }
    {
        if code.len() == 1 {
            return self.singles[usize::from(code[0])];
        }
        let k = self.slots[vcd_codes::hash_of(code)];
        if k < 32 {
            if vcd_codes::is_code(self.text, self.places, k, code) {
                return self.lists[k];
            }
        }
        vcd_codes::list_of(self.text, self.places, self.pins, self.entries, code)
    }

    // What the code of a scalar change stands for; of other items no code is looked at.
    #[tactic(auto, unfolding(vcd_steps::specs::Steps::item_step))]
    fn scalar_code(&self, item: Item, t: &[u8]) -> u64
        requires tables { Ready self.now }
        requires t_nonzero { 0 < length t.now }
        ensures { (scale : ℕ) (s : State) (p : ℕ) → item_step item (meant result) scale s p ≡ item_step item (look self.now (drop 1 t.now)) scale s p }
    {
        match item {
            Item::Scalar(high) => self.found(&t[1..]),
            _ => 0,
        }
    }

    // The token by what the reader waits for.
    #[tactic(auto, unfolding(crate::specs::Trace::token_as))]
    fn token(&self, s: State, t: &[u8], p: usize) -> Step
        requires tables { Ready self.now }
        requires t_nonzero { 0 < length t.now }
        ensures { meaning self.now.scale p result ≡ token_as (look self.now) self.now.scale s.mode s t.now p }
    {
        match s.mode {
            Mode::Plain => {
                let item = vcd_items::item_of(t);
                let code = self.scalar_code(item, t);
                vcd_steps::step_item(item, code, self.scale, s, p)
            }
            Mode::Code => vcd_steps::step_code(self.found(t), self.scale, s, p),
            Mode::Comment => vcd_steps::step_comment(vcd_text::is_end(t), self.scale, s, p),
        }
    }

    // A change of a code of one byte.
    fn single_change(&self, out: &mut [u32], run: Run, p: usize) -> Run
        requires tables { Ready self.now }
        requires p_in_bounds { p + 2 < length self.now.text.now }
        requires bound { (47 < get_or self.now.text.now p 0) × (get_or self.now.text.now p 0 < 50) }
        ensures { (scale : ℕ) → NextToken self.now.text.now run.at p (p + 2) → Leads (look self.now) scale self.now.text.now run out.old result out.new }
    {
        let b = self.text[p + 1];
        write_change(out, run, self.singles[usize::from(b)], self.text[p], p + 2)
    }

    // A time that does not go back and is not above 64 bits in ps.
    fn short_time(&self, out: &mut [u32], run: Run, p: usize) -> Run
        requires tables { Ready self.now }
        requires p_in_bounds { (p < length self.now.text.now) × (get_or self.now.text.now p 0 ≡ 35) }
        requires scale_nonzero { 0 < self.now.scale }
        ensures { (find : List ℕ → Found) → p ≡ run.at + white_length (drop run.at self.now.text.now) → Leads find self.now.scale self.now.text.now run out.old result out.new }
    {
        let d = read_digits(self.text, p + 1);
        if d.end == p + 1 {
            return run;
        }
        if d.value < run.time {
            return run;
        }
        if self.limit < d.value {
            return run;
        }
        give_clocks(out, run, d, d.value * self.scale / 8000000)
    }

    // A change to 0 or 1.
    fn short_change(&self, out: &mut [u32], run: Run, p: usize) -> Run
        requires tables { Ready self.now }
        requires p_in_bounds { (p < length self.now.text.now) × (47 < get_or self.now.text.now p 0) × (get_or self.now.text.now p 0 < 50) }
        ensures { (scale : ℕ) → p ≡ run.at + white_length (drop run.at self.now.text.now) → Leads (look self.now) scale self.now.text.now run out.old result out.new }
    {
        let text = self.text;
        if is_single(text, p + 1) {
            return self.single_change(out, run, p);
        }
        let e = vcd_text::word_end(text, p + 1);
        let list = self.found(&text[p + 1..e]);
        write_change(out, run, list, text[p], e)
    }

    // A token of the run, or none where the next is another.
    fn run_token(&self, out: &mut [u32], run: Run) -> Run
        requires tables { Ready self.now }
        requires scale_nonzero { 0 < self.now.scale }
        requires at_in_bounds { run.at ≤ length self.now.text.now }
        ensures { Leads (look self.now) self.now.scale self.now.text.now run out.old result out.new }
    {
        let text = self.text;
        let p = token_from(text, run.at);
        if p < text.len() {
            if text[p] == 35 {
                return self.short_time(out, run, p);
            }
            if is_level(text[p]) {
                return self.short_change(out, run, p);
            }
        }
        run
    }

    // As many tokens as go on with the run. A `while`: a token, and not the loop, says where the next begins.
    fn run_tokens(&self, out: &mut [u32], from: Run) -> Run
        requires tables { Ready self.now }
        requires scale_nonzero { 0 < self.now.scale }
        ensures { Leads (look self.now) self.now.scale self.now.text.now from out.old result out.new }
    {
        let mut run = from;
        while run.at < self.text.len() {
            let next = self.run_token(out, run);
            if next.at == run.at {
                return next;
            }
            run = next;
        }
        run
    }

    fn run_from(&self, out: &mut [u32], from: Position) -> Position
        requires tables { Ready self.now }
        requires scale_nonzero { 0 < self.now.scale }
        requires mode_value { (from.state.mode ≡ Mode.Plain) × (from.state.inside ≡ false) }
        ensures { (from.at ≤ result.at) × (pieces (look self.now) self.now.scale result.state 0 result.count out.new (tokens false result.at (drop result.at self.now.text.now)) ≡ pieces (look self.now) self.now.scale from.state 0 from.count out.old (tokens false from.at (drop from.at self.now.text.now))) }
    {
        let s = from.state;
        let start = Run {
            at: from.at,
            count: from.count,
            time: s.time,
            clocks: s.clocks,
        };
        let run = self.run_tokens(out, start);
        let next = State {
            time: run.time,
            clocks: run.clocks,
            ..s
        };
        Position {
            at: run.at,
            count: run.count,
            state: next,
        }
    }

    // The run of a position, where it may have one.
    fn pass_run(&self, done: u64, out: &mut [u32], from: Position) -> Position
        requires { Ready self.now }
        ensures { (from.at ≤ result.at) × (pieces (look self.now) self.now.scale result.state done result.count out.new (tokens false result.at (drop result.at self.now.text.now)) ≡ pieces (look self.now) self.now.scale from.state done from.count out.old (tokens false from.at (drop from.at self.now.text.now))) }
    {
        if 0 < done {
            return from;
        }
        if self.scale == 0 {
            return from;
        }
        if is_plain(from.state) {
            return self.run_from(out, from);
        }
        from
    }

    // The tokens one after the other. A `while`: a token, and not the loop, says where the next begins.
    fn read_tokens(&self, out: &mut [u32], from: Cursor) -> Piece
        requires { Ready self.now }
        ensures { answer out.new result ≡ pieces (look self.now) self.now.scale from.state from.done 0 out.old (tokens false from.at (drop from.at self.now.text.now)) }
    {
        let text = self.text;
        let mut s = from.state;
        let mut done = from.done;
        let mut count = 0;
        let mut at = from.at;
        while at < text.len() {
            let position = Position {
                at,
                count,
                state: s,
            };
            let after = self.pass_run(done, out, position);
            s = after.state;
            count = after.count;
            let p = vcd_text::skip_white(text, after.at);
            if p < text.len() {
                let e = vcd_text::word_end(text, p);
                let step = self.token(s, &text[p..e], p);
                let turn = perform(step, self.scale, p, done, out, count);
                match turn {
                    Turn::Stop(number, place) => {
                        return close(count, number, place);
                    }
                    Turn::Full(n, given) => {
                        return pause(n, p, given, s);
                    }
                    Turn::On(next, n) => {
                        s = next;
                        count = n;
                        done = 0;
                        at = e;
                    }
                }
            } else {
                return finish(s, count);
            }
        }
        finish(s, count)
    }
}

// ---- runs of changes of one pin and of times
//
// They are most of a file. A run of them is read with few tests and moves four numbers only; what is not simple is left to the
// reader of any token.

// Where a run stands: at a place of the file, after so many words, at a time with so many clocks due up to it.
#[derive(Clone, Copy)]
pub struct Run {
    pub at: usize,
    pub count: usize,
    pub time: u64,
    pub clocks: u64,
}

// A number and where it ends; it ends where it begins if it is none, or is not clearly below 2^64.
#[derive(Clone, Copy)]
pub struct Digits {
    pub end: usize,
    pub value: u64,
}

// The number that a word is, looked at once.
fn read_digits(text: &[u8], from: usize) -> Digits
    requires { from ≤ length text.now }
    ensures { (from ≤ result.end) × (from < result.end → (result.end ≡ from + word_length (drop from text.now)) × (decimal_of (take (result.end - from) (drop from text.now)) ≡ Ok result.value)) }
{
    let mut v: u64 = 0;
    for i in from..text.len() {
        let b = text[i];
        if vcd_text::white(b) {
            return Digits { end: i, value: v };
        }
        if is_plain_digit(b, v) {
            v = v * 10 + u64::from(b - 48);
        } else {
            return Digits {
                end: from,
                value: 0,
            };
        }
    }
    Digits {
        end: text.len(),
        value: v,
    }
}

// A digit after a number that is so small that no digit makes it 2^64.
fn is_plain_digit(b: u8, v: u64) -> bool
    ensures { result ≡ true → (47 < b) × (b < 58) × (v < 1844674407370955161) }
{
    b.is_ascii_digit() && v < 1844674407370955161
}

// The place of the next token. Most often one white byte stands before it.
fn token_from(text: &[u8], from: usize) -> usize
    requires { from ≤ length text.now }
    ensures { result ≡ from + white_length (drop from text.now) }
{
    if text.len() - from < 2 {
        return vcd_text::skip_white(text, from);
    }
    if vcd_text::white(text[from]) {
        if vcd_text::white(text[from + 1]) {
            return vcd_text::skip_white(text, from);
        }
        return from + 1;
    }
    from
}

// One byte stands before white space.
fn is_single(text: &[u8], from: usize) -> bool
    requires { from ≤ length text.now }
    ensures { result ≡ true → (from + 1 < length text.now) × (from + 1 ≡ from + word_length (drop from text.now)) }
{
    if text.len() - from < 2 {
        return false;
    }
    if vcd_text::white(text[from]) {
        return false;
    }
    vcd_text::white(text[from + 1])
}

fn moved(run: Run, at: usize, count: usize) -> Run
    ensures { result ≡ record { at = at; count = count; time = run.time; clocks = run.clocks } }
{
    Run { at, count, ..run }
}

fn change_word(pin: u64, b: u8) -> u32
    requires { (pin < 256) × (47 < b) × (b < 50) }
    ensures { result ≡ 50331648 + (b - 48) + pin * 256 }
{
    50331648 + u32::from(b - 48) + pin as u32 * 256
}

// The byte is 0 or 1.
fn is_level(b: u8) -> bool
    ensures { result ≡ true → (47 < b) × (b < 50) }
{
    matches!(b, b'0' | b'1')
}

// The word of a change to 0 or 1 of a code that stands for one pin; none where it stands for no pin.
fn write_change(out: &mut [u32], run: Run, list: u64, b: u8, e: usize) -> Run
    requires { (47 < b) × (b < 50) }
    ensures { (find : List ℕ → Found) (scale : ℕ) (text : List ℕ) (p : ℕ) → NextToken text run.at p e → b ≡ get_or text p 0 → meant list ≡ find (drop 1 (take (e - p) (drop p text))) → Leads find scale text run out.old result out.new }
{
    if 255 < list {
        return run;
    }
    if list == 0 {
        return moved(run, e, run.count);
    }
    let n = run.count;
    if n < out.len() {
        out[n] = change_word(list, b);
        return moved(run, e, n + 1);
    }
    run
}

fn has_room(room: usize, count: usize, n: u64) -> bool
    ensures { result ≡ true → 0 < n → count + n ≤ room }
{
    if count < room {
        return n <= (room - count) as u64;
    }
    n == 0
}

// The clocks of a time, where there is a place for each.
fn give_clocks(out: &mut [u32], run: Run, d: Digits, due: u64) -> Run
    ensures { (find : List ℕ → Found) (scale : ℕ) (text : List ℕ) (p : ℕ) → Advances find scale text run p d.end d.value due → Leads find scale text run out.old result out.new }
{
    let n = later(due, run.clocks);
    if has_room(out.len(), run.count, n) {
        let put = vcd_output::clocks(out, run.count, n, 0);
        return Run {
            at: d.end,
            count: put.count,
            time: d.value,
            clocks: due,
        };
    }
    run
}

// Where the reader stands before a token: at a place of the file, after so many words, in a state.
#[derive(Clone, Copy)]
pub struct Position {
    pub at: usize,
    pub count: usize,
    pub state: State,
}

fn is_plain(s: State) -> bool
    ensures { result ≡ true → (s.mode ≡ Mode.Plain) × (s.inside ≡ false) }
{
    !s.inside && matches!(s.mode, Mode::Plain)
}

// The greatest time in units that 64 bits hold in ps.
fn limit_of(scale: u64) -> u64
    ensures { 0 < scale → result ≡ 18446744073709551615 / scale }
{
    if scale == 0 {
        return 0;
    }
    u64::MAX / scale
}

// ---- the tokens one after the other

fn close(count: usize, number: u8, place: usize) -> Piece
    ensures { result ≡ closed count number place }
{
    let next = start();
    Piece {
        count: count,
        place: place,
        number: number,
        next: next,
    }
}

fn pause(count: usize, place: usize, done: u64, s: State) -> Piece
    ensures { result ≡ paused count place done s }
{
    let next = Cursor {
        at: place,
        done: done,
        state: s,
    };
    Piece {
        count: count,
        place: place,
        number: 43,
        next: next,
    }
}

fn finish(s: State, count: usize) -> Piece
    ensures { result ≡ closed count (ends_as s.mode s).number (ends_as s.mode s).place }
{
    let e = vcd_steps::ended(s);
    close(count, e.number, e.place)
}

// The body of a file, from a cursor on, into lent places.
pub fn read(
    text: &[u8],
    places: &[usize],
    pins: &[u8],
    entries: usize,
    scale: u64,
    out: &mut [u32],
    from: Cursor,
) -> Piece
    ensures { answer out.new result ≡ pieces (find (variables text.now places.now pins.now 0 entries)) scale from.state from.done 0 out.old (tokens false from.at (drop from.at text.now)) }
{
    let mut singles = [0; 256];
    fill_singles(text, places, pins, entries, &mut singles);
    let mut lists = [0; 32];
    fill_lists(text, places, pins, entries, &mut lists);
    // 32 for none
    let mut slots = [32; 256];
    fill_slots(text, places, &mut slots);
    let reader = Reader {
        text,
        places,
        pins,
        entries,
        singles: &singles,
        lists: &lists,
        slots: &slots,
        scale,
        limit: limit_of(scale),
    };
    reader.read_tokens(out, from)
}
