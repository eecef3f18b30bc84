// What each token of a dump's body does: a refusal, or the reader's next state and the events that it brings.
#![tactic(auto)]

ghost use Rattle.std.specs.Prelude.{◌≡◌, ◌<◌, ◌-◌};
ghost use Rattle.vcd_codes.specs.Codes.{meant};
ghost use Rattle.vcd_steps.specs.Steps.{at_mode, in_dump, at_time, advanced, time_of, change_of, code_of, dump_of, end_of, comment_of, commented, item_step, ends_as, meaning};

use vcd_items::Item;
use vcd_text::NumberError;

// What the reader waits for.
#[derive(Clone, Copy)]
pub enum Mode {
    // a time, a change or a keyword
    Plain,
    // the code of a b or r change
    Code,
    // the end of a comment
    Comment,
}

// Where the reader of the body stands: the place of the comment or change that it waits in, the place of the dump that it is
// inside of, the time in units, and how many clocks were due up to that time.
#[derive(Clone, Copy)]
pub struct State {
    pub mark: usize,
    pub opened: usize,
    pub time: u64,
    pub clocks: u64,
    pub mode: Mode,
    pub inside: bool,
}

// What a token does.
#[derive(Clone, Copy)]
pub enum Step {
    // number and place
    Refused(u8, usize),
    Silent(State),
    // the clocks of the new state, but for those before it
    Timed(State, u64),
    // a change of the pins of a list, and whether it is to 1
    Changed(State, u32, bool),
}

// The refusal at the end of the file, or number 0.
#[derive(Clone, Copy)]
pub struct Ending {
    pub place: usize,
    pub number: u8,
}

fn at_mode(s: State, mode: Mode, mark: usize) -> State
    ensures { result ≡ at_mode s mode mark }
{
    State { mark, mode, ..s }
}

fn in_dump(s: State, inside: bool, opened: usize) -> State
    ensures { result ≡ in_dump s inside opened }
{
    State {
        opened,
        inside,
        ..s
    }
}

fn at_time(s: State, time: u64, clocks: u64) -> State
    ensures { result ≡ at_time s time clocks }
{
    State { time, clocks, ..s }
}

// ---- times

// A time in units of scale ps. The quotient is tested, so that the product does not wrap.
fn advance(scale: u64, s: State, time: u64, p: usize) -> Step
    requires { 0 < scale }
    ensures { meaning scale p result ≡ advanced scale s time p }
{
    if time < s.time {
        return Step::Refused(41, p);
    }
    if time > u64::MAX / scale {
        return Step::Refused(44, p);
    }
    Step::Timed(at_time(s, time, time * scale / 8000000), s.clocks)
}

#[tactic(auto, unfolding(crate::specs::Steps::time_of, crate::specs::Steps::time_as, crate::specs::Steps::meaning))]
fn time(number: Result<u64, NumberError>, scale: u64, s: State, p: usize) -> Step
    ensures { meaning scale p result ≡ time_of number scale s p }
{
    if s.inside || scale == 0 {
        return Step::Refused(40, p);
    }
    match number {
        Err(NumberError::Bad) => Step::Refused(40, p),
        Err(NumberError::Big) => Step::Refused(44, p),
        Ok(n) => advance(scale, s, n, p),
    }
}

// ---- changes

#[tactic(auto, unfolding(crate::specs::Steps::change_of, crate::specs::Steps::meaning, vcd_codes::specs::Codes::meant))]
fn change(found: u64, high: bool, scale: u64, s: State, p: usize) -> Step
    ensures { meaning scale p result ≡ change_of (meant found) high scale s p }
{
    if found < 4294967296 {
        return Step::Changed(s, found as u32, high);
    }
    Step::Refused(40, p)
}

// The code of a b or r change.
#[tactic(auto, unfolding(crate::specs::Steps::code_of, crate::specs::Steps::meaning, vcd_codes::specs::Codes::meant))]
pub fn step_code(found: u64, scale: u64, s: State, p: usize) -> Step
    ensures { meaning scale p result ≡ code_of (meant found) s }
{
    if found < 4294967296 {
        return Step::Silent(at_mode(s, Mode::Plain, 0));
    }
    Step::Refused(40, s.mark)
}

// ---- keywords

#[tactic(auto, unfolding(crate::specs::Steps::dump_of, crate::specs::Steps::meaning))]
fn dump(scale: u64, s: State, p: usize) -> Step
    ensures { meaning scale p result ≡ dump_of s p }
{
    if s.inside {
        return Step::Refused(40, p);
    }
    Step::Silent(in_dump(s, true, p))
}

#[tactic(auto, unfolding(crate::specs::Steps::end_of, crate::specs::Steps::meaning))]
fn end(scale: u64, s: State, p: usize) -> Step
    ensures { meaning scale p result ≡ end_of s p }
{
    if s.inside {
        return Step::Silent(in_dump(s, false, 0));
    }
    Step::Refused(40, p)
}

#[tactic(auto, unfolding(crate::specs::Steps::comment_of, crate::specs::Steps::meaning))]
fn comment(scale: u64, s: State, p: usize) -> Step
    ensures { meaning scale p result ≡ comment_of s p }
{
    if s.inside {
        return Step::Refused(40, p);
    }
    Step::Silent(at_mode(s, Mode::Comment, p))
}

// A token of a comment, and whether it is `$end`.
#[tactic(auto, unfolding(crate::specs::Steps::commented, crate::specs::Steps::meaning))]
pub fn step_comment(end: bool, scale: u64, s: State, p: usize) -> Step
    ensures { meaning scale p result ≡ commented end s }
{
    if end {
        return Step::Silent(at_mode(s, Mode::Plain, 0));
    }
    Step::Silent(s)
}

// ---- a token

// A token that stands by itself; what its code stands for, where it is a scalar change.
#[tactic(auto, unfolding(crate::specs::Steps::item_step, crate::specs::Steps::meaning))]
pub fn step_item(item: Item, found: u64, scale: u64, s: State, p: usize) -> Step
    ensures { meaning scale p result ≡ item_step item (meant found) scale s p }
{
    match item {
        Item::Scalar(high) => change(found, high, scale, s, p),
        Item::Value => Step::Silent(at_mode(s, Mode::Code, p)),
        Item::Time(number) => time(number, scale, s, p),
        Item::Dump => dump(scale, s, p),
        Item::End => end(scale, s, p),
        Item::Comment => comment(scale, s, p),
        Item::Bad => Step::Refused(40, p),
    }
}

// ---- the end of the file

#[tactic(auto, unfolding(crate::specs::Steps::ends_as))]
fn plain_end(s: State) -> Ending
    ensures { result ≡ ends_as Mode.Plain s }
{
    if s.inside {
        return Ending {
            place: s.opened,
            number: 40,
        };
    }
    Ending {
        place: 0,
        number: 0,
    }
}

// What the end of the file cuts off.
#[tactic(auto, unfolding(crate::specs::Steps::ends_as))]
pub fn ended(s: State) -> Ending
    ensures { result ≡ ends_as s.mode s }
{
    match s.mode {
        Mode::Plain => plain_end(s),
        Mode::Code | Mode::Comment => Ending {
            place: s.mark,
            number: 40,
        },
    }
}
