// The chip for programs in C, Rust and others: a state in an area of 128 bytes that the caller lends, and calls on it
// (include/nt6861.h). A slice passes as a pointer and a length.
#![tactic(auto)]

ghost use Rattle.std.specs.Prelude.{◌≡◌};
ghost use Rattle.chip.specs.State.{fresh};
ghost use Rattle.list_call.specs.Run.{run as run_of, run_answers};
ghost use Rattle.state_area.specs.Area.{store_number, store_left};
ghost use Rattle.state_calls.specs.Calls.{step_area, step_answer, run_number, run_area, run_places, hold_in, outcome_in, lines_in};
ghost use Rattle.state_rate.specs.Rate.{rate_in, hertz_in};
ghost use Rattle.chip_capi.specs.Version.{version as version_of};

// The version of the library: major, minor and patch, each in a byte.
const VERSION: u32 = 0x1_00_00;

#[unsafe(no_mangle)]
pub extern "C" fn nt6861_version() -> u32
    ensures { result ≡ version_of }
{
    VERSION
}

// A fresh chip into the area: 0, or 15 and nothing written.
#[unsafe(no_mangle)]
pub extern "C" fn nt6861_fresh(area: &mut [u8]) -> u8
    ensures { (result ≡ store_number fresh area.old) × (area.new ≡ store_left fresh area.old) }
{
    state_calls::fresh(area)
}

// Steps the chip in the area by an event word, and answers.
#[unsafe(no_mangle)]
pub extern "C" fn nt6861_step(area: &mut [u8], word: u32) -> u32
    ensures { (result ≡ step_answer area.old word) × (area.new ≡ step_area area.old word) }
{
    state_calls::step(area, word)
}

// The list call on the chip in the area.
#[unsafe(no_mangle)]
pub extern "C" fn nt6861_run(area: &mut [u8], words: &[u32], answers: &mut [u32]) -> u8
    ensures { (result ≡ run_number area.old words.now answers.old) × (area.new ≡ run_area area.old words.now answers.old) × (answers.new ≡ run_places area.old words.now answers.old) }
{
    state_calls::run(area, words, answers)
}

// Gives the words to a fresh chip, writes their answers, and returns 0; or returns 7 and writes nothing where there are fewer
// answer places than words.
#[unsafe(no_mangle)]
pub extern "C" fn nt6861_replay(words: &[u32], answers: &mut [u32]) -> u8
    ensures { (result ≡ (run_of fresh words.now answers.old).number) × (answers.new ≡ run_answers fresh words.now answers.old) }
{
    let done = list_call::run(chip::fresh(), words, answers);
    done.number
}

// For how many clocks of 8 µs the chip in the area holds SCL low.
#[unsafe(no_mangle)]
pub extern "C" fn nt6861_hold(area: &[u8]) -> u32
    ensures { result ≡ hold_in area.now }
{
    state_calls::hold(area)
}

// By which address the transfer under way was called.
#[unsafe(no_mangle)]
pub extern "C" fn nt6861_outcome(area: &[u8]) -> u32
    ensures { result ≡ outcome_in area.now }
{
    state_calls::called_by(area)
}

// The levels of SDA and SCL, and which of them the chip in the area pulls.
#[unsafe(no_mangle)]
pub extern "C" fn nt6861_lines(area: &[u8]) -> u32
    ensures { result ≡ lines_in area.now }
{
    state_calls::lines(area)
}

// The field rate (0) or the line rate (1) of the chip in the area.
#[unsafe(no_mangle)]
pub extern "C" fn nt6861_rate(area: &[u8], which: u32, hertz: &mut f64) -> u32
    ensures { (result ≡ rate_in area.now which) × (hertz.new ≡ hertz_in area.now which hertz.old) }
{
    state_rate::rate(area, which, hertz)
}
