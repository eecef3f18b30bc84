// A state in a lent area of 128 bytes: a fresh one, the step, the list call, the hold of SCL, the address outcome and the lines.
#![tactic(auto)]

ghost use Rattle.std.specs.Prelude.{◌≡◌, true, ◌*◌};
ghost use Rattle.chip.specs.State.{fresh as fresh_of};
ghost use Rattle.chip_well_formed.specs.WellFormed.{well_formed};
ghost use Rattle.step.specs.Step.{step as step_of};
ghost use Rattle.state_area.specs.Area.{fault_number, store_number, store_left};
ghost use Rattle.state_calls.specs.Calls.{step_area, step_answer, run_number, run_area, run_places, hold_in, outcome_in, lines_in};

use chip::Chip;
use state_area::AreaFault;
use step::Stepped;

// The number of a refused area, in bits 31 to 24 of an answer.
fn in_top_byte(fault: AreaFault) -> u32
    ensures { result ≡ fault_number fault * 16777216 }
{
    u32::from(u8::from(fault)) * 16777216
}

// A fresh state into the area.
pub fn fresh(area: &mut [u8]) -> u8
    ensures { (result ≡ store_number fresh_of area.old) × (area.new ≡ store_left fresh_of area.old) }
{
    match state_area::store(chip::fresh(), area) {
        Ok(()) => 0,
        Err(fault) => u8::from(fault),
    }
}

// The step of a well formed state, by the list call on one word: the code that carries out an event then stands at one place of a
// library that has both, and the compiler puts it into the loop. The area was read as a well formed state: it is not tested again.
fn stepped(c: Chip, word: u32) -> Stepped
    requires { well_formed c ≡ true }
    ensures { result ≡ step_of c word }
{
    let words = [word];
    let mut places = [0];
    let done = list_call::advance_all(c, &words, &mut places);
    Stepped {
        chip: done.chip,
        answer: places[0],
    }
}

// Steps the state in the area by a word, and answers.
pub fn step(area: &mut [u8], word: u32) -> u32
    ensures { (result ≡ step_answer area.old word) × (area.new ≡ step_area area.old word) }
{
    match state_area::load(area) {
        Ok(c) => {
            let done = stepped(c, word);
            state_area::put(done.chip, area);
            done.answer
        },
        Err(fault) => in_top_byte(fault),
    }
}

// The list call on the state in the area.
pub fn run(area: &mut [u8], words: &[u32], answers: &mut [u32]) -> u8
    ensures { (result ≡ run_number area.old words.now answers.old) × (area.new ≡ run_area area.old words.now answers.old) × (answers.new ≡ run_places area.old words.now answers.old) }
{
    match state_area::load(area) {
        Ok(c) => {
            let done = list_call::advance_all(c, words, answers);
            state_area::put(done.chip, area);
            done.number
        },
        Err(fault) => u8::from(fault),
    }
}

// For how many clocks of 8 µs SCL has been held, in bits 15 to 0; 15 or 8 in bits 31 to 24.
pub fn hold(area: &[u8]) -> u32
    ensures { result ≡ hold_in area.now }
{
    match state_area::load(area) {
        Ok(c) => chip_hold::hold_word(chip_hold::held_for(c)),
        Err(fault) => in_top_byte(fault),
    }
}

// By which address the current transfer was called: 0 none, 1 A0H, 2 II ADR, 3 both; 15 or 8 in bits 31 to 24.
pub fn called_by(area: &[u8]) -> u32
    ensures { result ≡ outcome_in area.now }
{
    match state_area::load(area) {
        Ok(c) => chip_address_match::outcome_word(chip_address_match::called_by(c)),
        Err(fault) => in_top_byte(fault),
    }
}

// The levels of SDA and SCL in bits 0 and 1, and that the chip pulls them in bits 2 and 3; 15 or 8 in bits 31 to 24.
pub fn lines(area: &[u8]) -> u32
    ensures { result ≡ lines_in area.now }
{
    match state_area::load(area) {
        Ok(c) => chip_lines::lines_word(chip_lines::line_levels(c)),
        Err(fault) => in_top_byte(fault),
    }
}
