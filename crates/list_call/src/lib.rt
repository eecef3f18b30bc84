// The list call: words in a lent slice, answers in another.
#![tactic(auto)]

ghost use Rattle.std.specs.Prelude.{◌≡◌, ◌≤◌, ◌++◌, length, drop};
ghost use Rattle.list_call.specs.Run.{advanced, advanced_answers, advance_all, advance_all_answers, run as run_of, run_answers};

use chip::Chip;

// What a list call gives back: the chip after the words, and 0, 7 or 8.
#[derive(Clone, Copy)]
pub struct RunResult {
    pub chip: Chip,
    pub number: u8,
}

// Every word to the chip, its answer to the same place. The state is not tested again. The loop keeps the array of stored
// registers and the core as two locals, so that neither is copied.
fn run_all(c: Chip, words: &[u32], answers: &mut [u32]) -> Chip
    requires { length words.now ≤ length answers.old }
    ensures { (result ≡ advanced c words.now) × (answers.new ≡ advanced_answers c words.now ++ drop (length words.now) answers.old) }
{
    let mut registers = c.registers;
    let mut core = c.core;
    for (i, word) in words.iter().enumerate() {
        let done = step::advance_word(&mut registers, core, *word);
        core = done.core;
        answers[i] = done.answer;
    }
    Chip { registers, core }
}

// The list call at a state that is known to be well formed: it is not tested.
pub fn advance_all(c: Chip, words: &[u32], answers: &mut [u32]) -> RunResult
    ensures { (result ≡ advance_all c words.now answers.old) × (answers.new ≡ advance_all_answers c words.now answers.old) }
{
    if answers.len() < words.len() {
        RunResult { chip: c, number: 7 }
    } else {
        let s = run_all(c, words, answers);
        RunResult { chip: s, number: 0 }
    }
}

// The list call. It tests the state once, answers word by word, and writes nothing where it is refused.
pub fn run(c: Chip, words: &[u32], answers: &mut [u32]) -> RunResult
    ensures { (result ≡ run_of c words.now answers.old) × (answers.new ≡ run_answers c words.now answers.old) }
{
    if chip_well_formed::well_formed(c) {
        advance_all(c, words, answers)
    } else {
        RunResult { chip: c, number: 8 }
    }
}
