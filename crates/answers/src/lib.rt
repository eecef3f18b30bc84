// Answer words (document 01, "Event words").
#![tactic(auto)]

ghost use Rattle.std.specs.Prelude.{◌≡◌};
ghost use Rattle.answers.specs.Answer.{answer_word, answer_fields};

// The parts of an answer word.
#[derive(Clone, Copy)]
pub struct AnswerFields {
    pub number: u8,
    pub watchdog: bool,
    pub requests: u8,
    pub byte: u8,
}

// The answer word with these parts; bits 23..17 are 0.
pub fn answer(number: u8, watchdog: bool, requests: u8, byte: u8) -> u32
    ensures { result ≡ answer_word number watchdog requests byte }
{
    u32::from_be_bytes([number, u8::from(watchdog), requests, byte])
}

// The parts of an answer word; bits 23..17 are not looked at.
pub fn answer_fields(word: u32) -> AnswerFields
    ensures { result ≡ answer_fields word }
{
    let [number, reset, requests, byte] = word.to_be_bytes();
    AnswerFields {
        number,
        watchdog: reset % 2 == 1,
        requests,
        byte,
    }
}
