// Which of the chip's addresses the state keeps after a list of event words: statements and theorems, no code.
#![tactic(auto)]
