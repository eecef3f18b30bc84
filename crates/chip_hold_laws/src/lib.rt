// How long the chip has held SCL low after a list of event words: statements and theorems, no code.
#![tactic(auto)]
