// The causes of the six interrupt flags: statements and theorems, no code.
#![tactic(auto)]
