// What a register write alters and what it leaves: statements and theorems, no code.
#![tactic(auto)]
