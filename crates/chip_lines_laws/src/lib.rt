// The reported lines beside what PT3 shows, START and STOP, and demand 3: statements and theorems, no code.
#![tactic(auto)]
