// What the counters of either chip have counted after a list of calls: statements and theorems, no code.
#![tactic(auto)]
