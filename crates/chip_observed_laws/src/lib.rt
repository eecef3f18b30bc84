// What shows outside over runs: levels set again, RESET low, the interval, and what DDC1 puts on SDA: statements and theorems, no code.
#![tactic(auto)]
