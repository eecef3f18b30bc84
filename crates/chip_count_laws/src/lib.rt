// What HCNT and VCNT have counted after a list of event words: statements and theorems, no code.
#![tactic(auto)]
