// Calls of the sync counters of either chip, each at a bound, computed from the definitions. There is no code here.
#![tactic(auto)]
