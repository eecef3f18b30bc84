// Theorems about the trace that a dump is: what a call writes of it, and the order of its events. There is no code here.
#![tactic(auto)]
