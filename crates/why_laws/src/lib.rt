// Theorems on the reasons of request lines; no code of its own.
#![tactic(auto)]
