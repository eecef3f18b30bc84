// Rules of a firmware run (document 02, Wish 5): its numbers, what a refusal leaves, cycles and clocks, well formed states, interrupt and
// reset, and a run taken in two parts. Definitions and theorems alone.
#![tactic(auto)]
