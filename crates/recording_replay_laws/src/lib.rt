// A recording of any length, replayed in parts as the program `recording` does it (document 02, Wish 1). Definitions and theorems alone.
#![tactic(auto)]
