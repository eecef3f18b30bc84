// Well formed states, computed clause by clause (document 01, "Numbers given back"): for each clause states at its bound, and states
// that break it alone. Definitions and theorems alone.
#![tactic(auto)]
