// That the steps of a firmware run make the run (document 02, Wish 5). Definitions and theorems alone.
#![tactic(auto)]
