// Runs through transfers to other devices, computed (document 02, Wish 13): several of them in one pair of runs, and for each
// premise a pair that fails it alone and does not agree. Definitions and theorems alone.
#![tactic(auto)]
