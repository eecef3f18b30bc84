// Demand 3 for the firmware call on bytes that a caller lends (document 02, Wishes 5 and 14). Definitions and theorems alone.
#![tactic(auto)]
