// Two transfers to other devices end in equal answers and states, but for II DAT, the level of SDA and address bits not yet
// whole (document 01, "How tight each statement is"): definitions and theorems alone.
#![tactic(auto)]
