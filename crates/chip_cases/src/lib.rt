// The cases P1 to P12 of document 01. They are computed from the definitions; there is no code here.
#![tactic(auto)]
