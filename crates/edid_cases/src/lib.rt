// EDID blocks with the number of each, computed from the definitions. There is no code here.
#![tactic(auto)]
