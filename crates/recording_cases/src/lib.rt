// A block of a recording written out byte by byte, and blocks that are refused, computed from the definitions. There is no code here.
#![tactic(auto)]
