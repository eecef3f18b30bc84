// Flag D in DDC2B, told by the clocks of a byte and not by the phase (document 01, "The bus"). Definitions and theorems alone.
#![tactic(auto)]
