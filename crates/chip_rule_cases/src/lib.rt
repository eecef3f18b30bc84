// Rules of document 01 and of Wish 2, each shown by a short run of the chip. They are computed from the definitions; there is no code here.
#![tactic(auto)]
