// Firmware runs through foreign transfers, computed (document 02, Wish 5): the premises of the theorem hold at a concrete firmware, and none
// of them can be left out. The rules of a run, and each operation of the CPU, at small programs, against numbers written out by hand.
// Definitions and theorems alone.
#![tactic(auto)]
