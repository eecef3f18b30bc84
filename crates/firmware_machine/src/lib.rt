// A firmware run (document 02, Wish 5): the CPU with its RAM and ROM and the chip's registers, events between instructions, and the
// firmware call: definitions and laws alone.
#![tactic(auto)]
