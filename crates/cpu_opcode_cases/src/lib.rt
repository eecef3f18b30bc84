// The 6502's matrix of opcodes, written as the chip is commonly documented, and held against the table. There is no code here.
#![tactic(auto)]
