// Bytes written to II DAT come out on SDA in DDC1, bit by bit (document 02, Wish 7): definitions and theorems alone.
#![tactic(auto)]
