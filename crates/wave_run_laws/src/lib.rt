// Theorems about the dump of a run: what is watched with each word and shown by a viewer, reading it back, and its blocks. There is no code here.
#![tactic(auto)]
