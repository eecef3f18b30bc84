// Theorems about dumps of replays: what is written is read back, in pieces as whole. There is no code here.
#![tactic(auto)]
