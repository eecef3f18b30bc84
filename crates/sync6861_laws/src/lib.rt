// The counters' unit for the NT6861 is tied to the chip's own step. There is no code here.
#![tactic(auto)]
